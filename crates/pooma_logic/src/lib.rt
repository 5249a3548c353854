//! Logic that proofs of several crates need, with no code: which elements lists have, what holds of all of them, of their
//! pairs and of those that pass a test, and of which facts it can be told whether they hold. It speaks of no subject, and the
//! proofs of any crate may cite it.
#![tactic(auto)]
