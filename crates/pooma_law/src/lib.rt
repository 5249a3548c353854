//! The law of legal histories: in whatever order entries are dispatched and released, what is lent, what the objects have
//! and what is answered is what doing the entries one after another gives. Beside it laws on histories and on the values
//! that they give.
//!
//! The functions here do nothing. Each is a law: a proof calls it for its contract.
#![tactic(auto)]

pub use agree::legal_histories_agree;
pub use compose::ser_composes;
pub use grow::legal_histories_grow;
pub use keep::values_stay;
pub use tell::legal_histories_tell;

mod agree;
mod compose;
mod grow;
mod keep;
mod tell;
