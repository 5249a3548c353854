//! The requests of one data object, in the order in which they came: which of them may go on, and which one holds another
//! back.
#![tactic(auto)]

pub use queue::{Asked, Mode, Queue};

mod queue;
