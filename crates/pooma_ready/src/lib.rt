//! Deques of ready numbers, for the workers of a run: a worker puts numbers into its own deque and takes them at the other end,
//! and one other worker may take them there too, from its own thread. No number is lost, changed or given twice.
#![tactic(auto)]

pub use law::none_is_lost_or_doubled;
pub use ready::Ready;
pub use thief::Thief;

mod ends;
mod law;
mod ready;
mod thief;
