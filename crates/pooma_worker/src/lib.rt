//! Work loops: who has a pass of a desk does the entries that may be done, until all were released.
//!
//! A loop makes no calls but the desk's. It looks, dispatches an entry that may be dispatched, does the work outside the turn
//! and releases it. In the turn of that release it dispatches the least entry that became ready by it, and goes on with its
//! work, so that a chain of entries stays with one worker and takes one turn an entry. Where none became ready, it looks
//! again, and so it does where another worker had the entry first that the look had found. Where a look finds nothing ready,
//! the loop pauses before the next, longer each time, and most of the looks that follow only see whether all is released, so
//! that it does not keep those that have work from the turn.
#![tactic(auto)]

pub use gate::{Gate, NoGate};
pub use worker::{Worked, work_loop};

mod gate;
mod rest;
mod worker;
