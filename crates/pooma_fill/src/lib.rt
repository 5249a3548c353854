//! Fields and their fills: which fields are stale, and the pieces that give their external cells the values that looking them up
//! gives, before a statement reads them.
#![tactic(auto)]

mod boxes;
mod constants;
mod fills;
mod laws;
mod reading;
mod stale;

pub use laws::{fills_fit, fills_make_fresh, marks_tell_stale};
pub use stale::Stale;
