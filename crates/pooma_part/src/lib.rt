//! Where the positions of a statement are cut: where one of its views comes from one part of its array's layout to another.
#![tactic(auto)]

mod borders;
mod cuts;
mod laws;
mod line;
mod seen;
mod views;

pub use cuts::{Cutting, cut};
pub use laws::cuts_are_parts;
pub use seen::Seen;
