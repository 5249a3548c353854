//! What prints, faults and refusals write, byte by byte.
//!
//! Each call appends one text. The texts of views and faults are those of `pooma_model`'s definition of a run; that of a refusal
//! stands in `specs/`.
#![tactic(auto)]

mod fault;
mod join;
mod refusal;
mod view;

pub use fault::{FaultPlace, fault_text};
pub use refusal::refusal_text;
pub use view::{scalar_text, view_text};
