//! Stencils: what is made of the numbers that a view has about each position, as an expression.
#![tactic(auto)]

mod body;
mod extents;
mod law;
mod stencil;

pub use body::Body;
pub use law::{forms_of_expansions, values_of_expansions};
pub use stencil::Stencil;
