//! What a script is, and what its declarations and views say.
//!
//! `specs/` has the definition: one test a cause over a line's form and what the lines before it made known. The modules have
//! the tests and the makings that look at a line alone, or at the names besides; what needs all that is known stands above.
#![tactic(auto)]

pub mod body;
mod cause;
pub mod conjunction;
pub mod count;
pub mod declaration;
pub mod expression;
pub mod form;
mod law;
pub mod layout;
pub mod made;
pub mod names;
pub mod operators;
pub mod part;
pub mod places;
pub mod printed;
pub mod reading;
pub mod size;
pub mod slot;
pub mod stencil;
pub mod view;

pub use cause::{Cause, CheckError, LimitName, Refusal};
pub use law::{numbers_of_ranges, one_script, some_script};
