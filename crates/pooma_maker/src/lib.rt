//! Made scripts: for each seed and number of lines one script of the language, for tries and measurements.
//!
//! `specs/` says which: a head, lines of six kinds that a sequence of draws picks, and a foot.
#![tactic(auto)]

mod draws;
mod line;
mod made;

pub use made::script;
