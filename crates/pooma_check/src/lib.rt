//! Checks of scripts: the program that a script is, or the line at which it is refused and why.
//!
//! What a script is stands in `pooma_script`.
#![tactic(auto)]

mod action;
mod after;
mod amount;
mod apart;
mod axes;
mod cells;
mod declare;
mod known;
mod limit;
mod line;
mod lookup;
mod measure;
mod parts;
mod refusal;
mod repeats;
mod script;
mod seen;
mod sound;
mod statement;
mod task;
mod total;
mod tree;

pub use pooma_script::{Cause, CheckError, LimitName, Refusal, one_script, some_script};
pub use script::check;
