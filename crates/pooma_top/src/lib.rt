//! What the program does: the words of its command, the script that was read, its run and the writing of its output.
//!
//! `top` and `top_one` carry the main theorem: the bytes that they write are those of the script's statements done one after
//! another on flat arrays, whichever picker chooses the order and however many workers share the work.
#![tactic(auto)]

mod cause;
mod command;
mod engine;
mod law;
mod number;
mod output;
mod prepared;
mod program;
mod status;

pub use law::{demos_run_made_scripts, one_output, outputs_by_status, workers_change_nothing};
pub use pooma_run::{First, Picker};
pub use pooma_worker::{Gate, NoGate};
pub use program::{top, top_one};
pub use status::Status;
