//! Runs of programs on the iterate machine: which works a statement adds, when a window ends, and what its outcomes mean.
#![tactic(auto)]

pub use ended::Ended;
pub use law::windows_of_steps;
pub use many_run::run_many;
pub use one_run::run_one;
pub use pooma_window::{
    Completed, Completer, First, ListPicker, ManyThreads, OneThread, Picker, share_out,
};
pub use sound::program_is_sound;
pub use works::open_store;
pub use works_laws::{
    least_fault_of_histories, statements_in_works, told_windows_are_first, windows_serve_positions,
};

mod driver;
mod ended;
mod faults;
mod gather;
mod law;
mod laws;
mod lending;
mod many_run;
mod one_run;
mod shown;
mod sound;
mod works;
mod works_laws;
