//! Windows of works, completed on the iterate machine: by one thread that asks who picks, or by several workers.
//!
//! A window is some works on some objects. Whoever completes it, objects and outcomes are those of the works done one after
//! another; nothing here knows what a work does, or of which program it is.
#![tactic(auto)]

pub use completer::{Completed, Completer};
pub use list_picker::ListPicker;
pub use many_threads::ManyThreads;
pub use one_thread::OneThread;
pub use picker::{First, Picker};
pub use sharing::share_out;

mod choices;
mod completer;
mod list_picker;
mod many_threads;
mod one_thread;
mod picker;
mod places;
mod sharing;
mod window;
