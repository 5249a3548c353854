//! The iterate machine: entries ask for objects, are dispatched once nothing earlier conflicts with them, and give their
//! values back. It has no threads.
#![tactic(auto)]

pub use became::Became;
pub use journal::{Entry, Journal, ListJournal, NoJournal, RequestList};
pub use loan::{Done, Loan};
pub use machine::Machine;
pub use pooma_queue::Mode;
pub use refusal::DispatchError;
pub use step::{Event, EventKind, Request, Status};
pub use work::Work;

mod became;
mod journal;
mod lines;
mod loan;
mod machine;
mod objects;
mod refusal;
mod slot;
mod step;
mod table;
mod work;
