//! One machine behind one turn, for many callers.
//!
//! A desk has one machine, and its callers have passes. A caller requests, dispatches and releases through its pass; each of
//! these is done by the holder of the turn, so there is one history, and each of them is one event of it. Several may share a
//! turn: a release and the dispatch of what became ready by it, a list of requests, or releases and then dispatches. What is
//! lent is worked on outside the turn.
//!
//! # The steps
//!
//! The desk is a table of two words and one slot. Word 0 is 0, or the seat of the holder of the turn and 1. Word 1 is the
//! number of events since the start. The slot has the machine while the turn is free. These are all steps; the code names
//! them by number, and the rule that each of them keeps is `specs/Rule.antt`.
//!
//! | Step | What it does | On | What changes of what a pass knows | Event |
//! |---|---|---|---|---|
//! | 1 | splits a seat | loads word 0 | the new one knows the start and the list of the old, has one share and the least number that the old one had left; the old one has that share and that number no more | none |
//! | 2 | joins two seats, and then loads | loads word 0, twice | the kept one has the shares and numbers left of both, and is told of the other's seats and list; by the second load these are its own, and its list is the longer; the other is spent | none |
//! | before 3 | looks whether the turn is held, any number of times | loads word 0 | nothing | none |
//! | 3 | compares and exchanges 0 for the seat and 1, and takes the slot; where word 0 is not 0, nothing | word 0 | the taker holds the turn, and its list is all that happened since the start | none |
//! | 4 | takes the machine out of the slot taken, as plain memory | the slot | nothing | none |
//! | 5 | stores the number of events, where the machine's call was one | word 1 | the holder's list ends with that event | that request, dispatch or release |
//! | 6 | puts the machine back into the slot taken, as plain memory | the slot | nothing | none |
//! | 7 | stores 0, and gives the slot back | word 0 | the holder is outside | none |
//!
//! The machine's own calls run between steps 4 and 6, one or several, and nothing else does: each that was an event has a step 5
//! of its own behind it, before the next. A try of step 3 is made only where the look before it found the turn free; where
//! either finds it held, both are made again.
#![tactic(auto)]

pub use batch::Handed;
pub use desk::Desk;
pub use look::Look;
pub use pass::Pass;
pub use request::Requested;

mod batch;
mod desk;
mod lend;
mod look;
mod pass;
mod request;
mod share;
mod sight;
mod turn;
