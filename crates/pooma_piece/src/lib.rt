//! Pieces of statements: what a statement does at some of its positions, over the patches that hold the cells of its views.
#![tactic(auto)]

mod block;
mod copy;
mod fill;
mod fitting;
mod laws;
mod lent;
mod outcome;
mod piece;
mod requests;
mod run;
mod source;
mod task;
mod work;

pub use block::Block;
pub use laws::{objects_lend, pieces_fit, pieces_make_words};
pub use outcome::Outcome;
pub use piece::{MOST_POSITIONS, Piece};
pub use run::run_piece;
pub use task::Task;
