//! Statements cut into pieces: one for each part of a statement's positions, over the patches that own its cells.
#![tactic(auto)]

mod action;
mod cutting;
mod laws;
mod owners;
mod splitting;
mod whole;

pub use action::pieces;
pub use laws::{pieces_of_statements, positions_are_served, statements_in_pieces};
