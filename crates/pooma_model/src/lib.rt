//! Programs: what statements do to arrays and scalars, the order in which a program executes them, and what its run prints.
#![tactic(auto)]

mod declarations;
mod draft;
mod laws;
mod lines;
mod program;
mod statement;
mod turns;
mod walk;

pub use draft::Draft;
pub use laws::{
    assignments_change_cells, assignments_in_parts, faults_come_first, masks_choose_values,
    parts_in_any_order, parts_of_statements, positions_change_cells, reads_stand_apart,
    reductions_in_parts, runs_compose, worlds_keep_cells,
};
pub use program::Program;
pub use statement::{Action, Statement};
pub use walk::Walk;
