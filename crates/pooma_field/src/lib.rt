//! Fields: shapes of arrays, the updaters of a field's faces, and where the value of a cell outside the physical domain
//! comes from. The definitions of a world, and of looking a cell up in it, stand here too. No call but `slabs` takes memory.
#![tactic(auto)]

mod beside;
mod faces;
mod filling;
mod laws;
mod shapes;
mod sources;
mod updaters;

pub use beside::slabs;
pub use faces::{Ends, Faces};
pub use laws::{looking_up, numbers_of_cells, slabs_in_order, worlds_change};
pub use shapes::{Shape, Slab};
pub use sources::{has_source, source};
pub use updaters::{Updater, antireflected, extrapolated};
