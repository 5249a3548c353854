//! The store: the patches of all arrays, numbered as data objects that can be lent and taken back.
#![tactic(auto)]

mod arrays;
mod laws;
mod store;

pub use laws::{
    new_arrays, numbers_of_objects, numbers_of_owners, objects_change, patches_in_place,
};
pub use store::Store;
