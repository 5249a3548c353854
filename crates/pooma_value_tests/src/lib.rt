//! What the calls on numbers, boxes, views, expressions, stencils, fields, rows, layouts, patches, stores and programs answer: worked examples and
//! tables, one file for each crate under test.
#![tactic(auto)]

#[cfg(test)]
mod compress;
#[cfg(test)]
mod domain;
#[cfg(test)]
mod expr;
#[cfg(test)]
mod field;
#[cfg(test)]
mod lanes;
#[cfg(test)]
mod layout;
#[cfg(test)]
mod model;
#[cfg(test)]
mod num;
#[cfg(test)]
mod numbers;
#[cfg(test)]
mod patch;
#[cfg(test)]
mod slabs;
#[cfg(test)]
mod stencil;
#[cfg(test)]
mod store;
#[cfg(test)]
mod view;
