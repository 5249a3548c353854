//! What the fills and the pieces of statements are, and what comes of them on the patches of a store: scripts with what each of
//! their statements asks for, one file for each crate under test.
#![tactic(auto)]

#[cfg(test)]
mod fill;
#[cfg(test)]
mod patches;
#[cfg(test)]
mod row;
#[cfg(test)]
mod run;
#[cfg(test)]
mod scene;
#[cfg(test)]
mod split;
#[cfg(test)]
mod workers;
