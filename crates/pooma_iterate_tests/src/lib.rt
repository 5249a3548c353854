//! What queues, ready numbers, the iterate machine, the desk, work loops, cut positions and pieces answer: worked examples and
//! tables, one file for each crate under test.
#![tactic(auto)]

#[cfg(test)]
mod desk;
#[cfg(test)]
mod law;
#[cfg(test)]
mod machine;
#[cfg(test)]
mod part;
#[cfg(test)]
mod piece;
#[cfg(test)]
mod queue;
#[cfg(test)]
mod readiness;
#[cfg(test)]
mod ready;
#[cfg(test)]
mod sharing;
#[cfg(test)]
mod threads;
#[cfg(test)]
mod window;
#[cfg(test)]
mod worker;
