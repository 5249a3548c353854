//! The worked examples of the language and hostile inputs, each with the answer that the language gives it.
#![tactic(auto)]

#[cfg(test)]
mod answers;
#[cfg(test)]
mod drawn;
#[cfg(test)]
mod drawn_done;
#[cfg(test)]
mod drawn_stopped;
#[cfg(test)]
mod ends;
#[cfg(test)]
mod hostile;
#[cfg(test)]
mod io;
#[cfg(test)]
mod maker;
#[cfg(test)]
mod parse;
#[cfg(test)]
mod picker;
#[cfg(test)]
mod refusals;
#[cfg(test)]
mod run;
#[cfg(test)]
mod shown;
#[cfg(test)]
mod text;
#[cfg(test)]
mod workers;
