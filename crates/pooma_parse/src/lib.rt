//! One line of a script as the form that it spells.
//!
//! The grammar is in `specs/`, as the language says it; `docs/LANGUAGE.md` has the same in prose.
#![tactic(auto)]

mod cursor;
mod error;
mod expression;
mod form;
mod law;
mod line;
mod lists;
mod names;
mod parse;
mod view;

pub use error::LineError;
pub use form::{
    RawAssign, RawCutting, RawExpr, RawLine, RawList, RawOp, RawSub, RawView, Updater4,
};
pub use law::{one_form, some_reading};
pub use parse::parse_line;
