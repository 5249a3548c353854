//! The script's bytes as lines, tokens and numbers, and numbers as decimal text.
//!
//! What a line, a token and a number are is said in `specs/`, as the language says it; `docs/LANGUAGE.md` has
//! the same in prose.
#![tactic(auto)]

mod digits;
mod law;
mod line;
mod scan;
mod span;
mod token;

pub use digits::{decimal, number};
pub use law::one_reading;
pub use line::lines;
pub use span::Span;
pub use token::{MOST_TOKENS, Token, TokenError, TokenKind, tokens};
