//! A line as its tokens.
ghost use Rattle.std.specs.Prelude.{◌≡◌, ◌<◌, ◌≤◌, ◌⊎◌, List, ℕ, length, IfOk, IsErrOf, MatchResult};
ghost use Rattle.pooma_text.specs.declared.token.Token.{Token};
ghost use Rattle.pooma_text.specs.Tokens.{BeginsWith, HasStray, HasTokens};

use crate::scan::{skip_blanks, token_at};
use crate::span::Span;
use std::alloc::Global;
use thiserror::Error;

/// How many tokens a line may have. With more it spells no form of the language.
pub const MOST_TOKENS: usize = 4096;

/// What a token is.
#[derive(Clone, Copy, Debug, PartialEq, Eq)]
pub enum TokenKind {
    /// A letter, then letters and digits.
    Word,
    /// One or more digits.
    Number,
    /// One of `( ) [ ] , : = + - * / % < > & | @`, or one of `<= >= == != += -= *=`.
    Sign,
}

/// A token of a line: its kind, and the part of the line that it is.
#[derive(Clone, Copy, Debug, PartialEq, Eq)]
pub struct Token {
    /// What it is.
    pub kind: TokenKind,
    /// Where it stands in the line, in bytes.
    pub span: Span,
}

/// Why a line has no list of tokens.
#[derive(Clone, Copy, Debug, PartialEq, Eq, Error)]
pub enum TokenError {
    /// The byte at this place of the line begins no token.
    #[error("a byte that begins no token at {place}")]
    BadByte { place: usize },
    /// More than `MOST_TOKENS` tokens stand before the line's end, or before a byte that begins none.
    #[error("too many tokens")]
    TooMany,
    /// There was no memory for the list.
    #[error("out of memory")]
    OutOfMemory,
}

/// The tokens of a line in order, each the longest that fits, without blanks and the comment, which begins with `#`.
///
/// The line has no line end. Blanks are space, tab and carriage return. A byte that begins no token is an error only where it
/// stands before the comment.
pub fn tokens(alloc: Global, line: &[u8]) -> Result<Vec<Token>, TokenError>
    ensures found { IfOk result (λ found. HasTokens line.now found.items) }
    ensures few { IfOk result (λ found. length found.items ≤ MOST_TOKENS) }
    ensures stray { (place : ℕ) → IsErrOf result (TokenError.BadByte place)
        → (before : List Token) × HasStray line.now before place × (length before ≤ MOST_TOKENS) }
    ensures many { IsErrOf result TokenError.TooMany
        → (front : List Token) × BeginsWith line.now front × (MOST_TOKENS < length front) }

    // Nothing that the line has is refused, and nothing else is answered for it.
    ensures only_found { (all : List Token) → HasTokens line.now all → length all ≤ MOST_TOKENS
        → MatchResult result (λ found. found.items ≡ all) (λ e. e ≡ TokenError.OutOfMemory) }
    ensures only_stray { (before : List Token) (place : ℕ) → HasStray line.now before place → length before ≤ MOST_TOKENS
        → IsErrOf result (TokenError.BadByte place) ⊎ IsErrOf result TokenError.OutOfMemory }
    ensures only_many { (front : List Token) → BeginsWith line.now front → MOST_TOKENS < length front
        → IsErrOf result TokenError.TooMany ⊎ IsErrOf result TokenError.OutOfMemory }
{
    let mut found = Vec::new(alloc);
    let mut at = skip_blanks(line, 0);
    while at < line.len() && line[at] != b'#' {
        let Some(token) = token_at(line, at) else {
            return Err(TokenError::BadByte { place: at });
        };
        if found.len() == MOST_TOKENS {
            return Err(TokenError::TooMany);
        }
        found.push(token).map_err(|_| TokenError::OutOfMemory)?;
        at = skip_blanks(line, token.span.end);
    }
    Ok(found)
}
