//! Where blanks and single tokens end.
ghost use Rattle.std.specs.Prelude.{◌≡◌, ℕ, ◌+◌, ◌<◌, ◌≤◌, ◌↔◌, [], ◌∷◌, length, slice_index, Contains, IsTrue, IfSome, IsNone, IsSomeAnd};
ghost use Rattle.std.specs.Char.{IsAsciiAlphanumeric, IsAsciiDigit};
ghost use Rattle.pooma_text.specs.Lines.{text_at};
ghost use Rattle.pooma_text.specs.Signs.{double_signs, single_signs};
ghost use Rattle.pooma_text.specs.Tokens.{AreBlanks, BeginsNoToken, IsBlank, IsLongest, IsSign};

use crate::span::Span;
use crate::token::{Token, TokenKind};

// Whether a byte is space, tab or carriage return.
fn is_blank(byte: u8) -> bool
    ensures { IsTrue result ↔ IsBlank byte }
{
    byte == b' ' || byte == b'\t' || byte == b'\r'
}

// Whether a byte is a sign by itself.
fn is_single_sign(byte: u8) -> bool
    ensures { IsTrue result ↔ Contains single_signs byte }
{
    b"()[],:=+-*/%<>&|@".contains(&byte)
}

// Whether two bytes are a sign together.
fn is_double_sign(first: u8, second: u8) -> bool
    ensures { IsTrue result ↔ Contains double_signs (first ∷ second ∷ []) }
{
    second == b'=' && b"<>=!+-*".contains(&first)
}

/// The first place from `from` on that has no blank, or the line's end.
pub(crate) fn skip_blanks(line: &[u8], from: usize) -> usize
    requires { from ≤ length line.now }
    ensures blanks { AreBlanks line.now from result }
    ensures stops { result < length line.now → IsBlank (slice_index line.now result) → ⊥ }
{
    let mut at = from;
    while at < line.len() && is_blank(line[at]) {
        at += 1;
    }
    at
}

/// The first place from `from` on that has no letter and no digit, or the line's end.
fn word_end(line: &[u8], from: usize) -> usize
    requires { from ≤ length line.now }
    ensures forward { (from ≤ result) × (result ≤ length line.now) }
    ensures each { (k : ℕ) → from ≤ k → k < result → IsAsciiAlphanumeric (slice_index line.now k) }
    ensures stops { result < length line.now → IsAsciiAlphanumeric (slice_index line.now result) → ⊥ }
{
    let mut at = from;
    while at < line.len() && line[at].is_ascii_alphanumeric() {
        at += 1;
    }
    at
}

/// The first place from `from` on that has no digit, or the line's end.
fn number_end(line: &[u8], from: usize) -> usize
    requires { from ≤ length line.now }
    ensures forward { (from ≤ result) × (result ≤ length line.now) }
    ensures each { (k : ℕ) → from ≤ k → k < result → IsAsciiDigit (slice_index line.now k) }
    ensures stops { result < length line.now → IsAsciiDigit (slice_index line.now result) → ⊥ }
{
    let mut at = from;
    while at < line.len() && line[at].is_ascii_digit() {
        at += 1;
    }
    at
}

/// The end of the longest sign that begins at a place, or None where none does.
fn sign_end(line: &[u8], at: usize) -> Option<usize>
    requires { at < length line.now }
    ensures fits { IfSome result (λ end.
        (end ≤ length line.now) × IsSign (text_at line.now (record { start = at; end = end }))) }
    ensures longest { (end : ℕ) → end ≤ length line.now
        → IsSign (text_at line.now (record { start = at; end = end })) → IsSomeAnd result (λ found. end ≤ found) }
{
    if at + 1 < line.len() && is_double_sign(line[at], line[at + 1]) {
        Some(at + 2)
    } else if is_single_sign(line[at]) {
        Some(at + 1)
    } else {
        None
    }
}

/// The longest token that begins at a place, or None where none does.
pub(crate) fn token_at(line: &[u8], at: usize) -> Option<Token>
    requires { at < length line.now }
    ensures longest { IfSome result (λ token. (token.span.start ≡ at) × IsLongest line.now token) }
    ensures none { IsNone result → BeginsNoToken line.now at }
{
    let first = line[at];
    let (kind, end) = if first.is_ascii_alphabetic() {
        (TokenKind::Word, word_end(line, at + 1))
    } else if first.is_ascii_digit() {
        (TokenKind::Number, number_end(line, at + 1))
    } else {
        (TokenKind::Sign, sign_end(line, at)?)
    };
    let span = Span { start: at, end };
    Some(Token { kind, span })
}
