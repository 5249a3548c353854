//! The tokens of a line that are not read yet.
ghost use Rattle.std.specs.Prelude.{◌≡◌, ◌≤◌, ◌<◌, ◌^◌, ◌≤ℤ◌, ◌-ℤ◌, pos, length, if◌then◌else◌, map, All, IfOk, OnOk, []};
ghost use Rattle.pooma_text.specs.Tokens.{IsLongest};
ghost use Rattle.pooma_parse.specs.Tokens.{lexeme_of};
ghost use Rattle.pooma_parse.specs.Reader as reader;
ghost use Rattle.pooma_parse.specs.Reader.{Reads};

use crate::error::LineError;
use crate::names::{is_reduction, is_reserved};
use pooma_text::{Span, Token, TokenKind, number};
use std::marker::Model;

/// The greatest number of a bound, an extent, an axis and their like.
pub const MOST_SMALL: u64 = 999_999_999;

/// The greatest number of a literal, without its sign.
pub const MOST_NUM: u64 = 9_223_372_036_854_775_807;

/// What is left of a line's tokens.
#[derive(Drop)]
pub struct Cursor<'a> {
    line: &'a [u8],
    tokens: &'a [Token],
}

impl<'a> Model for Cursor<'a> {
    ghost use Rattle.std.specs.Prelude.{List, map, All};
    ghost use Rattle.pooma_text.specs.Tokens.{IsLongest};
    ghost use Rattle.pooma_parse.specs.Tokens.{Lexeme, lexeme_of};

    ghost Value = { List Lexeme };

    ghost view = { λ c. map (lexeme_of c.line.now) c.tokens.now };

    ghost invariant = { λ c. All (IsLongest c.line.now) c.tokens.now };
}

/// Whether two kinds are the same.
fn same_kind(a: TokenKind, b: TokenKind) -> bool
    ensures { result ≡ reader.same_kind a b }
{
    match a {
        TokenKind::Word => matches!(b, TokenKind::Word),
        TokenKind::Number => matches!(b, TokenKind::Number),
        TokenKind::Sign => matches!(b, TokenKind::Sign),
    }
}

impl<'a> Cursor<'a> {
    /// The tokens of the line, none of which is passed yet.
    pub fn new(line: &'a [u8], tokens: &'a [Token]) -> Cursor<'a>
        requires { All (IsLongest line.now) tokens.now }
        ensures { result ≡ map (lexeme_of line.now) tokens.now }
    {
        Cursor { line, tokens }
    }

    /// The same tokens, to be read anew.
    pub fn fork(&self) -> Cursor<'a>
        ensures { result ≡ self.now }
    {
        Cursor {
            line: self.line,
            tokens: self.tokens,
        }
    }

    /// How many tokens are left.
    pub fn len(&self) -> usize
        ensures { result ≡ length self.now }
    {
        self.tokens.len()
    }

    /// Whether the first token is of this kind and has this text.
    #[tactic(auto, unfolding(crate::specs::Reader::begins))]
    fn begins(&self, kind: TokenKind, text: &[u8]) -> bool
        ensures { result ≡ reader.begins kind text.now self.now }
    {
        match self.tokens {
            [] => false,
            [first, ..] => {
                same_kind(first.kind, kind) && &self.line[first.span.start..first.span.end] == text
            }
        }
    }

    /// Goes past the first token, where there is one.
    pub fn step(&mut self)
        ensures { self.new ≡ reader.behind self.old }
    {
        if let [_, rest @ ..] = self.tokens {
            self.tokens = rest;
        }
    }

    /// Whether this sign comes next.
    pub fn begins_sign(&self, text: &[u8]) -> bool
        ensures { result ≡ reader.begins_sign text.now self.now }
    {
        self.begins(TokenKind::Sign, text)
    }

    /// Goes past this sign, where it comes next, and answers whether it did.
    pub fn eat_sign(&mut self, text: &[u8]) -> bool
        ensures found { result ≡ reader.begins_sign text.now self.old }
        ensures rest { self.new ≡ (if result then reader.behind self.old else self.old) }
    {
        let found = self.begins(TokenKind::Sign, text);
        if found {
            self.step();
        }
        found
    }

    /// Goes past this word, where it comes next, and answers whether it did.
    pub fn eat_word(&mut self, text: &[u8]) -> bool
        ensures found { result ≡ reader.begins_word text.now self.old }
        ensures rest { self.new ≡ (if result then reader.behind self.old else self.old) }
    {
        let found = self.begins(TokenKind::Word, text);
        if found {
            self.step();
        }
        found
    }

    /// Goes past this sign, or refuses the line where it does not come next.
    #[tactic(auto, unfolding(crate::specs::Reader::expect))]
    pub fn expect_sign(&mut self, text: &[u8]) -> Result<(), LineError>
        ensures { Reads (reader.expect_sign text.now) self.old result self.new }
    {
        if !self.eat_sign(text) {
            return Err(LineError::Syntax);
        }
        Ok(())
    }

    /// Goes past this word, or refuses the line where it does not come next.
    #[tactic(auto, unfolding(crate::specs::Reader::expect))]
    pub fn expect_word(&mut self, text: &[u8]) -> Result<(), LineError>
        ensures { Reads (reader.expect_word text.now) self.old result self.new }
    {
        if !self.eat_word(text) {
            return Err(LineError::Syntax);
        }
        Ok(())
    }

    /// Whether a word comes next that is not reserved.
    #[tactic(auto, unfolding(crate::specs::Reader::begins_name))]
    pub fn begins_name(&self) -> bool
        ensures { result ≡ reader.begins_name self.now }
    {
        match self.tokens {
            [] => false,
            [first, ..] => {
                same_kind(first.kind, TokenKind::Word)
                    && !is_reserved(&self.line[first.span.start..first.span.end])
            }
        }
    }

    /// Whether a number comes next.
    #[tactic(auto, unfolding(crate::specs::Reader::begins_number))]
    pub fn begins_number(&self) -> bool
        ensures { result ≡ reader.begins_number self.now }
    {
        match self.tokens {
            [] => false,
            [first, ..] => same_kind(first.kind, TokenKind::Number),
        }
    }

    /// The part of the line that the next token is.
    #[tactic(auto, unfolding(crate::specs::Reader::span_of))]
    fn span(&mut self) -> Result<Span, LineError>
        ensures { Reads (reader.span_of self.old) self.old result self.new }
    {
        let [first, rest @ ..] = self.tokens else {
            return Err(LineError::Syntax);
        };
        self.tokens = rest;
        Ok(first.span)
    }

    /// A name, as the part of the line that it is.
    #[tactic(auto, unfolding(crate::specs::Reader::read_name))]
    pub fn name(&mut self) -> Result<Span, LineError>
        ensures { Reads reader.read_name self.old result self.new }
    {
        if !self.begins_name() {
            return Err(LineError::Syntax);
        }
        self.span()
    }

    /// A number of at most `most`.
    #[tactic(auto, unfolding(crate::specs::Reader::read_number))]
    pub fn number(&mut self, most: u64) -> Result<i64, LineError>
        requires { most < 2 ^ 63 }
        ensures read { Reads (reader.read_number most) self.old result self.new }
        ensures within { IfOk result (λ n. (pos 0 ≤ℤ n) × (n ≤ℤ pos most)) }
    {
        let [first, rest @ ..] = self.tokens else {
            return Err(LineError::Syntax);
        };
        if !same_kind(first.kind, TokenKind::Number) {
            return Err(LineError::Syntax);
        }
        let Some(value) = number(&self.line[first.span.start..first.span.end]) else {
            return Err(LineError::Syntax);
        };
        if value.unsigned_abs() > most {
            return Err(LineError::Syntax);
        }
        self.tokens = rest;
        Ok(value)
    }

    /// A number of at most `most`, or a minus sign and such a number.
    #[tactic(auto, unfolding(crate::specs::Reader::read_signed))]
    pub fn signed(&mut self, most: u64) -> Result<i64, LineError>
        requires { most < 2 ^ 63 }
        ensures read { Reads (reader.read_signed most) self.old result self.new }
        ensures low { IfOk result (λ n. (pos 0 -ℤ pos most) ≤ℤ n) }
        ensures high { IfOk result (λ n. n ≤ℤ pos most) }
    {
        if self.eat_sign(b"-") {
            let value = self.number(most)?;
            Ok(-value)
        } else {
            self.number(most)
        }
    }

    /// A number of at most 999,999,999.
    pub fn small(&mut self) -> Result<i32, LineError>
        ensures { Reads reader.read_small self.old result self.new }
    {
        let value = self.number(MOST_SMALL)?;
        Ok(value as i32)
    }

    /// A number of at most 999,999,999, with or without a minus sign.
    pub fn int(&mut self) -> Result<i32, LineError>
        ensures { Reads reader.read_int self.old result self.new }
    {
        let value = self.signed(MOST_SMALL)?;
        Ok(value as i32)
    }

    /// Whether the word of a reduction comes next.
    #[tactic(auto, unfolding(crate::specs::Reader::begins_reduction))]
    fn begins_reduction(&self) -> bool
        ensures { result ≡ reader.begins_reduction self.now }
    {
        match self.tokens {
            [] => false,
            [first, ..] => {
                same_kind(first.kind, TokenKind::Word)
                    && is_reduction(&self.line[first.span.start..first.span.end])
            }
        }
    }

    /// The word of a reduction, as the part of the line that it is.
    #[tactic(auto, unfolding(crate::specs::Reader::read_reduction_word))]
    pub fn reduction(&mut self) -> Result<Span, LineError>
        ensures { Reads reader.read_reduction_word self.old result self.new }
    {
        if !self.begins_reduction() {
            return Err(LineError::Syntax);
        }
        self.span()
    }

    /// The line's end.
    #[tactic(auto, unfolding(crate::specs::Reader::read_end))]
    pub fn end(&mut self) -> Result<(), LineError>
        ensures read { Reads reader.read_end self.old result self.new }
        ensures rest { OnOk result (self.new ≡ []) }
    {
        if !self.tokens.is_empty() {
            return Err(LineError::Syntax);
        }
        Ok(())
    }
}
