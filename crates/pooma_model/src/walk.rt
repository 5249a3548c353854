//! Walks over the executed statements of a program.

ghost use Rattle.std.specs.Prelude.{◌≡◌, ◌↔◌, [], ◌∷◌, IfSome, IsNone, IfNone};
ghost use Rattle.pooma_model.specs.Walking.{IsNested, statements_from};

use crate::Statement;
use crate::lines::Line;
use crate::turns::Turns;
use std::marker::Model;

/// A walk over the statements that a program executes, in order. It goes round in the lines of repeats, and never writes
/// them out. No call takes memory.
///
/// Contracts see the list of the statements that are left.
#[derive(Debug, Drop)]
pub struct Walk<'a> {
    lines: &'a [Line],
    place: usize,
    turns: Turns,
}

impl<'a> Model for Walk<'a> {
    ghost use Rattle.std.specs.Prelude.{List};
    ghost use Rattle.pooma_model.specs.declared.statement.Statement.{Statement};
    ghost use Rattle.pooma_model.specs.contracts.statement.Statement.{the_row};
    ghost use Rattle.std.specs.Coded.{coded_list};

    ghost Value = { List Statement };

    ghost coded = { coded_list the_row.coded };

    ghost use Rattle.pooma_model.specs.Walking.{statements_from, IsWalk};

    ghost view = { λ w. statements_from w.lines.now w.place w.turns };

    ghost invariant = { λ w. IsWalk w.lines.now w.place w.turns };
}

impl<'a> Walk<'a> {
    /// The walk over these lines, from the first one on.
    pub(crate) fn over(lines: &'a [Line]) -> Walk<'a>
        requires { IsNested lines.now }
        ensures { result ≡ statements_from lines.now 0 [] }
    {
        Walk {
            lines,
            place: 0,
            turns: Turns::new(),
        }
    }

    /// The next executed statement. None exactly where all were given.
    pub fn next(&mut self) -> Option<&'a Statement>
        ensures some { IfSome result (λ statement. self.old ≡ statement.now ∷ self.new) }
        ensures none { IsNone result ↔ (self.old ≡ []) }
        ensures ended { IfNone result (self.new ≡ []) }
    {
        'walking: while self.place < self.lines.len() {
            let line = &self.lines[self.place];
            self.place += 1;
            match line {
                Line::Do(statement) => return Some(statement),
                Line::Repeat(turns) => self.turns.begin(self.place, turns - 1),
                Line::End => self.place = self.turns.pass_end(self.place),
            }
        }
        None
    }
}
