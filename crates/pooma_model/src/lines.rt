//! The lines of a program, as it keeps them.

ghost use Rattle.std.specs.Prelude.{◌≡◌, ◌+◌, ◌-◌, ◌<◌, ◌≤◌, vec_capacity, vec_len};
ghost use Rattle.pooma_model.specs.Lines as spec;

use crate::Statement;

/// A line of a program.
#[derive(Debug, Drop)]
pub enum Line {
    /// A statement.
    Do(Statement),
    /// The head of a repeat of so many turns.
    Repeat(u32),
    /// The end of the innermost repeat.
    End,
}

/// Ends the innermost repeat. One around nothing is taken away, so that each repeat has a statement and no walk goes round in
/// one for long.
pub fn end_repeat(lines: &mut Vec<Line>)
    requires { vec_len lines.old < vec_capacity lines.old }
    ensures lines { lines.new.items ≡ spec.with_repeat_ended lines.old.items }
    ensures room { vec_capacity lines.old - vec_len lines.old ≤ vec_capacity lines.new - vec_len lines.new + 1 }
{
    if ends_in_repeat(lines) {
        lines.truncate(lines.len() - 1);
    } else {
        lines.push_reserved(Line::End);
    }
}

// Whether the last line is the head of a repeat.
fn ends_in_repeat(lines: &[Line]) -> bool
    ensures { result ≡ spec.ends_in_repeat lines.now }
{
    matches!(lines.last(), Some(Line::Repeat(_)))
}
