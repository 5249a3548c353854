//! The repeats in which a walk stands.

ghost use Rattle.std.specs.Prelude.{◌≡◌, ◌<◌, [], ◌∷◌, length};
ghost use Rattle.pooma_model.specs.Turns.{behind_end};

use std::marker::Model;

/// A repeat in which a walk stands: the place of its first line, and how often it is done again.
#[derive(Clone, Copy, Debug)]
pub struct Turn {
    pub start: usize,
    pub left: u32,
}

// Fills the room that no repeat has.
const UNUSED: Turn = Turn { start: 0, left: 0 };

/// The repeats in which a walk stands, the innermost first: at most four.
#[derive(Debug, Drop)]
pub struct Turns {
    count: usize,
    turns: [Turn; 4],
}

impl Model for Turns {
    ghost use Rattle.std.specs.Prelude.{◌≤◌, List, take};
    ghost use Rattle.pooma_model.specs.declared.turns.Turn.{Turn};

    ghost Value = { List Turn };

    ghost view = { λ t. take t.count t.turns };

    ghost invariant = { λ t. t.count ≤ 4 };
}

impl Turns {
    /// Outside of every repeat.
    pub fn new() -> Turns
        ensures { result ≡ [] }
    {
        Turns {
            count: 0,
            turns: [UNUSED; 4],
        }
    }

    /// Goes into a repeat that starts here and is done so often again.
    pub fn begin(&mut self, start: usize, left: u32)
        requires { length self.old < 4 }
        ensures { self.new ≡ record { start = start; left = left } ∷ self.old }
    {
        self.turns = [
            Turn { start, left },
            self.turns[0],
            self.turns[1],
            self.turns[2],
        ];
        self.count += 1;
    }

    /// Passes the end of the innermost repeat, and answers where to go on: at its start where it is done again, and else,
    /// out of it, at the line behind its end.
    pub fn pass_end(&mut self, behind: usize) -> usize
        requires { 0 < length self.old }
        ensures place { result ≡ (behind_end self.old behind).place }
        ensures turns { self.new ≡ (behind_end self.old behind).turns }
    {
        let innermost = self.turns[0];
        if innermost.left == 0 {
            self.turns = [self.turns[1], self.turns[2], self.turns[3], UNUSED];
            self.count -= 1;
            return behind;
        }
        self.turns[0].left -= 1;
        innermost.start
    }
}
