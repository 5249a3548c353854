ghost use Rattle.std.specs.Prelude.{◌≡◌, ◌≢◌, ◌<◌, [], ◌∷◌, length, IfOk, OnErr};
ghost use Rattle.pooma_window.specs.Questions.{question, followed_by};

use std::alloc::{AllocError, Global};

/// Who chooses which of the entries that may be run now is run next.
pub trait Picker {
    ghost use Rattle.std.specs.Prelude.{List, Option};
    ghost use Rattle.pooma_window.specs.Questions.{Question};

    /// The questions answered so far, each with its list and its answer, where the picker tells them.
    ghost asked: { Self → Option (List Question) };

    /// The place of the entry to run in this list of entries, counted from 0. The only error is want of memory, and then no
    /// question was answered.
    fn pick(&mut self, alloc: Global, ready: &[u32]) -> Result<usize, AllocError>
        requires { ready.now ≢ [] }
        ensures place { IfOk result (λ place. place < length ready.now) }
        ensures asks { IfOk result (λ place. asked self.new ≡ followed_by (asked self.old) (question ready.now place ∷ [])) }
        ensures err { OnErr result (asked self.new ≡ asked self.old) };
}

/// Always picks the first. It tells no questions.
#[derive(Clone, Copy, Debug, PartialEq, Eq)]
pub struct First;

impl Picker for First {
    ghost use Rattle.std.specs.Prelude.{None, Ok};

    ghost asked = { λ _. None };

    fn pick(&mut self, _alloc: Global, _ready: &[u32]) -> Result<usize, AllocError>
        ensures { result ≡ Ok 0 }
    {
        Ok(0)
    }
}
