//! Where the numbers of an expression's views come from.
ghost use Rattle.std.specs.Prelude.{◌≡◌, ℕ, ℤ, List};

use pooma_domain::Cell;

/// Gives the numbers of the views of an expression, by the views' places in `Code::reads`.
pub trait Reads {
    /// The number of a read at a position.
    ghost number: { Self → ℕ → List ℤ → ℤ };

    /// Whether a read may be asked at a position.
    ghost can_ask: { Self → ℕ → List ℤ → Type 0 };

    /// The number of this read at a position of its view. It takes no memory.
    fn value(&self, read: usize, p: &Cell) -> i64
        requires { can_ask self.now read p.now }
        ensures { result ≡ number self.now read p.now };
}
