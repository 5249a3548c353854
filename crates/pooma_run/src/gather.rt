//! What the pieces of a reduction come to.
ghost use Rattle.std.specs.Prelude.{◌≡◌, ℤ, List, map};
ghost use Rattle.pooma_expr.specs.Reductions.{AllFit, result_over};
ghost use Rattle.pooma_run.specs.Outcomes.{AreValues, joined, value_of};

use pooma_expr::{Partial, Reduction};
use pooma_num::FaultKind;
use pooma_piece::Outcome;

/// The result of the reduction over all numbers that its pieces answered for, or the fault of their sum.
pub(crate) fn gathered(reduction: Reduction, outcomes: &[Outcome]) -> Result<i64, FaultKind>
    requires { AreValues reduction outcomes.now }
    ensures { (lists : List (List ℤ)) → outcomes.now ≡ map (value_of reduction) lists → AllFit (joined lists)
        → result ≡ result_over reduction (joined lists) }
{
    let mut all = Partial::start(reduction);
    'parts: for outcome in outcomes {
        if let Outcome::Value(part) = outcome {
            all.merge(*part);
        }
    }
    all.finish()
}
