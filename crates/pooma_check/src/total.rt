//! What all statements of a script come to with one more: how many are executed, and how many values they print.
ghost use Rattle.std.specs.Prelude.{◌≡◌, ◌↔◌, ℕ, List, IsTrue};
ghost use Rattle.pooma_parse.specs.declared.form.RawLine.{RawLine};
ghost use Rattle.pooma_script.specs.Statements.{action_of, values_printed};
ghost use Rattle.pooma_script.specs.Tests.{IsWithin};
ghost use Rattle.pooma_check.specs.Kept.{IsKept, known_of};

use crate::known::Known;
use crate::repeats::turns_now;
use pooma_model::Action;
use pooma_script::LimitName;
use pooma_script::count::times;
use pooma_script::printed::values_up_to_cap;

/// Whether not too many statements are executed with what the line does.
pub fn executes_few(known: &Known<'_>, does: &Option<Action>) -> bool
    requires { IsKept known.now }
    ensures { (number : ℕ) (text : List ℕ) (form : RawLine) → does.now ≡ action_of (known_of known.now) text form
        → IsTrue result ↔ IsWithin LimitName.Statements number (known_of known.now) text form }
{
    match does {
        None => true,
        Some(_) => known.executed + turns_now(known) <= 1_048_576,
    }
}

/// Whether not too many values are printed with what the line does.
pub fn prints_few(known: &Known<'_>, does: &Option<Action>) -> bool
    requires { IsKept known.now }
    ensures { (number : ℕ) (text : List ℕ) (form : RawLine) → does.now ≡ action_of (known_of known.now) text form
        → IsTrue result ↔ IsWithin LimitName.PrintedValues number (known_of known.now) text form }
{
    match does {
        None => true,
        Some(action) => {
            known.printed + times(turns_now(known), values_up_to_cap(action)) <= 4_194_304
        }
    }
}
