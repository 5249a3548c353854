//! The laws that bytes are one script, and of the numbers that a range takes.
ghost use Rattle.std.specs.Prelude.{◌≡◌, ◌≢◌, ◌↔◌, ℕ, ◌<◌, ℤ, pos, ◌+ℤ◌, ◌*ℤ◌, FitsSigned, List, [], ◌∷◌};
ghost use Rattle.std.specs.Int.{w32};
ghost use Rattle.pooma_domain.specs.Bounds.{IsNotPast};
ghost use Rattle.pooma_parse.specs.declared.form.RawSub.TheVariants.{Range};
ghost use Rattle.pooma_view.specs.Slots.{coordinate};
ghost use Rattle.pooma_script.specs.Scripts.{Script, IsScript};
ghost use Rattle.pooma_script.specs.Views.{count_to, slot_of};

use pooma_parse::{one_form, some_reading};

/// The law that bytes are one script at the most: one program, or one line that is refused and one cause.
///
/// It does nothing; its contract is for proofs about what a script is.
pub fn one_script()
    ensures { (bytes : List ℕ) (a b : Script) → IsScript bytes a → IsScript bytes b → a ≡ b }
{
    one_form();
}

/// The law that bytes are some script: a program, or a line that is refused and a cause.
///
/// It does nothing; its contract is for proofs about what a script is.
pub fn some_script()
    ensures { (bytes : List ℕ) → (script : Script) × IsScript bytes script }
{
    some_reading();
}

/// The law of what a range takes of an axis: k strides from its first number there is one, of 0 or more, exactly where it has a stride
/// and that number is not past the last one. This is the number that its slot names at the place k.
///
/// It does nothing; its contract is for proofs about what a script is.
pub fn numbers_of_ranges()
    ensures counted { (first last stride : ℤ) (k : ℕ) → (k < count_to first last stride) ↔ ((stride ≢ pos 0) × IsNotPast stride last (first +ℤ stride *ℤ pos k)) }
    ensures named { (first last stride : ℤ) (k : ℕ) → FitsSigned w32 first → FitsSigned w32 last → k < count_to first last stride
        → coordinate (slot_of (Range first last stride)) (pos k ∷ []) ≡ first +ℤ stride *ℤ pos k }
{}
