//! The laws that a line reads in one way.
ghost use Rattle.std.specs.Prelude.{◌≡◌, ◌⊎◌, ℕ, List};
ghost use Rattle.pooma_text.specs.Tokens.{IsBlankLine};
ghost use Rattle.pooma_parse.specs.declared.form.RawLine.{RawLine};
ghost use Rattle.pooma_parse.specs.Lines.{Spells};

use pooma_text::one_reading;

/// The law that a line spells one form at the most, and a blank line none.
///
/// It does nothing; its contract is for proofs about what a line says.
pub fn one_form()
    ensures one { (line : List ℕ) (a b : RawLine) → Spells line a → Spells line b → a ≡ b }
    ensures blank { (line : List ℕ) (form : RawLine) → IsBlankLine line → Spells line form → ⊥ }
{
    one_reading();
}

/// The law that a line is blank, or spells a form, or neither, so that one of these can be told of each line.
///
/// It does nothing; its contract is for proofs about what a line says.
pub fn some_reading()
    ensures { (line : List ℕ) → IsBlankLine line ⊎ ((form : RawLine) × Spells line form)
        ⊎ ((IsBlankLine line → ⊥) × ((form : RawLine) → Spells line form → ⊥)) }
{
    one_reading();
}
