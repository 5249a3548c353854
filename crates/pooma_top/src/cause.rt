//! The texts of the causes for which scripts are refused.
ghost use Rattle.std.specs.Prelude.{◌≡◌};
ghost use Rattle.pooma_top.specs.Causes.{cause_text};

use pooma_check::{Cause, LimitName};

/// The text of a cause.
pub fn cause_text(cause: Cause) -> &'static [u8]
    ensures { result.now ≡ cause_text cause }
{
    match cause {
        Cause::Syntax => b"syntax",
        Cause::Name => b"name",
        Cause::Dimension => b"dimension",
        Cause::Empty => b"empty",
        Cause::Outside => b"outside",
        Cause::Unequal => b"unequal",
        Cause::Overlap => b"overlap",
        Cause::Limit(name) => limit_cause(name),
        Cause::OpenRepeat => b"open repeat",
    }
}

// The text of the cause that this limit is passed.
fn limit_cause(name: LimitName) -> &'static [u8]
    ensures { result.now ≡ cause_text (Cause.Limit name) }
{
    match name {
        LimitName::ScriptBytes => b"limit (script bytes)",
        LimitName::Lines => b"limit (lines)",
        LimitName::Name => b"limit (name)",
        LimitName::Arrays => b"limit (arrays)",
        LimitName::Coordinate => b"limit (coordinate)",
        LimitName::Patches => b"limit (patches)",
        LimitName::Guards => b"limit (guards)",
        LimitName::Extents => b"limit (extents)",
        LimitName::ArrayCells => b"limit (array cells)",
        LimitName::AllocatedCells => b"limit (allocated cells)",
        LimitName::Views => b"limit (views)",
        LimitName::Depth => b"limit (depth)",
        LimitName::Repeats => b"limit (repeats)",
        LimitName::Parts => b"limit (parts)",
        LimitName::Statements => b"limit (statements)",
        LimitName::PrintedValues => b"limit (printed values)",
    }
}
