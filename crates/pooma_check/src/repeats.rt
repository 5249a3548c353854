//! The repeats of a script.
ghost use Rattle.std.specs.Prelude.{◌≡◌, ◌<◌, ◌≤ℤ◌, length, min, pos, OnOk};
ghost use Rattle.pooma_domain.specs.Cells.{count_of};
ghost use Rattle.pooma_model.specs.Order.{with_end, with_repeat};
ghost use Rattle.pooma_script.specs.declared.count.TheConstants.{CAP};
ghost use Rattle.pooma_script.specs.Known.{turns_in};
ghost use Rattle.pooma_check.specs.Kept.{known_of, turns_kept};

use crate::known::Known;
use pooma_script::count::times;
use std::alloc::{AllocError, Global};

/// How often a line is done that stands in all open repeats, or `CAP` where that is more.
pub fn turns_now(known: &Known<'_>) -> u64
    requires { known.now.turns.items ≡ turns_kept known.now.draft.open_repeats }
    ensures { result ≡ min (turns_in (known_of known.now)) CAP }
{
    match known.turns.last() {
        Some(turns) => *turns,
        None => 1,
    }
}

/// Begins a repeat of so many turns. Its only error is want of memory.
pub fn begin_repeat(alloc: Global, known: &mut Known<'_>, turns: i32) -> Result<(), AllocError>
    requires turns { known.old.turns.items ≡ turns_kept known.old.draft.open_repeats }
    requires some { pos 1 ≤ℤ turns }
    requires few { length known.old.draft.open_repeats < 4 }
    ensures known { OnOk result (known_of known.new
        ≡ record (known_of known.old) { drafted = with_repeat (count_of turns) (known_of known.old).drafted }) }
    ensures turns { OnOk result (known.new.turns.items ≡ turns_kept known.new.draft.open_repeats) }
{
    let all = times(turns as u64, turns_now(known));
    known.draft.repeat(alloc, turns as u32)?;
    known.turns.push(all)?;
    Ok(())
}

/// Ends the innermost repeat.
pub fn end_repeat(known: &mut Known<'_>)
    requires turns { known.old.turns.items ≡ turns_kept known.old.draft.open_repeats }
    requires some { 0 < length known.old.draft.open_repeats }
    ensures known { known_of known.new ≡ record (known_of known.old) { drafted = with_end (known_of known.old).drafted } }
    ensures turns { known.new.turns.items ≡ turns_kept known.new.draft.open_repeats }
{
    known.draft.end();
    known.turns.pop();
}
