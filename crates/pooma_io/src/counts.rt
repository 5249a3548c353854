//! Counts that stand still at their last value.
ghost use Rattle.std.specs.Prelude.{◌≡◌};
ghost use Rattle.pooma_io.specs.Outside.{next_count as the_next_count};

/// One more, or the last value where the count stands there.
pub fn next_count(count: u64) -> u64
    ensures { result ≡ the_next_count count }
{
    count.saturating_add(1)
}
