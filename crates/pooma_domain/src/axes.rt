ghost use Rattle.std.specs.Prelude.{◌≡◌, ◌↔◌, ℤ, pos, neg_ℤ, ◌≤ℤ◌, IsSome, IfSome};
ghost use Rattle.pooma_domain.specs.Cells.{interval, IsAxis};

/// The whole numbers from a first to a last one, both within plus and minus 4,000,000: an axis of a box.
#[derive(Clone, Copy, Debug, PartialEq, Eq)]
pub struct Axis {
    /// The least number.
    pub first: i32,

    /// The greatest number.
    pub last: i32,

    pub ghost ordered: { first ≤ℤ last },

    pub ghost low: { neg_ℤ (pos 4000000) ≤ℤ first },

    pub ghost high: { last ≤ℤ pos 4000000 },
}

impl Axis {
    /// The least number that an axis may have.
    pub const LOWEST: i32 = -4_000_000;

    /// The greatest number that an axis may have.
    pub const HIGHEST: i32 = 4_000_000;

    /// The axis from `first` to `last`. None where `first` is above `last`, or one of them is
    /// beyond plus or minus 4,000,000.
    pub fn of(first: i32, last: i32) -> Option<Axis>
        ensures found { IsSome result ↔ IsAxis (interval first last) }
        ensures value { IfSome result (λ axis. (axis.first ≡ first) × (axis.last ≡ last)) }
    {
        if first <= last && Axis::LOWEST <= first && last <= Axis::HIGHEST {
            Some(Axis { first, last })
        } else {
            None
        }
    }
}
