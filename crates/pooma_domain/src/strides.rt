ghost use Rattle.std.specs.Prelude.{◌+◌, ◌≤◌, ◌≡◌, ◌≢◌, ◌↔◌, ℕ, ◌<◌, ◌-◌, ℤ, pos, ◌+ℤ◌, ◌-ℤ◌, ◌*ℤ◌, ◌≤ℤ◌, ◌<ℤ◌, Some, slice_get, IsSome, IfSome, FitsSigned};
ghost use Rattle.std.specs.Int.{w32};
ghost use Rattle.pooma_domain.specs.Bounds.{IsBounded, IsNotPast};

/// Some whole numbers at one distance from each other: `first`, `first + stride` and so on, `count`
/// of them. There is at least one, the stride is not 0, and each of them fits `i32`.
#[derive(Clone, Copy, Debug, PartialEq, Eq)]
pub struct Strided {
    /// The number that comes first.
    pub first: i32,

    /// From each number to the next.
    pub stride: i32,

    /// How many numbers there are.
    pub count: u32,

    pub ghost moves: { stride ≢ pos 0 },

    pub ghost some: { 0 < count },

    pub ghost fits: { FitsSigned w32 (first +ℤ stride *ℤ pos (count - 1)) },
}

impl Strided {
    ghost use Rattle.pooma_domain.specs.Strides.{elements};

    /// The numbers `first`, `first + stride` and so on that do not pass `last`. None where the
    /// stride is 0 or there is no such number.
    pub fn of(first: i32, last: i32, stride: i32) -> Option<Strided>
        requires bounded { IsBounded first × IsBounded last × IsBounded stride }
        ensures found { IsSome result ↔ ((stride ≢ pos 0) × IsNotPast stride last first) }
        ensures starts { IfSome result (λ s. (s.first ≡ first) × (s.stride ≡ stride)) }
        ensures whole { IfSome result (λ s. (k : ℕ) → (k < s.count) ↔ IsNotPast stride last (first +ℤ stride *ℤ pos k)) }
    {
        let way = ahead(first, last, stride);
        if stride == 0 || way < 0 {
            return None;
        }
        Some(Strided {
            first,
            stride,
            count: way as u32 / stride.unsigned_abs() + 1,
        })
    }

    /// The number at this place, counted from 0.
    pub fn at(&self, k: u32) -> i32
        requires { k < self.now.count }
        ensures value { result ≡ self.now.first +ℤ self.now.stride *ℤ pos k }
        ensures stands { slice_get (elements self.now) k ≡ Some result }
    {
        (i64::from(self.first) + i64::from(self.stride) * i64::from(k)) as i32
    }

    /// So many of the numbers, from the one at this place on.
    pub fn part(&self, from: u32, count: u32) -> Strided
        requires some { 0 < count }
        requires within { from + count ≤ self.now.count }
        ensures first { result.first ≡ self.now.first +ℤ self.now.stride *ℤ pos from }
        ensures stride { result.stride ≡ self.now.stride }
        ensures count { result.count ≡ count }
    {
        Strided {
            first: self.at(from),
            stride: self.stride,
            count,
        }
    }

    /// The place of the number, counted from 0. None where it is not one of these numbers.
    pub fn place_of(&self, x: i32) -> Option<u32>
        ensures found { IfSome result (λ k. (k < self.now.count) × (x ≡ self.now.first +ℤ self.now.stride *ℤ pos k)) }
        ensures only_there { (k : ℕ) → k < self.now.count → x ≡ self.now.first +ℤ self.now.stride *ℤ pos k → result ≡ Some k }
    {
        let way = ahead(self.first, x, self.stride);
        if way < 0 {
            return None;
        }
        let step = u64::from(self.stride.unsigned_abs());
        if way as u64 % step != 0 {
            return None;
        }
        let place = way as u64 / step;
        if place < u64::from(self.count) {
            Some(place as u32)
        } else {
            None
        }
    }
}

// How far the last number lies ahead of the first one, on the way that the stride goes.
fn ahead(first: i32, last: i32, stride: i32) -> i64
    ensures up { pos 0 <ℤ stride → result ≡ last -ℤ first }
    ensures down { stride ≤ℤ pos 0 → result ≡ first -ℤ last }
{
    if stride > 0 {
        i64::from(last) - i64::from(first)
    } else {
        i64::from(first) - i64::from(last)
    }
}
