ghost use Rattle.std.specs.Prelude.{◌≡◌, ◌↔◌, ℕ, ◌+◌, ◌-◌, ◌*◌, ◌^◌, ◌<◌, ◌≤◌, ℤ, pos, neg_ℤ, ◌+ℤ◌, ◌≤ℤ◌, IfSome, IsSomeAnd};
ghost use Rattle.pooma_view.specs.Steps.{IsStepping, IsStriding};

use pooma_domain::Strided;

// The least numbers p and q for which `a * p` is `b * q + rest`, where there are some. The steps
// are those of Euclid's algorithm.
fn least_solution(a: u64, b: u64, rest: u64) -> Option<(u64, u64)>
    requires sizes { (0 < a) × (a < 2 ^ 32) × (0 < b) × (b < 2 ^ 32) }
    requires small { rest < a }
    ensures found { IfSome result (λ s. (a * s.0 ≡ b * s.1 + rest) × (s.1 < a)) }
    ensures least { (p q : ℕ) → a * p ≡ b * q + rest → IsSomeAnd result (λ s. (s.0 ≤ p) × (s.1 ≤ q)) }
{
    if rest == 0 {
        return Some((0, 0));
    }
    let turn = b % a;
    if turn == 0 {
        return None;
    }
    let missing = a - rest;
    let (later, rounds) = least_solution(turn, a, missing % turn)?;
    let q = later + missing / turn;
    let p = b / a * q + rounds + 1;
    Some((p, q))
}

// The same with any number in place of the rest.
fn least_places(a: u64, b: u64, ahead: u64) -> Option<(u64, u64)>
    requires sizes { (0 < a) × (a < 2 ^ 32) × (0 < b) × (b < 2 ^ 32) }
    requires small { ahead < 2 ^ 33 }
    ensures found { IfSome result (λ s. a * s.0 ≡ b * s.1 + ahead) }
    ensures least { (p q : ℕ) → a * p ≡ b * q + ahead → IsSomeAnd result (λ s. (s.0 ≤ p) × (s.1 ≤ q)) }
{
    let (later, q) = least_solution(a, b, ahead % a)?;
    Some((later + ahead / a, q))
}

// Some numbers that ascend by equal steps.
#[derive(Clone, Copy)]
struct Run {
    start: i64,
    step: u64,
    count: u64,
    ghost moves: { 0 < step },
    ghost small_step: { step < 2 ^ 32 },
    ghost some: { 0 < count },
    ghost low: { neg_ℤ (pos 2147483648) ≤ℤ start },
    ghost high: { (start +ℤ pos (step * (count - 1))) ≤ℤ pos 2147483648 },
}

impl Run {
    // The numbers, from the least to the greatest.
    fn of(numbers: Strided) -> Run
        ensures { (z : ℤ) → IsStepping result.start result.step result.count z ↔ IsStriding numbers.first numbers.stride numbers.count z }
    {
        let last = numbers.at(numbers.count - 1);
        Run {
            start: i64::from(numbers.first.min(last)),
            step: u64::from(numbers.stride.unsigned_abs()),
            count: u64::from(numbers.count),
        }
    }

    // The negative numbers, from the least to the greatest.
    fn mirrored(self) -> Run
        ensures { (z : ℤ) → IsStepping result.start result.step result.count z ↔ IsStepping self.start self.step self.count (neg_ℤ z) }
    {
        Run {
            start: -(self.start + (self.step * (self.count - 1)) as i64),
            step: self.step,
            count: self.count,
        }
    }
}

// The least number of both, where the second one does not begin before the first.
fn least_from(a: Run, b: Run) -> Option<i64>
    requires { a.start ≤ℤ b.start }
    ensures found { IfSome result (λ z. IsStepping a.start a.step a.count z × IsStepping b.start b.step b.count z) }
    ensures least { (z : ℤ) → IsStepping a.start a.step a.count z → IsStepping b.start b.step b.count z → IsSomeAnd result (λ y. y ≤ℤ z) }
{
    let (p, q) = least_places(a.step, b.step, (b.start - a.start) as u64)?;
    if q >= b.count {
        return None;
    }
    if p >= a.count {
        return None;
    }
    Some(b.start + (b.step * q) as i64)
}

// The least number of both.
fn least_common(a: Run, b: Run) -> Option<i64>
    ensures found { IfSome result (λ z. IsStepping a.start a.step a.count z × IsStepping b.start b.step b.count z) }
    ensures least { (z : ℤ) → IsStepping a.start a.step a.count z → IsStepping b.start b.step b.count z → IsSomeAnd result (λ y. y ≤ℤ z) }
{
    if a.start <= b.start {
        least_from(a, b)
    } else {
        least_from(b, a)
    }
}

/// The least and the greatest number that both have.
pub(crate) fn common_ends(a: Strided, b: Strided) -> Option<(i32, i32)>
    ensures least { IfSome result (λ ends. IsStriding a.first a.stride a.count ends.0 × IsStriding b.first b.stride b.count ends.0) }
    ensures greatest { IfSome result (λ ends. IsStriding a.first a.stride a.count ends.1 × IsStriding b.first b.stride b.count ends.1) }
    ensures between { (z : ℤ) → IsStriding a.first a.stride a.count z → IsStriding b.first b.stride b.count z → IsSomeAnd result (λ ends. (ends.0 ≤ℤ z) × (z ≤ℤ ends.1)) }
{
    let up = (Run::of(a), Run::of(b));
    let least = least_common(up.0, up.1)?;
    let negative = least_common(up.0.mirrored(), up.1.mirrored())?;
    Some((least as i32, -negative as i32))
}
