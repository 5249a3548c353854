//! What gives a field its values beside the physical domain.
ghost use Rattle.std.specs.Prelude.{◌≡◌, ◌↔◌, ◌^◌, ◌<◌, ◌≤◌, pos, neg_ℤ, ◌*ℤ◌, unsigned_abs, IsTrue};
ghost use Rattle.pooma_field.specs.Updaters.{clamped, extrapolation, IsConstant};

/// What gives a field its values beside the physical domain, one for each of its faces.
#[derive(Clone, Copy, Debug, PartialEq, Eq)]
pub enum Updater {
    /// This number.
    Constant(i64),

    /// The value at the cell that is a whole number of the axis's lengths away.
    Periodic,

    /// The value at the cell that lies as far inside as this one lies outside.
    Reflect,

    /// The same with the other sign.
    Antireflect,

    /// The value on the line through the cell at the face and the one next to it inside.
    Extrapolate,
}

impl Updater {
    /// Whether the updater gives one number everywhere, and takes none from a cell.
    pub fn is_constant(self) -> bool
        ensures { IsTrue result ↔ IsConstant self }
    {
        matches!(self, Updater::Constant(_))
    }
}

/// The number with the other sign, or the greatest where that is one too great.
pub fn antireflected(v: i64) -> i64
    ensures { result ≡ clamped (neg_ℤ v) }
{
    clamp(-i128::from(v))
}

/// The value so many steps beyond the face on the line through the face's value and that of the cell next to it inside, or
/// the nearest that 64 bits have.
pub fn extrapolated(face: i64, inner: i64, distance: u32) -> i64
    ensures { result ≡ extrapolation face inner distance }
{
    clamp(i128::from(face) + rise(i128::from(face) - i128::from(inner), distance))
}

// How much so many steps come to, each as large as two numbers of 64 bits lie apart.
fn rise(step: i128, count: u32) -> i128
    requires { unsigned_abs step < 2 ^ 64 }
    ensures value { result ≡ pos count *ℤ step }
    ensures small { unsigned_abs result ≤ 2 ^ 96 }
{
    i128::from(count) * step
}

// The number of 64 bits that is nearest.
fn clamp(exact: i128) -> i64
    ensures { result ≡ clamped exact }
{
    exact.clamp(i128::from(i64::MIN), i128::from(i64::MAX)) as i64
}
