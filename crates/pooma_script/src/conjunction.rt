//! Two tests as one.
ghost use Rattle.std.specs.Prelude.{◌↔◌, IsTrue};

/// Whether both tests are passed.
pub fn both(a: bool, b: bool) -> bool
    ensures { IsTrue result ↔ (IsTrue a × IsTrue b) }
{
    a && b
}
