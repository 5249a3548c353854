/// Who is told of each entry between its dispatch and its work, as by a test that wants two works to meet.
///
/// What it does changes nothing that a loop looks at.
pub trait Gate {
    /// The work of this entry is about to be done, by the worker that calls.
    fn before(&self, entry: u32);
}

/// A gate that does nothing.
#[derive(Clone, Copy, Debug, PartialEq, Eq)]
pub struct NoGate;

impl Gate for NoGate {
    fn before(&self, _entry: u32) {}
}
