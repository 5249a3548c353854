/// Why an entry was not dispatched.
#[derive(Clone, Copy, Debug, PartialEq, Eq)]
pub enum DispatchError {
    /// It was dispatched before, at this seat.
    Already {
        /// The seat of that dispatch.
        seat: u32,
    },
    /// An earlier entry holds it back.
    NotReady {
        /// The first object over which the two conflict.
        object: u32,
        /// The least entry that holds it back.
        by: u32,
    },
    /// There was no memory for its loan.
    OutOfMemory,
}
