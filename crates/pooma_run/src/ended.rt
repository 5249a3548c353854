//! How a run ended.
ghost use Rattle.std.specs.Prelude.{◌≡◌};

use std::marker::Model;

/// What a run wrote, and whether a fault ended it.
#[derive(Debug, Drop)]
pub struct Ended {
    bytes: Vec<u8>,
    faulted: bool,
}

impl Model for Ended {
    ghost use Rattle.pooma_model.specs.Serial.{Run};

    ghost Value = { Run };

    ghost view = { λ e. record { bytes = e.bytes.items; faulted = e.faulted } };
}

impl Ended {
    /// The end of a run that wrote these bytes.
    pub(crate) fn new(bytes: Vec<u8>, faulted: bool) -> Ended
        ensures { result ≡ record { bytes = bytes.items; faulted = faulted } }
    {
        Ended { bytes, faulted }
    }

    /// What it wrote. Where a fault ended it, the last line tells of the fault.
    pub fn bytes(&self) -> &[u8]
        ensures { result.now ≡ self.now.bytes }
    {
        &self.bytes
    }

    /// What it wrote, as the value's own.
    pub fn into_bytes(self) -> Vec<u8>
        ensures { result.items ≡ self.bytes }
    {
        self.bytes
    }

    /// Whether a fault ended it.
    pub fn faulted(&self) -> bool
        ensures { result ≡ self.now.faulted }
    {
        self.faulted
    }
}
