//! The bytes of the ends in memory: how they are handed out, and where they are kept.
ghost use Rattle.std.specs.Prelude.{◌≡◌, ◌-◌, ◌≤◌, ◌<◌, ◌↔◌, min, [], ◌++◌, length, take, IfOk, IsTrue, vec_len, vec_capacity};
ghost use Rattle.pooma_io.specs.Bounds.{filled};

use std::alloc::{AllocError, Global};

/// Copies the first bytes of `bytes` to the front of the buffer: as many as both have, and at most `most`. Answers how
/// many.
pub fn copy_front(bytes: &[u8], buf: &mut [u8], most: usize) -> usize
    ensures count { result ≡ min most (min (length buf.old) (length bytes.now)) }
    ensures buffer { buf.new ≡ filled bytes.now result buf.old }
{
    let n = most.min(buf.len().min(bytes.len()));
    buf[..n].copy_from_slice(&bytes[..n]);
    n
}

/// Bytes in room that was taken when the shelf was made.
#[derive(Drop)]
pub struct Shelf {
    /// What lies on it, in the order in which it was put there.
    pub bytes: Vec<u8>,
    /// How many bytes it can hold.
    pub room: usize,
    pub ghost within: { vec_len bytes ≤ room },
    pub ghost has_room: { room ≤ vec_capacity bytes },
}

impl Shelf {
    /// A shelf with nothing on it and room for so many bytes, which is taken here. The only error is want of memory.
    pub fn new(alloc: Global, room: usize) -> Result<Shelf, AllocError>
        ensures empty { IfOk result (λ shelf. shelf.bytes.items ≡ []) }
        ensures room { IfOk result (λ shelf. shelf.room ≡ room) }
    {
        Ok(Shelf {
            bytes: Vec::with_capacity(alloc, room)?,
            room,
        })
    }

    /// Whether there is no room left.
    pub fn is_full(&self) -> bool
        ensures { IsTrue result ↔ (self.now.room ≤ length self.now.bytes.items) }
    {
        self.bytes.len() == self.room
    }

    /// Appends the first bytes of the piece: as many as there is room for, and at most `most`. Answers how many. It
    /// takes no memory.
    pub fn append(&mut self, piece: &[u8], most: usize) -> usize
        ensures count { result ≡ min most (min (length piece.now) (self.old.room - length self.old.bytes.items)) }
        ensures bytes { self.new.bytes.items ≡ self.old.bytes.items ++ take result piece.now }
        ensures room { self.new.room ≡ self.old.room }
    {
        let n = most.min(piece.len().min(self.room - self.bytes.len()));
        match self.bytes.extend_from_slice(&piece[..n]) {
            Ok(()) => n,
            Err(_) => unreachable!(),
        }
    }
}
