//! The real thing: a source over any reader of std, and a sink over any writer.
//!
//! As ends they tell no content, since nothing is known of the real streams. What they promise is that each failure is
//! counted, and that the bytes are those of the reader and of the writer, where these tell theirs.
ghost use Rattle.std.specs.Prelude.{◌≡◌, ◌<◌, ◌≤◌, None, length, IfOk, OnOk, OnErr};
ghost use Rattle.std.specs.Io.KnownBytes.{ReadConsumes, WriteAppends};
ghost use Rattle.pooma_io.specs.Adapter.{read_faults, reader, write_faults, writer};
ghost use Rattle.pooma_io.specs.Outside.{CountsCall, HasCause, next_count};

use crate::counts::next_count;
use crate::sink::Sink;
use crate::source::{Failed, Source};
use std::io::{Read, Write};

/// A source over a reader. It has failed once for each `Err` of the reader.
#[derive(Drop)]
pub struct ReadSource<R> {
    inner: R,
    faults: u64,
}

impl<R: Read> ReadSource<R> {
    /// A source over this reader that has not failed yet.
    pub fn new(inner: R) -> ReadSource<R>
        ensures reader { reader result ≡ inner }
        ensures faults { read_faults result ≡ 0 }
        ensures counted { ⟦<ReadSource<R> as Source>⟧.faults result ≡ 0 }
    {
        ReadSource { inner, faults: 0 }
    }
}

impl<R: Read> Source for ReadSource<R> {
    ghost left = { λ _. None };

    ghost faults = { read_faults };

    fn read(&mut self, buf: &mut [u8]) -> Result<usize, Failed>
        ensures within { IfOk result (λ n. n ≤ length buf.old) }
        ensures bytes { ReadConsumes None None result buf.new }
        ensures cause { HasCause (read_faults self.old) (read_faults self.new) result }
        ensures counted { CountsCall None None }

        // The bytes are the reader's.
        ensures passed { ReadConsumes (R.remaining (reader self.old)) (R.remaining (reader self.new)) result buf.new }

        // The count rises exactly where the read fails.
        ensures ok { OnOk result (read_faults self.new ≡ read_faults self.old) }
        ensures failed { OnErr result (read_faults self.new ≡ next_count (read_faults self.old)) }
    {
        match self.inner.read(buf) {
            Ok(n) => Ok(n),
            Err(_) => {
                self.faults = next_count(self.faults);
                Err(Failed)
            }
        }
    }
}

/// A sink over a writer. It has failed once for each `Err` of the writer, and for each piece that is not empty of which
/// the writer took nothing.
#[derive(Drop)]
pub struct WriteSink<W> {
    inner: W,
    faults: u64,
}

impl<W: Write> WriteSink<W> {
    /// A sink over this writer that has not failed yet.
    pub fn new(inner: W) -> WriteSink<W>
        ensures writer { writer result ≡ inner }
        ensures faults { write_faults result ≡ 0 }
        ensures counted { ⟦<WriteSink<W> as Sink>⟧.faults result ≡ 0 }
    {
        WriteSink { inner, faults: 0 }
    }
}

impl<W: Write> Sink for WriteSink<W> {
    ghost held = { λ _. None };

    ghost faults = { write_faults };

    fn write(&mut self, piece: &[u8]) -> Result<usize, Failed>
        ensures within { IfOk result (λ n. n ≤ length piece.now) }
        ensures some { IfOk result (λ n. 0 < length piece.now → 0 < n) }
        ensures bytes { WriteAppends None None result piece.now }
        ensures cause { HasCause (write_faults self.old) (write_faults self.new) result }

        // The bytes go to the writer.
        ensures passed { WriteAppends (W.contents (writer self.old)) (W.contents (writer self.new)) result piece.now }

        // The count rises exactly where the write fails.
        ensures ok { OnOk result (write_faults self.new ≡ write_faults self.old) }
        ensures failed { OnErr result (write_faults self.new ≡ next_count (write_faults self.old)) }
    {
        match self.inner.write(piece) {
            Ok(n) if n > 0 || piece.is_empty() => Ok(n),
            _ => {
                self.faults = next_count(self.faults);
                Err(Failed)
            }
        }
    }
}
