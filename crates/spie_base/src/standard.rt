// Sources and sinks over readers and writers of std. Of their bytes they tell what std tells: those of a reader
// or writer over memory, and nothing of a file, a pipe or a terminal.
ghost use Rattle.std.specs.Prelude.{◌≡◌, ◌≤◌, ◌<◌, None, IfOk, length};
ghost use Rattle.std.specs.Io.{ReadsAtMost};
ghost use Rattle.std.specs.Io.KnownBytes.{ReadConsumes, WriteAppends};

use crate::{ReadFailed, Sink, Source, WriteFailed};
use std::io::{ErrorKind, Read, Write};

// How often a call that a signal interrupts is made again before it counts as failed.
const TRIES: u64 = u64::MAX;

// One read, made again where a signal interrupts it.
fn read_some<R: Read>(reader: &mut R, buf: &mut [u8]) -> Result<usize, ReadFailed>
    ensures bound { ReadsAtMost result buf.new }
    ensures bytes { ReadConsumes (R.remaining reader.old) (R.remaining reader.new) result buf.new }
{
    'tries: for _ in 0..TRIES {
        match reader.read(buf) {
            Ok(count) => return Ok(count),
            Err(error) if error.kind() == ErrorKind::Interrupted => {}
            Err(_) => return Err(ReadFailed),
        }
    }
    Err(ReadFailed)
}

// One write, made again where a signal interrupts it. No byte written is a failure.
fn write_some<W: Write>(writer: &mut W, piece: &[u8]) -> Result<usize, WriteFailed>
    ensures bound { IfOk result (λ count. count ≤ length piece.now) }
    ensures some { IfOk result (λ count. 0 < length piece.now → 0 < count) }
    ensures bytes { WriteAppends (W.contents writer.old) (W.contents writer.new) result piece.now }
{
    'tries: for _ in 0..TRIES {
        match writer.write(piece) {
            Ok(count) if count > 0 || piece.is_empty() => return Ok(count),
            Err(error) if error.kind() == ErrorKind::Interrupted => {}
            _ => return Err(WriteFailed),
        }
    }
    Err(WriteFailed)
}

/// A reader of std that counts its faults. A read that a signal interrupts is made again and is no fault.
#[derive(Drop)]
pub struct IoSource<R: Read> {
    reader: R,
    faults: u64,
}

impl<R: Read> IoSource<R> {
    /// Nothing was read yet, and no read has failed.
    pub fn new(reader: R) -> Self
        ensures left { ⟦<IoSource<R> as Source>⟧.left result ≡ R.remaining reader }
        ensures faultless { ⟦<IoSource<R> as Source>⟧.faults result ≡ 0 }
    {
        IoSource { reader, faults: 0 }
    }
}

impl<R: Read> Source for IoSource<R> {
    ghost left = { λ s. R.remaining s.reader };

    ghost faults = { λ s. s.faults };

    fn take(&mut self, buf: &mut [u8]) -> Result<usize, ReadFailed> {
        match read_some(&mut self.reader, buf) {
            Ok(count) => Ok(count),
            Err(ReadFailed) => {
                self.faults = self.faults.saturating_add(1);
                Err(ReadFailed)
            }
        }
    }
}

/// A writer of std that counts its faults, of which a write of no byte is one. A write that a signal
/// interrupts is made again and is no fault. It never flushes: give it a writer that writes through, as
/// standard output does, or a fault that comes after the last piece is not seen.
#[derive(Drop)]
pub struct IoSink<W: Write> {
    writer: W,
    faults: u64,
}

impl<W: Write> IoSink<W> {
    /// Nothing was written yet, and no write has failed.
    pub fn new(writer: W) -> Self
        ensures written { ⟦<IoSink<W> as Sink>⟧.written result ≡ W.contents writer }
        ensures faultless { ⟦<IoSink<W> as Sink>⟧.faults result ≡ 0 }
    {
        IoSink { writer, faults: 0 }
    }
}

impl<W: Write> Sink for IoSink<W> {
    ghost written = { λ s. W.contents s.writer };

    ghost faults = { λ s. s.faults };

    fn give(&mut self, piece: &[u8]) -> Result<usize, WriteFailed> {
        match write_some(&mut self.writer, piece) {
            Ok(count) => Ok(count),
            Err(WriteFailed) => {
                self.faults = self.faults.saturating_add(1);
                Err(WriteFailed)
            }
        }
    }
}
