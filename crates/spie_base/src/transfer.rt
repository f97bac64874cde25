// Whole inputs and whole outputs, over the single calls of a source and a sink.
ghost use Rattle.std.specs.Prelude.{◌≤◌, OnOk, OnErr};
ghost use Rattle.std.specs.Io.KnownBytes.{Appends};
ghost use Rattle.spie_base.specs.Causes.{HasCause, HasReadCause};
ghost use Rattle.spie_base.specs.Transfer.{Took, AppendsFront};

use crate::{ReadRefused, Sink, Source, WriteFailed};
use std::alloc::Global;

// How many bytes are asked for at once: few calls for a large input, and little to clear for a small one.
const PIECE: usize = 32768;

/// All the bytes up to the end, of which there are at most `most`. `TooLong` comes exactly where
/// `most + 1` bytes were taken, and then no more are asked for. After an `Err` the bytes that were
/// taken are gone. Costs a take for each 32 KiB that the source can give at once.
pub fn read_all<S: Source>(
    alloc: Global,
    source: &mut S,
    most: usize,
) -> Result<Vec<u8>, ReadRefused>
    ensures took { Took (S.left source.old) (S.left source.new) most result }
    ensures later { S.faults source.old ≤ S.faults source.new }
    ensures cause { HasReadCause (S.faults source.old) (S.faults source.new) result }
{
    let mut bytes = Vec::new(alloc);
    let mut piece = [0; PIECE];
    'takes: loop {
        let room = (most - bytes.len()).min(PIECE - 1) + 1;
        let count = source.take(&mut piece[..room])?;
        if count == 0 {
            return Ok(bytes);
        }
        bytes.extend_from_slice(&piece[..count])?;
        if bytes.len() > most {
            return Err(ReadRefused::TooLong);
        }
    }
}

/// Appends all the bytes, and takes no memory. After an `Err` a prefix of them was appended.
pub fn write_all<K: Sink>(sink: &mut K, bytes: &[u8]) -> Result<(), WriteFailed>
    ensures whole { OnOk result (Appends (K.written sink.old) (K.written sink.new) bytes.now) }
    ensures front { OnErr result (AppendsFront (K.written sink.old) (K.written sink.new) bytes.now) }
    ensures cause { HasCause (K.faults sink.old) (K.faults sink.new) result }
{
    let mut at = 0;
    while at < bytes.len() {
        at += sink.give(&bytes[at..])?;
    }
    Ok(())
}
