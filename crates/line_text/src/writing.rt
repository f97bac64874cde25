// The parts of a line, and short lines.
ghost use Rattle.std.specs.Prelude.{◌≡◌, ◌++◌, ◌∷◌, [], OnOk, OnErr, decimal};
ghost use Rattle.line_text.specs.Writing.{BeginsWith, spaced, line_text};

use crate::in_place::{MOST_WORD, ROOM, TOO_LONG, counted_in};
use itoa::Buffer;
use spie_base::NoMemory;

/// Appends some bytes.
pub fn push(out: &mut Vec<u8>, bytes: &[u8]) -> Result<(), NoMemory>
    ensures text { OnOk result (out.new.items ≡ out.old.items ++ bytes.now) }
    ensures unchanged { OnErr result (out.new.items ≡ out.old.items) }
{
    out.extend_from_slice(bytes)?;
    Ok(())
}

/// Appends a number.
pub fn push_number(out: &mut Vec<u8>, number: u64) -> Result<(), NoMemory>
    ensures text { OnOk result (out.new.items ≡ out.old.items ++ decimal number) }
    ensures unchanged { OnErr result (out.new.items ≡ out.old.items) }
{
    let mut buffer = Buffer::new();
    push(out, buffer.format(number).as_bytes())
}

/// Appends a field.
pub fn push_field(out: &mut Vec<u8>, field: &[u8]) -> Result<(), NoMemory>
    ensures text { OnOk result (out.new.items ≡ out.old.items ++ spaced field.now) }
    ensures begun { OnErr result (BeginsWith out.new.items out.old.items) }
{
    push(out, b" ")?;
    push(out, field)
}

/// Appends a field that is a number.
pub fn push_count(out: &mut Vec<u8>, count: u64) -> Result<(), NoMemory>
    ensures text { OnOk result (out.new.items ≡ out.old.items ++ spaced (decimal count)) }
    ensures begun { OnErr result (BeginsWith out.new.items out.old.items) }
{
    push(out, b" ")?;
    push_number(out, count)
}

/// Appends a line of its number and a word.
pub fn push_word(out: &mut Vec<u8>, line: u64, word: &[u8]) -> Result<(), NoMemory>
    ensures text { OnOk result (out.new.items ≡ out.old.items ++ line_text line (word.now ∷ [])) }
    ensures begun { OnErr result (BeginsWith out.new.items out.old.items) }
{
    push_number(out, line)?;
    push_field(out, word)?;
    push(out, b"\n")
}

/// Appends a line of its number, a word and a count. Inlined, so that a word which the caller names is copied without a
/// call.
#[inline(always)]
pub fn push_counted(out: &mut Vec<u8>, line: u64, word: &[u8], count: u64) -> Result<(), NoMemory>
    ensures text { OnOk result (out.new.items ≡ out.old.items ++ line_text line (word.now ∷ decimal count ∷ [])) }
    ensures unchanged { OnErr result (out.new.items ≡ out.old.items) }
{
    if line >= TOO_LONG || count >= TOO_LONG || word.len() > MOST_WORD {
        return push_parts(out, line, word, count);
    }
    let start = out.len();
    out.resize(start + ROOM, 0)?;
    let length = counted_in(&mut out[start..], line, word, count);
    out.truncate(start + length);
    Ok(())
}

// The same, part by part.
#[cold]
#[inline(never)]
fn push_parts(out: &mut Vec<u8>, line: u64, word: &[u8], count: u64) -> Result<(), NoMemory>
    ensures text { OnOk result (out.new.items ≡ out.old.items ++ line_text line (word.now ∷ decimal count ∷ [])) }
    ensures unchanged { OnErr result (out.new.items ≡ out.old.items) }
{
    let start = out.len();
    let pushed = push_each(out, line, word, count);
    if pushed.is_err() {
        out.truncate(start);
    }
    pushed
}

// The same, and after an `Err` the parts before it stand in `out`.
fn push_each(out: &mut Vec<u8>, line: u64, word: &[u8], count: u64) -> Result<(), NoMemory>
    ensures text { OnOk result (out.new.items ≡ out.old.items ++ line_text line (word.now ∷ decimal count ∷ [])) }
    ensures begun { OnErr result (BeginsWith out.new.items out.old.items) }
{
    push_number(out, line)?;
    push_field(out, word)?;
    push_count(out, count)?;
    push(out, b"\n")
}
