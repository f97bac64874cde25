// What is written where an input is refused.
ghost use Rattle.std.specs.Prelude.{◌≡◌, IfOk};
ghost use Rattle.spie_run.specs.Refusals.{why_word, refusal_text, fault_text};

use itoa::Buffer;
use spie_base::NoMemory;
use std::alloc::Global;
use trace_format::{TraceRefused, WhyRefused};

fn why_word(why: WhyRefused) -> &'static [u8]
    ensures { result.now ≡ why_word why }
{
    match why {
        WhyRefused::TooLong => b"too-long",
        WhyRefused::After => b"after",
        WhyRefused::Ending => b"ending",
        WhyRefused::Length => b"length",
        WhyRefused::Word => b"word",
        WhyRefused::Fields => b"fields",
        WhyRefused::Field => b"field",
        WhyRefused::DoubleName => b"double-name",
        WhyRefused::NoName => b"no-name",
        WhyRefused::SelfLink => b"self-link",
        WhyRefused::DoubleLink => b"double-link",
        WhyRefused::NoRouter => b"no-router",
        WhyRefused::TooMany => b"too-many",
        WhyRefused::Short => b"short",
        WhyRefused::Version => b"version",
        WhyRefused::HeaderLength => b"header-length",
        WhyRefused::TotalLength => b"total-length",
        WhyRefused::Checksum => b"checksum",
        WhyRefused::NoPacket => b"no-packet",
        WhyRefused::Kind => b"kind",
        WhyRefused::Clock => b"clock",
        WhyRefused::Twice => b"twice",
    }
}

/// The line of a refusal: the line of the input, and a word.
pub fn refusal_text(alloc: Global, line: u64, word: &[u8]) -> Result<Vec<u8>, NoMemory>
    ensures { IfOk result (λ text. text.items ≡ refusal_text line word.now) }
{
    let mut buffer = Buffer::new();
    let mut text = Vec::from_slice(alloc, b"refused ")?;
    text.extend_from_slice(buffer.format(line).as_bytes())?;
    text.extend_from_slice(b" ")?;
    text.extend_from_slice(word)?;
    text.extend_from_slice(b"\n")?;
    Ok(text)
}

/// The line of a text that is no trace.
pub fn fault_text(alloc: Global, fault: &TraceRefused) -> Result<Vec<u8>, NoMemory>
    ensures { IfOk result (λ text. text.items ≡ fault_text fault.now) }
{
    refusal_text(alloc, fault.line, why_word(fault.why))
}
