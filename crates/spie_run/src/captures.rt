// What is made of a capture.
ghost use Rattle.std.specs.Prelude.{◌≡◌, ◌≤◌, ◌++◌, ℕ, List, length, IfOk, OnOk};
ghost use Rattle.router_account.specs.Shelves.{ShelfView};
ghost use Rattle.trace_format.specs.Spelling.{IsName};
ghost use Rattle.trace_history.specs.Workers.{YardView};
ghost use Rattle.spie_run.specs.Captures.{capture_why_word, count_text, counted, good_text, other_text};
ghost use Rattle.spie_run.specs.Refusals.{refusal_text};
ghost use Rattle.spie_run.specs.Run.{Answers, keeping};

use crate::refusals::refusal_text;
use crate::replies::Reply;
use crate::words::Command;
use line_text::{push, push_count, push_field};
use pcap_intake::{CaptureRefused, CaptureWhy, Counts, capture_lines};
use spie_base::{NoMemory, Status};
use std::alloc::Global;
use trace_format::{MOST_BYTES, MOST_NUMBER};

fn why_word(why: CaptureWhy) -> &'static [u8]
    ensures { result.now ≡ capture_why_word why }
{
    match why {
        CaptureWhy::Short => b"short",
        CaptureWhy::Magic => b"magic",
        CaptureWhy::Version => b"version",
        CaptureWhy::LinkType => b"link-type",
    }
}

/// Appends a field and its number.
pub(crate) fn push_counted(out: &mut Vec<u8>, name: &[u8], count: u32) -> Result<(), NoMemory>
    ensures { OnOk result (out.new.items ≡ out.old.items ++ counted name.now count) }
{
    push_field(out, name)?;
    push_count(out, u64::from(count))
}

fn push_good(out: &mut Vec<u8>, counts: Counts) -> Result<(), NoMemory>
    ensures { OnOk result (out.new.items ≡ out.old.items ++ good_text counts) }
{
    push_counted(out, b"taken", counts.taken)?;
    push_counted(out, b"skipped", counts.skipped)?;
    push_counted(out, b"left", counts.left)
}

fn push_other(out: &mut Vec<u8>, counts: Counts) -> Result<(), NoMemory>
    ensures { OnOk result (out.new.items ≡ out.old.items ++ other_text counts) }
{
    push_counted(out, b"other", counts.other)?;
    push_counted(out, b"refused", counts.refused)?;
    push_counted(out, b"cut", if counts.cut { 1 } else { 0 })
}

fn count_text(alloc: Global, counts: Counts) -> Result<Vec<u8>, NoMemory>
    ensures { IfOk result (λ text. text.items ≡ count_text counts) }
{
    let mut text = Vec::from_slice(alloc, b"capture")?;
    push_good(&mut text, counts)?;
    push_other(&mut text, counts)?;
    push(&mut text, b"\n")?;
    Ok(text)
}

// What says why a capture is refused.
fn refused(alloc: Global, place: u64, why: CaptureWhy) -> Result<Reply, NoMemory>
    ensures text { IfOk result (λ reply. reply.text.items ≡ refusal_text place (capture_why_word why)) }
    ensures status { IfOk result (λ reply. reply.status ≡ Status.TraceRefused) }
{
    Ok(Reply {
        status: Status::TraceRefused,
        text: refusal_text(alloc, place, why_word(why))?,
    })
}

/// The lines of a capture's packets, as this router forwarded them.
pub(crate) fn captured(
    alloc: Global,
    input: &[u8],
    name: &[u8],
    first: u32,
    skip: u32,
) -> Result<Reply, NoMemory>
    requires most { length input.now ≤ MOST_BYTES }
    requires name { IsName name.now }
    requires first { first ≤ MOST_NUMBER }
    ensures { (still : ShelfView) (yard : List YardView) → IfOk result (λ reply. Answers (Command.Pcap first skip) name.now reply.status
        (keeping (record { shelf_before = still; shelf_after = still }) yard yard) input.now reply.text.items) }
{
    match capture_lines(alloc, input, name, first, skip) {
        Ok(lines) => Ok(Reply {
            status: Status::Done,
            text: lines.into_text(),
        }),
        Err(CaptureRefused::Refused { place, why }) => refused(alloc, place, why),
        Err(CaptureRefused::NoMemory) => Err(NoMemory),
    }
}

// Counts are the same for any router.
const ANY_NAME: &[u8] = b"a";

/// How many of a capture's records became what.
pub(crate) fn counted(alloc: Global, input: &[u8]) -> Result<Reply, NoMemory>
    requires { length input.now ≤ MOST_BYTES }
    ensures { (still : ShelfView) (name : List ℕ) (yard : List YardView) → IfOk result (λ reply. Answers Command.PcapCount name reply.status
        (keeping (record { shelf_before = still; shelf_after = still }) yard yard) input.now reply.text.items) }
{
    match capture_lines(alloc, input, ANY_NAME, 0, 0) {
        Ok(lines) => Ok(Reply {
            status: Status::Done,
            text: count_text(alloc, lines.counts())?,
        }),
        Err(CaptureRefused::Refused { place, why }) => refused(alloc, place, why),
        Err(CaptureRefused::NoMemory) => Err(NoMemory),
    }
}
