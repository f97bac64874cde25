ghost use Rattle.std.specs.Prelude.{◌≡◌, ◌≤◌, ◌<◌, ◌-◌, ◌∷◌, ◌^◌, List, length, OnOk, IfOk, IfErr, ℕ};
ghost use Rattle.pcap_intake.specs.Capture.{Captured, second_of};
ghost use Rattle.pcap_intake.specs.RouterTrace.{AreTraceLines};
ghost use Rattle.pcap_intake.specs.Intake.{AreLinesOf, IsMadeOf, IsRefusedFor};
ghost use Rattle.pcap_intake.specs.Steps.{AreTaken, AreAdded, CanRise};
ghost use Rattle.pcap_intake.specs.Text.{Packet};
ghost use Rattle.trace_format.specs.Spelling.{IsName};

use crate::counts::Counts;
use crate::frames::{FrameKind, PacketFront, judged};
use crate::header::{HEADER, file_header};
use crate::kind::CaptureKind;
use crate::records::{FirstRecord, next_record};
use crate::refused::CaptureRefused;
use crate::writing::Written;
use spie_base::NoMemory;
use std::alloc::Global;
use std::marker::Model;
use trace_format::{MOST_BYTES, MOST_NUMBER, MOST_PACKETS};

/// The text of a capture, and how many records became what.
#[derive(Drop)]
pub struct CaptureLines {
    text: Vec<u8>,
    counts: Counts,
}

impl Model for CaptureLines {
    ghost use Rattle.pcap_intake.specs.Intake.{Lines};

    ghost Value = { Lines };

    ghost view = { λ s. record { text = s.text.items; counts = s.counts } };
}

impl CaptureLines {
    /// Lines of a trace.
    pub fn text(&self) -> &[u8]
        ensures { result.now ≡ self.now.text }
    {
        &self.text
    }

    /// The same, handed over.
    pub fn into_text(self) -> Vec<u8>
        ensures { result.items ≡ self.text }
    {
        self.text
    }

    /// How many records became what.
    pub fn counts(&self) -> Counts
        ensures { result ≡ self.now.counts }
    {
        self.counts
    }
}

// Whose packets they are, the number of the first, and how many are left out before it.
#[derive(Clone, Copy)]
struct Plan<'a> {
    name: &'a [u8],
    first: u32,
    skip: u32,
}

// One good packet more.
fn add_good(
    plan: &Plan<'_>,
    written: &mut Written,
    counts: &mut Counts,
    second: u32,
    front: &PacketFront,
) -> Result<(), NoMemory>
    requires first { plan.now.first ≤ MOST_NUMBER }
    requires rise { CanRise counts.old }
    ensures added { OnOk result ((packets : List Packet)
        → AreTaken plan.now.name.now plan.now.first plan.now.skip packets written.old counts.old
        → AreTaken plan.now.name.now plan.now.first plan.now.skip
        (record { second = second; front = front.now } ∷ packets) written.new counts.new) }
    ensures other { OnOk result (counts.new.other ≡ counts.old.other) }
    ensures refused { OnOk result (counts.new.refused ≡ counts.old.refused) }
    ensures cut { OnOk result (counts.new.cut ≡ counts.old.cut) }
{
    if counts.skipped < plan.skip {
        counts.skipped += 1;
        return Ok(());
    }
    if counts.taken >= MOST_PACKETS as u32 - plan.first {
        counts.left += 1;
        return Ok(());
    }
    let number = plan.first + counts.taken;
    written.add(plan.name, number, second, front.bytes())?;
    counts.taken += 1;
    Ok(())
}

// One record more.
fn add_record(
    kind: CaptureKind,
    plan: &Plan<'_>,
    written: &mut Written,
    counts: &mut Counts,
    found: &FirstRecord<'_>,
) -> Result<(), NoMemory>
    requires first { plan.now.first ≤ MOST_NUMBER }
    requires rise { CanRise counts.old }
    ensures { OnOk result ((records : List Captured) (head : List ℕ)
        → found.now.second ≡ second_of kind.order head
        → AreAdded kind plan.now.name.now plan.now.first plan.now.skip records written.old counts.old
        → AreAdded kind plan.now.name.now plan.now.first plan.now.skip
        (record { head = head; frame = found.now.frame.now } ∷ records) written.new counts.new) }
{
    match judged(kind.link, found.frame) {
        FrameKind::Other => {
            counts.other += 1;
            Ok(())
        }
        FrameKind::Refused => {
            counts.refused += 1;
            Ok(())
        }
        FrameKind::Good(front) => add_good(plan, written, counts, found.second, &front),
    }
}

// All records.
fn add_records(
    alloc: Global,
    kind: CaptureKind,
    plan: &Plan<'_>,
    bytes: &[u8],
) -> Result<CaptureLines, NoMemory>
    requires least { 24 ≤ length bytes.now }
    requires most { length bytes.now ≤ MOST_BYTES }
    requires first { plan.now.first ≤ MOST_NUMBER }
    ensures { IfOk result (λ lines. IsMadeOf kind bytes.now plan.now.name.now plan.now.first plan.now.skip lines) }
{
    let mut written = Written::new(alloc);
    let mut counts = Counts {
        taken: 0,
        skipped: 0,
        left: 0,
        other: 0,
        refused: 0,
        cut: false,
    };
    let mut rest = &bytes[HEADER..];
    'records: while let Some(found) = next_record(kind, rest) {
        add_record(kind, plan, &mut written, &mut counts, &found)?;
        rest = found.after;
    }
    counts.cut = !rest.is_empty();
    Ok(CaptureLines {
        text: written.into_text(),
        counts,
    })
}

/// The lines of a router that forwards the packets of a capture, and how many records became what. The packets are
/// numbered from `first` on, behind `skip` good ones that are left out.
///
/// Looks at 16 bytes of a record and at the first 82 of its frame. Memory is taken for the text, which has at most 187
/// bytes for each of 65,536 packets.
pub fn capture_lines(
    alloc: Global,
    bytes: &[u8],
    name: &[u8],
    first: u32,
    skip: u32,
) -> Result<CaptureLines, CaptureRefused>
    requires most { length bytes.now ≤ MOST_BYTES }
    requires name { IsName name.now }
    requires first { first ≤ MOST_NUMBER }
    ensures refused { IfErr result (λ why. IsRefusedFor bytes.now why) }
    ensures lines { IfOk result (λ lines. AreLinesOf bytes.now name.now first skip lines) }

    // Behind a trace's declarations and before its end.
    ensures trace { IfOk result (λ lines. first ≡ 0 → AreTraceLines bytes.now name.now skip lines) }
{
    let kind = file_header(bytes)?;
    let plan = Plan { name, first, skip };
    Ok(add_records(alloc, kind, &plan, bytes)?)
}
