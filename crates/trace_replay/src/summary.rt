// The line that sums up the replay of a made trace.
ghost use Rattle.std.specs.Prelude.{◌≡◌, ◌++◌, ◌≤◌, ◌<◌, IfOk, OnOk, decimal, length};
ghost use Rattle.line_text.specs.Writing.{spaced};
ghost use Rattle.trace_format.specs.Sound.{records};
ghost use Rattle.trace_replay.specs.Summary.{load_digest, load_found, load_head, load_left, load_line, load_lines, queries};

use crate::Replayed;
use itoa::Buffer;
use line_text::{push, push_count, push_field};
use sha2::{Digest, Sha256};
use spie_base::NoMemory;
use std::alloc::Global;
use trace_format::{Line, Trace, What};
use trace_history::Totals;
use trace_workers::is_record;

fn count_records(lines: &[Line]) -> u64
    ensures count { result ≡ length (records lines.now) }
{
    let mut count = 0;
    for line in lines {
        if is_record(&line.what) {
            count += 1;
        }
    }
    count
}

fn count_queries(lines: &[Line]) -> u64
    ensures count { result ≡ length (queries lines.now) }
{
    let mut count = 0;
    for line in lines {
        if matches!(line.what, What::Query { .. }) {
            count += 1;
        }
    }
    count
}

// Appends a field and a sum.
fn push_sum(out: &mut Vec<u8>, name: &[u8], sum: u128) -> Result<(), NoMemory>
    ensures { OnOk result (out.new.items ≡ out.old.items ++ (spaced name.now ++ spaced (decimal sum))) }
{
    let mut buffer = Buffer::new();
    push_field(out, name)?;
    push_field(out, buffer.format(sum).as_bytes())
}

fn push_head(out: &mut Vec<u8>, seed: u64, packets: u32) -> Result<(), NoMemory>
    ensures { OnOk result (out.new.items ≡ out.old.items ++ load_head seed packets) }
{
    push(out, b"load")?;
    push_count(out, seed)?;
    push_field(out, b"packets")?;
    push_count(out, u64::from(packets))
}

fn push_lines(out: &mut Vec<u8>, trace: &Trace) -> Result<(), NoMemory>
    ensures { OnOk result (out.new.items ≡ out.old.items ++ load_lines trace.now) }
{
    let lines = trace.lines.items();
    push_field(out, b"records")?;
    push_count(out, count_records(lines))?;
    push_field(out, b"queries")?;
    push_count(out, count_queries(lines))
}

fn push_found(out: &mut Vec<u8>, totals: &Totals) -> Result<(), NoMemory>
    ensures { OnOk result (out.new.items ≡ out.old.items ++ load_found totals.now) }
{
    push_sum(out, b"nodes", totals.nodes)?;
    push_sum(out, b"edges", totals.edges)
}

fn push_left(out: &mut Vec<u8>, totals: &Totals) -> Result<(), NoMemory>
    ensures { OnOk result (out.new.items ≡ out.old.items ++ load_left totals.now) }
{
    push_sum(out, b"unknown", totals.unknown)?;
    push_sum(out, b"clear", totals.clear)
}

fn push_digest(out: &mut Vec<u8>, report: &[u8]) -> Result<(), NoMemory>
    ensures { OnOk result (out.new.items ≡ out.old.items ++ load_digest report.now) }
{
    let digest = Sha256::digest(report);
    let mut text = [0u8; 64];
    hex::encode_to_slice(digest.as_slice(), &mut text).unwrap();
    push_field(out, b"sha256")?;
    push_field(out, &text)?;
    push(out, b"\n")
}

/// One line that sums up the replay of a made trace: its seed and number of packets, how many of the trace's lines record
/// a packet (`fwd` and `xf`) and how many are queries, the sums over all answers, and the SHA-256 of the whole report. Two
/// runs of one made trace over faultless shelves give the same line, whatever their numbers of workers.
///
/// Costs a look at each line of the trace, and the SHA-256 of the report.
pub fn load_text(
    alloc: Global,
    trace: &Trace,
    seed: u64,
    packets: u32,
    replayed: &Replayed,
) -> Result<Vec<u8>, NoMemory>
    ensures line { IfOk result (λ text. text.items
        ≡ load_line seed packets trace.now replayed.now.report replayed.now.totals) }
{
    let mut text = Vec::new(alloc);
    push_head(&mut text, seed, packets)?;
    push_lines(&mut text, trace)?;
    push_found(&mut text, &replayed.totals)?;
    push_left(&mut text, &replayed.totals)?;
    push_digest(&mut text, replayed.report.items())?;
    Ok(text)
}
