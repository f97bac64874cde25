// What a certificate is worth.
ghost use Rattle.std.specs.Prelude.{◌≡◌, ◌++◌, ℕ, List, IfOk, OnOk};
ghost use Rattle.evidence_check.specs.Checking.{IsJudged};
ghost use Rattle.evidence_text.specs.Judgeable.{IsJudgeable};
ghost use Rattle.evidence_text.specs.Language.{IsCertificate, IsFault};
ghost use Rattle.router_account.specs.Shelves.{ShelfView};
ghost use Rattle.trace_history.specs.Workers.{YardView};
ghost use Rattle.spie_run.specs.Captures.{counted};
ghost use Rattle.spie_run.specs.Certificates.{check_why_word, no_text, yes_text};
ghost use Rattle.spie_run.specs.Refusals.{refusal_text};
ghost use Rattle.spie_run.specs.Run.{Answers, keeping};

use crate::captures::push_counted;
use crate::refusals::refusal_text;
use crate::replies::Reply;
use crate::words::Command;
use evidence_check::{Verdict, judge};
use evidence_text::{Certificate, CheckFault, CheckRefused, CheckWhy, read_certificate};
use line_text::{push, push_count};
use spie_base::{NoMemory, Status};
use std::alloc::Global;

fn why_word(why: CheckWhy) -> &'static [u8]
    ensures { result.now ≡ check_why_word why }
{
    match why {
        CheckWhy::TooLong => b"too-long",
        CheckWhy::After => b"after",
        CheckWhy::Ending => b"ending",
        CheckWhy::Word => b"word",
        CheckWhy::Fields => b"fields",
        CheckWhy::Field => b"field",
        CheckWhy::Order => b"order",
    }
}

// The line of a yes: how long the four lists are.
fn yes_text(
    alloc: Global,
    nodes: u32,
    edges: u32,
    unknown: u32,
    clear: u32,
) -> Result<Vec<u8>, NoMemory>
    ensures { IfOk result (λ text. text.items ≡ yes_text nodes edges unknown clear) }
{
    let mut text = Vec::from_slice(alloc, b"yes")?;
    push_counted(&mut text, b"nodes", nodes)?;
    push_counted(&mut text, b"edges", edges)?;
    push_counted(&mut text, b"unknown", unknown)?;
    push_counted(&mut text, b"clear", clear)?;
    push(&mut text, b"\n")?;
    Ok(text)
}

// The line of a no: the first line that fails.
fn no_text(alloc: Global, line: u64) -> Result<Vec<u8>, NoMemory>
    ensures { IfOk result (λ text. text.items ≡ no_text line) }
{
    let mut text = Vec::from_slice(alloc, b"no")?;
    push_count(&mut text, line)?;
    push(&mut text, b"\n")?;
    Ok(text)
}

// What says why a text is no certificate.
fn refused(alloc: Global, fault: CheckFault) -> Result<Reply, NoMemory>
    ensures text { IfOk result (λ reply. reply.text.items ≡ refusal_text fault.line (check_why_word fault.why)) }
    ensures status { IfOk result (λ reply. reply.status ≡ Status.TraceRefused) }
{
    Ok(Reply {
        status: Status::TraceRefused,
        text: refusal_text(alloc, fault.line, why_word(fault.why))?,
    })
}

// What says whether the lines of a certificate hold.
fn judged(alloc: Global, certificate: &Certificate) -> Result<Reply, NoMemory>
    requires { IsJudgeable certificate.now }
    ensures { (still : ShelfView) (name input : List ℕ) (yard : List YardView) → IsCertificate input certificate.now
        → IfOk result (λ reply. Answers Command.Check name reply.status
        (keeping (record { shelf_before = still; shelf_after = still }) yard yard) input reply.text.items) }
{
    match judge(alloc, certificate)? {
        Verdict::Yes {
            nodes,
            edges,
            unknown,
            clear,
        } => Ok(Reply {
            status: Status::Done,
            text: yes_text(alloc, nodes, edges, unknown, clear)?,
        }),
        Verdict::No { line } => Ok(Reply {
            status: Status::No,
            text: no_text(alloc, line)?,
        }),
    }
}

/// Whether the lines of a certificate hold: yes with the lengths of its lists, or no with the first line that fails. The
/// bytes of the text are let go of once they are read.
pub(crate) fn checked(alloc: Global, text: Vec<u8>) -> Result<Reply, NoMemory>
    ensures { (still : ShelfView) (name : List ℕ) (yard : List YardView) → IfOk result (λ reply. Answers Command.Check name reply.status
        (keeping (record { shelf_before = still; shelf_after = still }) yard yard) text.items reply.text.items) }
{
    let read = read_certificate(alloc, &text);
    drop(text);
    match read {
        Ok(certificate) => judged(alloc, &certificate),
        Err(CheckRefused::Refused(fault)) => refused(alloc, fault),
        Err(CheckRefused::NoMemory) => Err(NoMemory),
    }
}
