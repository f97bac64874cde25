// What a command makes of an input.
ghost use Rattle.std.specs.Prelude.{◌≡◌, ◌≤◌, ℕ, List, [], length, true, false, IfOk, IfErr, OnOk, OnErr};
ghost use Rattle.gate_core.specs.declared.limits.TheConstants.{MOST_PASSES};
ghost use Rattle.play_script.specs.Report.{IsReport};
ghost use Rattle.play_script.specs.Sound.{IsSound as IsSoundScript};
ghost use Rattle.router_account.specs.Shelves.{ShelfView};
ghost use Rattle.trace_format.specs.Sound.{IsSound};
ghost use Rattle.trace_format.specs.Trace.{IsTrace};
ghost use Rattle.trace_history.specs.Workers.{YardView};
ghost use Rattle.trace_replay.specs.Agents.{views_of};
ghost use Rattle.spie_run.specs.Later.{is_first_version};
ghost use Rattle.spie_run.specs.Replies.{IsRefusalOf, IsUnread};
ghost use Rattle.spie_run.specs.Run.{Answers, keeping};
ghost use Rattle.spie_run.specs.Words.{IsInRange, IsNamed, is_replay};

use crate::captures::{captured, counted};
use crate::certificates::checked;
use crate::made::{loaded_alone, loaded_beside, written};
use crate::refusals::fault_text;
use crate::words::Command;
use gate_core::play;
use page_shelf::Shelf;
use play_script::{PlayScript, play_text, read_play};
use spie_base::{NoMemory, Status};
use std::alloc::Global;
use std::sync::Wait;
use std::thread::Threads;
use trace_format::{MOST_BYTES, ReadTraceRefused, Trace, TraceRefused, WhyRefused, read_trace};
use trace_replay::{Free, Yard, replay, replay_alone};

/// What is written, and the status that goes with it.
#[derive(Drop)]
pub struct Reply {
    pub status: Status,
    pub text: Vec<u8>,
}

// The text of a script's steps, done from the start.
fn played_text(alloc: Global, script: &PlayScript) -> Result<Vec<u8>, NoMemory>
    requires { IsSoundScript script.now }
    ensures { IfOk result (λ text. IsReport script.now text.items) }
{
    let played = play(alloc, script.shape, script.passes, script.steps.items())?;
    play_text(alloc, &played, script)
}

fn played(alloc: Global, text: Vec<u8>) -> Result<Reply, NoMemory>
    ensures { (still : ShelfView) (name : List ℕ) (yard : List YardView) → IfOk result (λ reply. Answers Command.Play name reply.status
        (keeping (record { shelf_before = still; shelf_after = still }) yard yard) text.items reply.text.items) }
{
    let read = read_play(alloc, &text);
    drop(text);
    match read {
        Ok(script) => Ok(Reply {
            status: Status::Done,
            text: played_text(alloc, &script)?,
        }),
        Err(ReadTraceRefused::Refused(fault)) => Ok(Reply {
            status: Status::TraceRefused,
            text: fault_text(alloc, &fault)?,
        }),
        Err(ReadTraceRefused::NoMemory) => Err(NoMemory),
    }
}

// How a trace of version 1 begins.
const FIRST_VERSION: &[u8] = b"spie-trace 1\n";

// Why a trace of a later version is not replayed.
const LATER_VERSION: TraceRefused = TraceRefused {
    line: 1,
    why: WhyRefused::Field,
};

// Why a text was not read as a trace that is replayed.
#[derive(Drop)]
pub(crate) enum Unread {
    NoMemory,
    /// It has a fault, and this says so.
    Refused(Reply),
}

// A trace, and the memory of the text that it was read from.
#[derive(Drop)]
pub(crate) struct Read {
    pub trace: Trace,
    pub room: Vec<u8>,
}

// The trace that a text is, of version 1. Lets go of a text that is none.
fn trace_of(alloc: Global, text: Vec<u8>) -> Result<Read, Unread>
    ensures trace { IfOk result (λ read. IsTrace text.items read.trace × IsSound read.trace) }
    ensures first { OnOk result (is_first_version text.items ≡ true) }
    ensures refused { IfErr result (λ why. IsUnread text.items why) }
{
    match read_trace(alloc, &text) {
        Ok(trace) => {
            if !text.starts_with(FIRST_VERSION) {
                drop(text);
                return Err(refusal_of(alloc, &LATER_VERSION));
            }
            Ok(Read { trace, room: text })
        }
        Err(ReadTraceRefused::Refused(fault)) => {
            drop(text);
            Err(refusal_of(alloc, &fault))
        }
        Err(ReadTraceRefused::NoMemory) => Err(Unread::NoMemory),
    }
}

// What says that a text has this fault, where there is memory for it.
fn refusal_of(alloc: Global, fault: &TraceRefused) -> Unread
    ensures { IsRefusalOf fault.now result }
{
    match fault_text(alloc, fault) {
        Ok(text) => Unread::Refused(Reply {
            status: Status::TraceRefused,
            text,
        }),
        Err(NoMemory) => Unread::NoMemory,
    }
}

fn replayed_alone<H: Shelf>(
    alloc: Global,
    text: Vec<u8>,
    shelf: &mut H,
    yard: &mut Yard,
) -> Result<Reply, NoMemory>
    requires { yard.old ≡ [] }
    ensures answers { (name : List ℕ) → IfOk result (λ reply. Answers (Command.Replay 1) name reply.status
        (keeping (views_of H.tells H.contents H.faults shelf.old shelf.new) yard.old yard.new) text.items reply.text.items) }
    ensures unopened { OnErr result (yard.new ≡ yard.old) }
{
    match trace_of(alloc, text) {
        Ok(Read { trace, room }) => Ok(Reply {
            status: Status::Done,
            text: replay_alone(alloc, &trace, shelf, yard, room)?
                .report
                .into_vec(),
        }),
        Err(Unread::Refused(reply)) => Ok(reply),
        Err(Unread::NoMemory) => Err(NoMemory),
    }
}

/// What a command that waits for nobody makes of an input, whose bytes are let go of once they are read. A report is written
/// into their memory. The name is that of `pcap`.
pub fn reply_alone<H: Shelf>(
    alloc: Global,
    command: Command,
    name: &[u8],
    text: Vec<u8>,
    shelf: &mut H,
    yard: &mut Yard,
) -> Result<Reply, NoMemory>
    requires range { IsInRange 1 command }
    requires named { IsNamed command name.now }
    requires short { length text.items ≤ MOST_BYTES }
    requires empty { yard.old ≡ [] }
    ensures answers { IfOk result (λ reply. Answers command name.now reply.status
        (keeping (views_of H.tells H.contents H.faults shelf.old shelf.new) yard.old yard.new) text.items reply.text.items) }
    ensures untouched { is_replay command ≡ false → (shelf.new ≡ shelf.old) × (yard.new ≡ yard.old) }
    ensures unopened { OnErr result (yard.new ≡ yard.old) }
{
    match command {
        Command::Replay { .. } => replayed_alone(alloc, text, shelf, yard),
        Command::Play => played(alloc, text),
        Command::Pcap { first, skip } => captured(alloc, &text, name, first, skip),
        Command::PcapCount => counted(alloc, &text),
        Command::Make { made } => written(alloc, made),
        Command::Load { made, .. } => loaded_alone(alloc, made, shelf, yard),
        Command::Check => checked(alloc, text),
    }
}

fn replayed_beside<R: Threads + Wait + Sync, H: Shelf + Send>(
    rt: &R,
    alloc: Global,
    workers: u32,
    text: Vec<u8>,
    shelf: &mut H,
    yard: &mut Yard,
) -> Result<Reply, NoMemory>
    requires least { 1 ≤ workers }
    requires most { workers ≤ MOST_PASSES }
    requires empty { yard.old ≡ [] }
    ensures answers { (name : List ℕ) → IfOk result (λ reply. Answers (Command.Replay workers) name reply.status
        (keeping (views_of H.tells H.contents H.faults shelf.old shelf.new) yard.old yard.new) text.items reply.text.items) }
    ensures unopened { OnErr result (yard.new ≡ yard.old) }
{
    match trace_of(alloc, text) {
        Ok(Read { trace, room }) => Ok(Reply {
            status: Status::Done,
            text: replay(rt, alloc, &trace, shelf, yard, workers, &Free, room)?
                .report
                .into_vec(),
        }),
        Err(Unread::Refused(reply)) => Ok(reply),
        Err(Unread::NoMemory) => Err(NoMemory),
    }
}

/// What a command makes of an input, by workers beside an operator where it replays. All else is as `reply_alone` does it.
pub fn reply_beside<R: Threads + Wait + Sync, H: Shelf + Send>(
    rt: &R,
    alloc: Global,
    command: Command,
    name: &[u8],
    text: Vec<u8>,
    shelf: &mut H,
    yard: &mut Yard,
) -> Result<Reply, NoMemory>
    requires range { IsInRange MOST_PASSES command }
    requires named { IsNamed command name.now }
    requires short { length text.items ≤ MOST_BYTES }
    requires empty { yard.old ≡ [] }
    ensures answers { IfOk result (λ reply. Answers command name.now reply.status
        (keeping (views_of H.tells H.contents H.faults shelf.old shelf.new) yard.old yard.new) text.items reply.text.items) }
    ensures untouched { is_replay command ≡ false → (shelf.new ≡ shelf.old) × (yard.new ≡ yard.old) }
    ensures unopened { OnErr result (yard.new ≡ yard.old) }
{
    match command {
        Command::Replay { workers } => replayed_beside(rt, alloc, workers, text, shelf, yard),
        Command::Load { made, workers } => loaded_beside(rt, alloc, made, workers, shelf, yard),
        _ => reply_alone(alloc, command, name, text, shelf, yard),
    }
}
