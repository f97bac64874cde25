// The top call: reads the whole input, has the whole output made, and writes it.
ghost use Rattle.std.specs.Prelude.{◌≡◌, ◌≤◌, ◌⊎◌, ℕ, List, [], true, false, Some, IfOk, OnOk, IfErr, map, string_bytes};
ghost use Rattle.gate_core.specs.declared.limits.TheConstants.{MOST_PASSES};
ghost use Rattle.spie_base.specs.declared.Status.{Status};
ghost use Rattle.router_account.specs.Shelves.{view_of};
ghost use Rattle.spie_run.specs.Inputs.{EndsUnread, IsInput};
ghost use Rattle.spie_run.specs.declared.words.Command.{Command};
ghost use Rattle.spie_run.specs.Run.{told, views, Delivered, Ran};
ghost use Rattle.spie_run.specs.Words.{IsInRange, IsNamed, command_of, name_in, reads};

use crate::replies::{reply_alone, reply_beside};
use crate::words::{Command, capture_word, command_of, reads};
use gate_core::MOST_PASSES;
use page_shelf::Shelf;
use spie_base::{NoMemory, ReadRefused, Sink, Source, Status, WriteFailed, read_all, write_all};
use std::alloc::Global;
use std::sync::Wait;
use std::thread::Threads;
use trace_format::MOST_BYTES;
use trace_replay::Yard;

// What is written where the input has more than `MOST_BYTES` bytes.
const TOO_LONG: &[u8] = b"refused 0 too-long\n";

// Writes the text of an answer.
fn deliver<K: Sink>(sink: &mut K, status: Status, text: &[u8]) -> Status
    ensures { Delivered status result (told K.written K.faults sink.old) (told K.written K.faults sink.new) text.now }
{
    match write_all(sink, text) {
        Ok(()) => status,
        Err(WriteFailed) => Status::WriteFault,
    }
}

// Reads the whole input of a command, or ends the run. A command that reads none has an empty one.
fn input<S: Source, K: Sink>(
    alloc: Global,
    command: &Command,
    source: &mut S,
    sink: &mut K,
) -> Result<Vec<u8>, Status>
    ensures text { IfOk result (λ text. IsInput command.now
        (told S.left S.faults source.old) (told S.left S.faults source.new) text.items) }
    ensures unread { reads command.now ≡ false → source.new ≡ source.old }
    ensures unused { OnOk result (sink.new ≡ sink.old) }
    ensures ended { IfErr result (λ status. EndsUnread
        (told S.left S.faults source.old) (told K.written K.faults sink.old)
        (told S.left S.faults source.new) (told K.written K.faults sink.new) status) }
    ensures unwritten { IfErr result (λ status.
        (status ≡ Status.ReadFault ⊎ status ≡ Status.NoMemory) → sink.new ≡ sink.old) }
    ensures no_usage { IfErr result (λ status. status ≡ Status.Usage → ⊥) }
    ensures reads { IfErr result (λ status. reads command.now ≡ true) }
{
    if !reads(command) {
        return Ok(Vec::new(alloc));
    }
    match read_all(alloc, source, MOST_BYTES) {
        Ok(text) => Ok(text),
        Err(ReadRefused::TooLong) => Err(deliver(sink, Status::TraceRefused, TOO_LONG)),
        Err(ReadRefused::Failed) => Err(Status::ReadFault),
        Err(ReadRefused::NoMemory) => Err(Status::NoMemory),
    }
}

// Runs a command that waits for nobody.
fn run_command<S: Source, K: Sink, H: Shelf>(
    alloc: Global,
    command: Command,
    name: &[u8],
    source: &mut S,
    sink: &mut K,
    shelf: &mut H,
    yard: &mut Yard,
) -> Status
    requires range { IsInRange 1 command }
    requires named { IsNamed command name.now }
    requires empty { yard.old ≡ [] }
    ensures ran { Ran (Some command) name.now
        (views (told S.left S.faults source.old) (told K.written K.faults sink.old)
        (view_of H.tells H.contents H.faults shelf.old) yard.old)
        (views (told S.left S.faults source.new) (told K.written K.faults sink.new)
        (view_of H.tells H.contents H.faults shelf.new) yard.new) result }
    ensures unwritten { (result ≡ Status.ReadFault ⊎ result ≡ Status.NoMemory) → sink.new ≡ sink.old }
    ensures unread { reads command ≡ false → source.new ≡ source.old }
{
    let text = match input(alloc, &command, source, sink) {
        Ok(text) => text,
        Err(status) => return status,
    };
    match reply_alone(alloc, command, name, text, shelf, yard) {
        Ok(reply) => deliver(sink, reply.status, &reply.text),
        Err(NoMemory) => Status::NoMemory,
    }
}

// Runs a command, by workers beside an operator where it replays.
fn run_beside<R: Threads + Wait + Sync, S: Source, K: Sink, H: Shelf + Send>(
    rt: &R,
    alloc: Global,
    command: Command,
    name: &[u8],
    source: &mut S,
    sink: &mut K,
    shelf: &mut H,
    yard: &mut Yard,
) -> Status
    requires range { IsInRange MOST_PASSES command }
    requires named { IsNamed command name.now }
    requires empty { yard.old ≡ [] }
    ensures ran { Ran (Some command) name.now
        (views (told S.left S.faults source.old) (told K.written K.faults sink.old)
        (view_of H.tells H.contents H.faults shelf.old) yard.old)
        (views (told S.left S.faults source.new) (told K.written K.faults sink.new)
        (view_of H.tells H.contents H.faults shelf.new) yard.new) result }
    ensures unwritten { (result ≡ Status.ReadFault ⊎ result ≡ Status.NoMemory) → sink.new ≡ sink.old }
    ensures unread { reads command ≡ false → source.new ≡ source.old }
{
    let text = match input(alloc, &command, source, sink) {
        Ok(text) => text,
        Err(status) => return status,
    };
    match reply_beside(rt, alloc, command, name, text, shelf, yard) {
        Ok(reply) => deliver(sink, reply.status, &reply.text),
        Err(NoMemory) => Status::NoMemory,
    }
}

/// Reads a whole input, does what the arguments ask for, and writes the whole output. `replay 1` asks for the report
/// of a trace, and so does `replay 1 FOLDER`: which shelf the archived pages are put on is the caller's choice, by
/// `shelf_word`. The trace's routers are left in the yard, where the report was made. `play` asks for what the steps of a
/// script answered; `pcap NAME FIRST SKIP` for the packets of a capture as lines of a trace, and `pcap count` for how many
/// of its records became what; these use neither. `make SEED PACKETS` asks for the made trace, and `load SEED PACKETS 1`
/// for one line that sums up a replay of it, which uses shelf and yard; these read nothing. `check` asks whether the lines
/// of a certificate hold, and is `No` where one fails; it uses neither. An unknown command and wrong
/// arguments are `Usage`, and so is more than one worker. These commands wait for nobody, so the call returns.
///
/// Nothing is written before the input was read, to its end or one byte past its limit of 64 MiB, and the
/// output made whole. Takes the input, what is kept of it, the yard, and the output.
pub fn run_alone<S: Source, K: Sink, H: Shelf>(
    alloc: Global,
    words: &[String],
    source: &mut S,
    sink: &mut K,
    shelf: &mut H,
    yard: &mut Yard,
) -> Status
    requires empty { yard.old ≡ [] }
    ensures ran { Ran (command_of 1 (map string_bytes words.now)) (name_in (map string_bytes words.now))
        (views (told S.left S.faults source.old) (told K.written K.faults sink.old)
        (view_of H.tells H.contents H.faults shelf.old) yard.old)
        (views (told S.left S.faults source.new) (told K.written K.faults sink.new)
        (view_of H.tells H.contents H.faults shelf.new) yard.new) result }
    ensures untouched { result ≡ Status.Usage
        → (source.new ≡ source.old) × (sink.new ≡ sink.old) × (shelf.new ≡ shelf.old) }
    ensures unwritten { (result ≡ Status.ReadFault ⊎ result ≡ Status.NoMemory) → sink.new ≡ sink.old }
    ensures unread { (command : Command) → command_of 1 (map string_bytes words.now) ≡ Some command → reads command ≡ false
        → source.new ≡ source.old }
{
    match command_of(words, 1) {
        Some(command) => {
            let name = capture_word(words);
            run_command(alloc, command, name, source, sink, shelf, yard)
        }
        None => Status::Usage,
    }
}

/// The run of the program; `rt` and `alloc` are those of the program. `replay W`, `replay W FOLDER` and
/// `load SEED PACKETS W` replay a trace by W workers, 1 to 16; with 2 or more, threads of their own record beside the
/// calling thread, which rotates, archives and watches, and the call may wait for them. All else is as `run_alone` does it.
pub fn run<R: Threads + Wait + Sync, S: Source, K: Sink, H: Shelf + Send>(
    rt: &R,
    alloc: Global,
    words: &[String],
    source: &mut S,
    sink: &mut K,
    shelf: &mut H,
    yard: &mut Yard,
) -> Status
    requires empty { yard.old ≡ [] }
    ensures ran { Ran (command_of MOST_PASSES (map string_bytes words.now)) (name_in (map string_bytes words.now))
        (views (told S.left S.faults source.old) (told K.written K.faults sink.old)
        (view_of H.tells H.contents H.faults shelf.old) yard.old)
        (views (told S.left S.faults source.new) (told K.written K.faults sink.new)
        (view_of H.tells H.contents H.faults shelf.new) yard.new) result }
    ensures untouched { result ≡ Status.Usage
        → (source.new ≡ source.old) × (sink.new ≡ sink.old) × (shelf.new ≡ shelf.old) }
    ensures unwritten { (result ≡ Status.ReadFault ⊎ result ≡ Status.NoMemory) → sink.new ≡ sink.old }
    ensures unread { (command : Command) → command_of MOST_PASSES (map string_bytes words.now) ≡ Some command → reads command ≡ false
        → source.new ≡ source.old }
{
    match command_of(words, MOST_PASSES) {
        Some(command) => {
            let name = capture_word(words);
            run_beside(rt, alloc, command, name, source, sink, shelf, yard)
        }
        None => Status::Usage,
    }
}
