// What is made, and its replay.
ghost use Rattle.std.specs.Prelude.{◌≡◌, ◌≤◌, ℕ, List, [], IfOk, OnErr};
ghost use Rattle.gate_core.specs.declared.limits.TheConstants.{MOST_PASSES};
ghost use Rattle.made_trace.specs.Made.{made_text, made_trace};
ghost use Rattle.router_account.specs.Shelves.{ShelfView};
ghost use Rattle.trace_format.specs.Sound.{IsSound};
ghost use Rattle.trace_format.specs.Trace.{IsTrace};
ghost use Rattle.trace_history.specs.Workers.{YardView};
ghost use Rattle.trace_replay.specs.Agents.{views_of};
ghost use Rattle.spie_run.specs.Run.{Answers, keeping};
ghost use Rattle.spie_run.specs.Words.{IsMaking};

use crate::replies::{Read, Reply};
use crate::words::{Command, Making};
use made_trace::laws::made_is_trace;
use made_trace::make_trace;
use page_shelf::Shelf;
use spie_base::{NoMemory, Status};
use std::alloc::Global;
use std::sync::Wait;
use std::thread::Threads;
use trace_format::{ReadTraceRefused, read_trace};
use trace_replay::{Free, Yard, load_text, replay, replay_alone};

/// The made trace.
pub(crate) fn written(alloc: Global, made: Making) -> Result<Reply, NoMemory>
    requires { IsMaking made }
    ensures { (still : ShelfView) (name input : List ℕ) (yard : List YardView) → IfOk result (λ reply. Answers (Command.Make made) name reply.status
        (keeping (record { shelf_before = still; shelf_after = still }) yard yard) input reply.text.items) }
{
    Ok(Reply {
        status: Status::Done,
        text: make_trace(alloc, made.seed, made.packets)?,
    })
}

// The made trace, read from its text.
fn read_made(alloc: Global, made: Making) -> Result<Read, NoMemory>
    requires { IsMaking made }
    ensures made { IfOk result (λ read. read.trace ≡ made_trace made.seed made.packets) }
    ensures text { IsTrace (made_text made.seed made.packets) (made_trace made.seed made.packets) }
    ensures sound { IfOk result (λ read. IsSound read.trace) }
{
    made_is_trace();
    let text = make_trace(alloc, made.seed, made.packets)?;
    match read_trace(alloc, &text) {
        Ok(trace) => Ok(Read { trace, room: text }),
        Err(ReadTraceRefused::Refused(_)) => unreachable!(),
        Err(ReadTraceRefused::NoMemory) => Err(NoMemory),
    }
}

/// The line that sums up a replay of the made trace by one worker.
pub(crate) fn loaded_alone<H: Shelf>(
    alloc: Global,
    made: Making,
    shelf: &mut H,
    yard: &mut Yard,
) -> Result<Reply, NoMemory>
    requires made { IsMaking made }
    requires empty { yard.old ≡ [] }
    ensures answers { (name input : List ℕ) → IfOk result (λ reply. Answers (Command.Load made 1) name reply.status
        (keeping (views_of H.tells H.contents H.faults shelf.old shelf.new) yard.old yard.new) input reply.text.items) }
    ensures unopened { OnErr result (yard.new ≡ yard.old) }
{
    let Read { trace, room } = read_made(alloc, made)?;
    let mut opened = Yard::new(alloc)?;
    let replayed = replay_alone(alloc, &trace, shelf, &mut opened, room)?;
    let text = load_text(alloc, &trace, made.seed, made.packets, &replayed)?;
    *yard = opened;
    Ok(Reply {
        status: Status::Done,
        text,
    })
}

/// The line that sums up a replay of the made trace by workers beside an operator.
pub(crate) fn loaded_beside<R: Threads + Wait + Sync, H: Shelf + Send>(
    rt: &R,
    alloc: Global,
    made: Making,
    workers: u32,
    shelf: &mut H,
    yard: &mut Yard,
) -> Result<Reply, NoMemory>
    requires made { IsMaking made }
    requires least { 1 ≤ workers }
    requires most { workers ≤ MOST_PASSES }
    requires empty { yard.old ≡ [] }
    ensures answers { (name input : List ℕ) → IfOk result (λ reply. Answers (Command.Load made workers) name reply.status
        (keeping (views_of H.tells H.contents H.faults shelf.old shelf.new) yard.old yard.new) input reply.text.items) }
    ensures unopened { OnErr result (yard.new ≡ yard.old) }
{
    let Read { trace, room } = read_made(alloc, made)?;
    let mut opened = Yard::new(alloc)?;
    let replayed = replay(rt, alloc, &trace, shelf, &mut opened, workers, &Free, room)?;
    let text = load_text(alloc, &trace, made.seed, made.packets, &replayed)?;
    *yard = opened;
    Ok(Reply {
        status: Status::Done,
        text,
    })
}
