// What is printed at a barrier.
ghost use Rattle.std.specs.Prelude.{◌≡◌, ◌<◌, ◌≤◌, ◌+◌, ◌++◌, IfOk, OnOk, length, map, option_map};
ghost use Rattle.std.specs.List.{All, flat_map};
ghost use Rattle.report_text.specs.declared.Item.TheVariants.{Left};
ghost use Rattle.report_text.specs.Report.{item_text};
ghost use Rattle.router_account.specs.Account.{below};
ghost use Rattle.trace_history.specs.Report.{left_items, closing_items};
ghost use Rattle.data_agent.specs.Calls.{closing_of};
ghost use Rattle.trace_replay.specs.Barriers.{closed_of};
ghost use Rattle.trace_replay.specs.Printing.{AddsItems, splits_of, lefts_of, IsAnswerNamed, archived_item};
ghost use Rattle.trace_replay.specs.Segments.{item_by, numbered, pending_items};

use crate::printing::push_plain;
use crate::state::Answer;
use data_agent::{Archived, Barrier, Closed};
use report_text::{Item, push_item};
use spie_base::{List, NoMemory, PageNo, RouterId};
use std::alloc::Global;
use topology::Topology;
use trace_format::Line;

// Bytes of most lines of a segment: seven digits of a line, a word, a page. They are reserved at once, since a report that
// outgrows its memory is copied.
const LINE_BYTES: usize = 16;

fn copied(alloc: Global, pages: &List<PageNo>) -> Result<List<PageNo>, NoMemory>
    ensures { IfOk result (λ copy. copy ≡ pages.now) }
{
    Ok(List::of(Vec::from_slice(alloc, pages.items())?))
}

fn split(
    alloc: Global,
    line: u64,
    router: RouterId,
    archived: &Option<Archived>,
) -> Result<Item, NoMemory>
    ensures { IfOk result (λ item. item ≡ archived_item line router archived.now) }
{
    let Some(archived) = archived else {
        return Ok(Item::Archived {
            line,
            router,
            put: List::of(Vec::new(alloc)),
            kept: List::of(Vec::new(alloc)),
        });
    };
    Ok(Item::Archived {
        line,
        router,
        put: copied(alloc, &archived.put)?,
        kept: copied(alloc, &archived.kept)?,
    })
}

fn push_one(
    alloc: Global,
    out: &mut Vec<u8>,
    topology: &Topology,
    line: u64,
    answer: Answer,
    barriers: &[Barrier],
) -> Result<(), NoMemory>
    requires count { length barriers.now ≡ length topology.now.names }
    requires named { IsAnswerNamed (length topology.now.names) answer }
    ensures { OnOk result (out.new.items ≡ out.old.items ++ item_text topology.now.names (item_by (splits_of barriers.now) line answer)) }
{
    let Answer::Archived(router) = answer else {
        return push_plain(out, topology, line, answer);
    };
    let archived = &barriers[router.number as usize].archived;
    push_item(out, topology, &split(alloc, line, router, archived)?)?;
    Ok(())
}

/// Appends the lines of answers to the lines from this place on, by how their routers' barriers split the pages of
/// archivals.
pub fn push_answers(
    alloc: Global,
    out: &mut Vec<u8>,
    topology: &Topology,
    lines: &[Line],
    first: usize,
    answers: &[Answer],
    barriers: &[Barrier],
) -> Result<(), NoMemory>
    requires there { first + length answers.now ≤ length lines.now }
    requires count { length barriers.now ≡ length topology.now.names }
    requires named { All (IsAnswerNamed (length topology.now.names)) answers.now }
    ensures { OnOk result (AddsItems topology.now.names
        (pending_items (splits_of barriers.now) (numbered lines.now first answers.now)) out.old.items out.new.items) }
{
    out.reserve(answers.len().saturating_mul(LINE_BYTES))?;
    for place in 0..answers.len() {
        let line = lines[first + place].number;
        push_one(alloc, out, topology, line, answers[place], barriers)?;
    }
    Ok(())
}

fn push_left_pages(
    out: &mut Vec<u8>,
    topology: &Topology,
    line: u64,
    router: RouterId,
    pages: &[PageNo],
) -> Result<(), NoMemory>
    requires { router.number < length topology.now.names }
    ensures { OnOk result (AddsItems topology.now.names
        (map (Left line router) pages.now) out.old.items out.new.items) }
{
    for page in pages {
        let item = Item::Left {
            line,
            router,
            page: *page,
        };
        push_item(out, topology, &item)?;
    }
    Ok(())
}

/// Appends the lines of the pages that the barriers left on the shelf.
pub fn push_left(
    out: &mut Vec<u8>,
    topology: &Topology,
    line: u64,
    barriers: &[Barrier],
) -> Result<(), NoMemory>
    requires { length barriers.now ≡ length topology.now.names }
    ensures { OnOk result (AddsItems topology.now.names
        (flat_map (left_items line (lefts_of barriers.now)) (below (length topology.now.names))) out.old.items out.new.items) }
{
    let routers = topology.routers();
    for router in 0..routers {
        let left = &barriers[router as usize].left;
        push_left_pages(
            out,
            topology,
            line,
            RouterId { number: router },
            left.items(),
        )?;
    }
    Ok(())
}

fn push_closing(
    out: &mut Vec<u8>,
    topology: &Topology,
    line: u64,
    router: RouterId,
    closed: &Option<Closed>,
) -> Result<(), NoMemory>
    requires { router.number < length topology.now.names }
    ensures { OnOk result (AddsItems topology.now.names
        (closing_items line router.number (option_map closing_of closed.now)) out.old.items out.new.items) }
{
    if let Some(closed) = closed {
        let item = Item::Closed {
            line,
            router,
            page: closed.page,
            bits: closed.bits,
        };
        push_item(out, topology, &item)?;
    }
    Ok(())
}

/// Appends the lines of the pages that the barriers closed.
pub fn push_closed(
    out: &mut Vec<u8>,
    topology: &Topology,
    line: u64,
    barriers: &[Barrier],
) -> Result<(), NoMemory>
    requires { length barriers.now ≡ length topology.now.names }
    ensures { OnOk result (AddsItems topology.now.names
        (flat_map (closed_of barriers.now line) (below (length topology.now.names))) out.old.items out.new.items) }
{
    let routers = topology.routers();
    for router in 0..routers {
        let closed = &barriers[router as usize].closed;
        push_closing(out, topology, line, RouterId { number: router }, closed)?;
    }
    Ok(())
}
