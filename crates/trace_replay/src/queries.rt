// The answer to a query, printed and added up.
ghost use Rattle.std.specs.Prelude.{◌≡◌, ◌++◌, IfOk, OnOk, length, map};
ghost use Rattle.std.specs.List.{flat_map};
ghost use Rattle.report_text.specs.Report.{item_text};
ghost use Rattle.router_account.specs.Account.{below};
ghost use Rattle.trace_history.specs.Report.{answer_item, with_answer, word_of};
ghost use Rattle.data_agent.specs.Seeing.{told_by};
ghost use Rattle.trace_replay.specs.Asking.{AreMore, IsRoomy, bad_by, sight_item, item_at, query_items, PrintsQuery};
ghost use Rattle.trace_replay.specs.Printing.{AddsItems, IsGraphNamed};

use crate::barriers::push_left;
use crate::printing::push_graph;
use crate::state::State;
use data_agent::{Barrier, Sight};
use report_text::{Bad, CauseWord, Item, push_item};
use reverse_flood::Graph;
use router_account::{Cause, Unreadable};
use spie_base::{List, NoMemory, PageNo, RouterId};
use std::alloc::Global;
use topology::Topology;
use trace_format::Trace;
use trace_history::Totals;

fn word(cause: Cause) -> CauseWord
    ensures { result ≡ word_of cause }
{
    match cause {
        Cause::Failed => CauseWord::Failed,
        Cause::Other { .. } => CauseWord::Other,
        Cause::Absent => CauseWord::Absent,
        Cause::Broken => CauseWord::Broken,
    }
}

fn bads(alloc: Global, unreadable: &[Unreadable]) -> Result<List<Bad>, NoMemory>
    ensures { IfOk result (λ bads. bads ≡ map bad_by unreadable.now) }
{
    let mut bads = Vec::new(alloc);
    for x in unreadable {
        bads.push(Bad {
            page: x.page,
            cause: word(x.cause),
        })?;
    }
    Ok(List::of(bads))
}

fn pages_of(alloc: Global, line: u64, router: u32, sight: &Sight<'_>) -> Result<Item, NoMemory>
    ensures { IfOk result (λ item. item ≡ sight_item line router (told_by sight.now)) }
{
    Ok(Item::Pages {
        line,
        router: RouterId { number: router },
        expired: sight.expired(),
        unreadable: bads(alloc, sight.unreadable())?,
        used: List::of(Vec::from_slice(alloc, sight.used())?),
    })
}

fn push_pages(
    alloc: Global,
    out: &mut Vec<u8>,
    topology: &Topology,
    line: u64,
    sights: &[Sight<'_>],
) -> Result<(), NoMemory>
    requires { length sights.now ≡ length topology.now.names }
    ensures { OnOk result (AddsItems topology.now.names
        (map (item_at told_by sights.now line) (below (length topology.now.names))) out.old.items out.new.items) }
{
    let routers = topology.routers();
    for router in 0..routers {
        let item = pages_of(alloc, line, router, &sights[router as usize])?;
        push_item(out, topology, &item)?;
    }
    Ok(())
}

fn push_query(
    alloc: Global,
    out: &mut Vec<u8>,
    topology: &Topology,
    line: u64,
    barriers: &[Barrier],
    sights: &[Sight<'_>],
    graph: &Graph,
) -> Result<(), NoMemory>
    requires barriers { length barriers.now ≡ length topology.now.names }
    requires sights { length sights.now ≡ length topology.now.names }
    requires named { IsGraphNamed topology.now.names graph.now }
    ensures { OnOk result (AddsItems topology.now.names
        (query_items told_by (length topology.now.names) barriers.now sights.now line graph.now) out.old.items out.new.items) }
{
    push_item(out, topology, &Item::Query { line })?;
    push_left(out, topology, line, barriers)?;
    push_pages(alloc, out, topology, line, sights)?;
    push_graph(out, topology, line, graph)?;
    Ok(())
}

/// The totals with a graph's numbers.
fn with_graph(totals: &Totals, graph: &Graph) -> Totals
    requires { IsRoomy totals.now }
    ensures exact { result ≡ with_answer totals.now (answer_item 0 graph.now) }
    ensures more { AreMore totals.now result }
{
    Totals {
        nodes: totals.nodes + graph.nodes.items().len() as u128,
        edges: totals.edges + graph.edges.items().len() as u128,
        unknown: totals.unknown + graph.unknown.items().len() as u128,
        clear: totals.clear + graph.clear.items().len() as u128,
    }
}

/// Prints the answer to a query, and adds it up.
pub fn print_query(
    alloc: Global,
    trace: &Trace,
    line: u64,
    barriers: &[Barrier],
    sights: &[Sight<'_>],
    graph: &Graph,
    state: &mut State,
) -> Result<(), NoMemory>
    requires barriers { length barriers.now ≡ length trace.now.topology.names }
    requires sights { length sights.now ≡ length trace.now.topology.names }
    requires named { IsGraphNamed trace.now.topology.names graph.now }
    requires room { IsRoomy state.old.totals }
    ensures { OnOk result (PrintsQuery trace.now
        (query_items told_by (length trace.now.topology.names) barriers.now sights.now line graph.now) graph.now state.old state.new) }
{
    push_query(
        alloc,
        &mut state.report,
        &trace.topology,
        line,
        barriers,
        sights,
        graph,
    )?;
    state.totals = with_graph(&state.totals, graph);
    Ok(())
}
