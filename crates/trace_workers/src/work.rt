// One worker's share of a segment.
ghost use Rattle.std.specs.Prelude.{◌≡◌, ◌<◌, ◌≤◌, ◌++◌, ◌∷◌, [], true, ℕ, List, All, length, slice_index_or, vec_capacity};
ghost use Rattle.trace_format.specs.Sound.{IsWithin, is_recording};
ghost use Rattle.trace_history.specs.Routers.{count};
ghost use Rattle.trace_workers.specs.Jobs.{IsReady, HasWorked, HaveGrown, entries_at, entry_at, floors_of, planes_tables, tables_of};
ghost use Rattle.trace_workers.specs.Records.{IsRecordAt, entries_by, hop_of, line_at, lines_at, receipts_by, sig_at};

use crate::jobs::Job;
use crate::turnstile::Turnstile;
use page_gate::{Pass, Plane};
use spie_base::{PageNo, RouterId, Sig};
use std::sync::Wait;
use std::thread::Threads;
use trace_format::{Line, Trace, What};

// Where a record line records, and the packet.
#[derive(Clone, Copy)]
struct Target {
    router: RouterId,
    packet: u32,
}

fn target_of(what: &What) -> Target
    requires { is_recording what.now ≡ true }
    ensures router { (sigs : List Sig) → result.router.number ≡ (hop_of sigs what.now).router }
    ensures sig { (sigs : List Sig) → sig_at sigs result.packet ≡ (hop_of sigs what.now).sig }
    ensures named { (routers packets : ℕ) → IsWithin routers packets what.now
        → (result.router.number < routers) × (result.packet < packets) }
{
    match *what {
        What::Fwd { router, packet } => Target { router, packet },
        What::Xf { router, new, .. } => Target {
            router,
            packet: new,
        },
        _ => unreachable!(),
    }
}

// A record line: its number, the router, and the signature.
#[derive(Clone, Copy)]
struct Record {
    number: u64,
    router: RouterId,
    sig: Sig,
}

fn record_of(trace: &Trace, line: &Line) -> Record
    requires recording { is_recording line.now.what ≡ true }
    requires named { IsWithin (count trace.now) (length trace.now.sigs) line.now.what }
    ensures router { result.router.number ≡ (hop_of trace.now.sigs line.now.what).router }
    ensures sig { result.sig ≡ (hop_of trace.now.sigs line.now.what).sig }
    ensures within { result.router.number < count trace.now }
{
    let target = target_of(&line.what);
    Record {
        number: line.number,
        router: target.router,
        sig: trace.sigs.items()[target.packet as usize],
    }
}

fn record_at<R: Threads + Wait + Sync>(
    rt: &R,
    planes: &[Plane],
    router: RouterId,
    sig: &Sig,
    passes: &mut [Pass],
) -> PageNo
    requires fits { tables_of passes.old ≡ planes_tables planes.now }
    requires router { router.number < length planes.now }
    ensures tables { tables_of passes.new ≡ tables_of passes.old }
    ensures floors { floors_of passes.new ≡ floors_of passes.old }
    ensures recorded { (d : Pass) → 0 < length (slice_index_or passes.new router.number d).entries }
    ensures entries { (r : ℕ) → entries_at passes.new r
        ≡ entries_at passes.old r ++ entry_at r router.number result sig.now }
{
    let at = router.number as usize;
    planes[at].record(rt, &mut passes[at], sig)
}

// The line at a place.
fn record_line<R: Threads + Wait + Sync, T: Turnstile>(
    rt: &R,
    trace: &Trace,
    planes: &[Plane],
    turnstile: &T,
    place: u32,
    passes: &mut [Pass],
) -> PageNo
    requires fits { tables_of passes.old ≡ planes_tables planes.now }
    requires routers { length planes.now ≡ count trace.now }
    requires place { IsRecordAt trace.now place }
    ensures tables { tables_of passes.new ≡ tables_of passes.old }
    ensures floors { floors_of passes.new ≡ floors_of passes.old }
    ensures entries { (r : ℕ) → entries_at passes.new r ≡ entries_at passes.old r
        ++ entries_by r (receipts_by trace.now.sigs (line_at trace.now.lines place ∷ []) (result ∷ [])) }
{
    let line = record_of(trace, &trace.lines.items()[place as usize]);
    turnstile.before(rt, line.number);
    let page = record_at(rt, planes, line.router, &line.sig, passes);
    turnstile.after(rt, line.number, Some(&passes[line.router.number as usize]));
    page
}

fn record_lines<R: Threads + Wait + Sync, T: Turnstile>(
    rt: &R,
    trace: &Trace,
    planes: &[Plane],
    turnstile: &T,
    places: &[u32],
    passes: &mut [Pass],
    pages: &mut Vec<PageNo>,
)
    requires fits { tables_of passes.old ≡ planes_tables planes.now }
    requires routers { length planes.now ≡ count trace.now }
    requires places { All (IsRecordAt trace.now) places.now }
    requires none { pages.old.items ≡ [] }
    requires room { length places.now ≤ vec_capacity pages.old }
    ensures { HaveGrown trace.now planes.now places.now passes.old passes.new pages.new.items }
{
    for i in 0..places.len() {
        let page = record_line(rt, trace, planes, turnstile, places[i], passes);
        pages.push_reserved(page);
    }
}

/// Records a worker's lines in order, each by the worker's pass of its router. Takes no memory. Costs what
/// `Plane::record` does for each line, and no lock but there.
pub fn record_share<R: Threads + Wait + Sync, T: Turnstile>(
    rt: &R,
    trace: &Trace,
    planes: &[Plane],
    turnstile: &T,
    job: &mut Job,
)
    requires { IsReady trace.now planes.now job.old }
    ensures { HasWorked trace.now planes.now job.old job.new }
{
    record_lines(
        rt,
        trace,
        planes,
        turnstile,
        &job.places,
        &mut job.passes,
        &mut job.pages,
    );
}
