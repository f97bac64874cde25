// One round, all regions at once.
ghost use Rattle.std.specs.Prelude.{◌≡◌, ◌<◌, ◌++◌, ◌↔◌, ℕ, false, length, slice_index_or, IfOk, IsTrue, OnOk};
ghost use Rattle.std.specs.List.{Contains, flat_map};
ghost use Rattle.reverse_flood.specs.Flood.{net_of};
ghost use Rattle.reverse_flood.specs.Search.{IsFine};
ghost use Rattle.reverse_flood.specs.declared.graphs.Node.{Node};
ghost use Rattle.traceback_manager.specs.declared.beside.Seat.{Seat};
ghost use Rattle.traceback_manager.specs.Beside.{away_of, AreBlank, AreReady, AreUnited, HasAnswered, HaveAnswered};
ghost use Rattle.traceback_manager.specs.Beside.{AreTogether, IsOwn, IsReadySeat, NoneShort};

use regional_agent::{Desk, ask_desk, lie_in, open_desk};
use reverse_flood::{Node, Search, no_names, take_up};
use spie_base::{NoMemory, Sighting};
use std::alloc::Global;
use std::marker::Sync;
use std::thread;
use std::thread::Threads;
use topology::{Topology, topology_is_sound};

/// A region's desk, and whether memory was refused to it in the last round.
#[derive(Drop)]
pub(crate) struct Seat {
    pub(crate) desk: Desk,
    pub(crate) short: bool,
}

/// A seat for each region, in their order.
pub(crate) fn open_seats(alloc: Global, topology: &Topology) -> Result<Vec<Seat>, NoMemory>
    ensures { IfOk result (λ seats. AreBlank topology.now seats.items) }
{
    let mut seats = Vec::new(alloc);
    for region in 0..topology.regions() {
        let desk = open_desk(alloc, region);
        seats.push(Seat { desk, short: false })?;
    }
    Ok(seats)
}

// Asks one region.
fn ask_seat<S: Sighting>(
    alloc: Global,
    topology: &Topology,
    sights: &[S],
    round: &[Node],
    seat: &mut Seat,
)
    requires sights { length sights.now ≡ length topology.now.names }
    requires exist { (n : Node) → Contains round.now n → n.router.number < length topology.now.names }
    requires ready { IsReadySeat seat.old }
    ensures { HasAnswered (net_of S.shown sights.now topology.now) topology.now round.now seat.old seat.new }
{
    let asked = ask_desk(alloc, topology, sights, round, &mut seat.desk);
    seat.short = asked.is_err();
}

// Whether all pairs of a round lie in one region.
fn lie_together(topology: &Topology, round: &[Node]) -> bool
    requires exist { (n : Node) → Contains round.now n → n.router.number < length topology.now.names }
    ensures { IsTrue result ↔ AreTogether topology.now round.now }
{
    match round {
        [first, ..] => lie_in(topology, topology.region(first.router), round),
        [] => true,
    }
}

/// Asks each region for the pairs of a round that lie in it: all at once, each in a thread of its own, where there are
/// pairs of more than one region, and else one after another in this thread. Where a thread can't be started, its region
/// is asked all the same.
pub(crate) fn ask_at_once<R: Threads + Sync, S: Sighting + Sync>(
    rt: &R,
    alloc: Global,
    topology: &Topology,
    sights: &[S],
    round: &[Node],
    seats: &mut [Seat],
)
    requires sights { length sights.now ≡ length topology.now.names }
    requires exist { (n : Node) → Contains round.now n → n.router.number < length topology.now.names }
    requires ready { AreReady seats.old }
    ensures { HaveAnswered (net_of S.shown sights.now topology.now) topology.now round.now seats.old seats.new }
{
    if seats.is_empty() {
        return;
    }
    let threads = if lie_together(topology, round) {
        1
    } else {
        seats.len()
    };
    thread::for_each_mut(
        rt,
        seats,
        threads,
        &|_: usize, seat: &mut Seat|
            requires sights { length sights.now ≡ length topology.now.names }
            requires exist { (n : Node) → Contains round.now n → n.router.number < length topology.now.names }
            requires ready { IsReadySeat seat.old }
            ensures { HasAnswered (net_of S.shown sights.entry.now topology.entry.now) topology.entry.now
                round.entry.now seat.old seat.new }
        { ask_seat(alloc, topology, sights, round, seat) },
    );
}

// Appends the pairs that one region handed out.
fn push_away(round: &mut Vec<Node>, seat: &Seat) -> Result<(), NoMemory>
    ensures { OnOk result (round.new.items ≡ round.old.items ++ away_of seat.now) }
{
    for lead in &seat.desk.leads.away {
        round.push(lead.node)?;
    }
    Ok(())
}

/// The pairs that the regions handed out, in the order of the regions, in the place of the last round.
pub(crate) fn gather(round: &mut Vec<Node>, seats: &[Seat]) -> Result<(), NoMemory>
    ensures round { OnOk result (round.new.items ≡ flat_map away_of seats.now) }
    ensures none_short { OnOk result (NoneShort seats.now) }
{
    round.clear();
    for seat in seats {
        if seat.short {
            return Err(NoMemory);
        }
        push_away(round, seat)?;
    }
    Ok(())
}

/// One search of all regions' own.
pub(crate) fn unite(
    alloc: Global,
    topology: &Topology,
    seats: Vec<Seat>,
) -> Result<Search, NoMemory>
    requires { (r : ℕ) (d : Seat) → r < length seats.items → IsOwn r (slice_index_or seats.items r d) }
    ensures fine { IfOk result IsFine }
    ensures united { IfOk result (AreUnited topology.now seats.items) }
{
    topology_is_sound(topology);
    let mut all = no_names(alloc);
    for seat in seats {
        let desk = seat.desk;
        take_up(alloc, &mut all, topology, desk.region, desk.search)?;
    }
    Ok(all)
}
