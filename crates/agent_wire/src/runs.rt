// Runs over a link whose events are drawn from a seed.
ghost use Rattle.std.specs.Prelude.{◌≡◌, ◌<◌, ◌≤◌, ◌+◌, ◌^◌, length, IfOk, OnOk};
ghost use Rattle.hash_family.specs.SplitMix.{grown, mixed};
ghost use Rattle.reverse_flood.specs.Flood.{net_of, IsFlood};
ghost use Rattle.agent_wire.specs.Link.{IsBegun};
ghost use Rattle.agent_wire.specs.Schedule.{event_of, repeats, AreTurns, HasFinished, HasRun, IsCounted, IsRound, Keeps};
ghost use Rattle.agent_wire.specs.Union.{first_open};
ghost use Rattle.agent_wire.specs.declared.runs.TheConstants.{TURNS_MOST};

use crate::{Event, NotYet, WireAnswer, WireState, wire_step};
use rand_core::SeedableRng;
use rand_core::utils::NextWord;
use rand_xoshiro::SplitMix64;
use reverse_flood::{Graph, Node};
use spie_base::{NoMemory, Sighting};
use std::alloc::Global;
use topology::Topology;

/// The most turns of a run.
pub const TURNS_MOST: u32 = 1000;

// More rounds than memory has room for.
const ROUNDS_MOST: u64 = 0x4000_0000_0000_0000;

/// What a run over a link came to.
#[derive(PartialEq, Eq, Debug, Drop)]
pub struct WireRun {
    /// The flood's graph.
    pub graph: Graph,
    /// How many requests there were.
    pub requests: u64,
    /// How many messages were sent.
    pub messages: u64,
    /// How many answers were `Repeated`.
    pub repeated: u64,
}

// The generator's next word.
fn next_word(generator: &mut SplitMix64) -> u64
    ensures word { result ≡ mixed (grown generator.old) }
    ensures after { generator.new ≡ grown generator.old }
{
    generator.next_word()
}

fn repeats(answer: &WireAnswer) -> u64
    ensures count { result ≡ repeats answer.now }
    ensures few { result ≤ 1 }
{
    match answer {
        WireAnswer::Repeated { .. } => 1,
        _ => 0,
    }
}

// An event, and how many answers were `Repeated` with it.
fn count<S: Sighting>(
    alloc: Global,
    topology: &Topology,
    sights: &[S],
    state: &mut WireState,
    event: &Event,
    repeated: u64,
) -> Result<u64, NoMemory>
    requires sights { length sights.now ≡ length topology.now.names }
    requires begun { IsBegun topology.now state.old }
    requires few { repeated + 1 < 2 ^ 64 }
    ensures counted { IfOk result (IsCounted (net_of S.shown sights.now topology.now) topology.now event.now
        state.old repeated state.new) }
    ensures kept { OnOk result (Keeps (net_of S.shown sights.now topology.now) topology.now state.old state.new) }
    ensures few { IfOk result (λ counted. counted ≤ repeated + 1) }
{
    let answer = wire_step(alloc, topology, sights, state, event)?;
    Ok(repeated + repeats(&answer))
}

// The event of a word.
fn event_of(state: &WireState, word: u64) -> Event
    requires { 0 < length state.now.made }
    ensures { result ≡ event_of word state.now }
{
    let pick = word / 4;
    let sent = state.messages();
    if word % 4 == 0 || sent == 0 {
        return Event::Send {
            number: pick % state.requests(),
        };
    }
    Event::Deliver {
        message: pick % sent,
    }
}

// So many events that are drawn. How many answers were `Repeated`.
fn take_turns<S: Sighting>(
    alloc: Global,
    topology: &Topology,
    sights: &[S],
    state: &mut WireState,
    seed: u64,
    turns: u32,
) -> Result<u64, NoMemory>
    requires sights { length sights.now ≡ length topology.now.names }
    requires begun { IsBegun topology.now state.old }
    requires some { 0 < length state.old.made }
    ensures turned { IfOk result (AreTurns (net_of S.shown sights.now topology.now) topology.now seed turns state.old
        state.new) }
    ensures kept { OnOk result (Keeps (net_of S.shown sights.now topology.now) topology.now state.old state.new) }
    ensures few { IfOk result (λ counted. counted ≤ turns) }
{
    let mut generator = SplitMix64::seed_from_u64(seed);
    let mut repeated = 0;
    for _turn in 0..turns {
        let word = next_word(&mut generator);
        let event = event_of(state, word);
        repeated = count(alloc, topology, sights, state, &event, repeated)?;
    }
    Ok(repeated)
}

// Sends the least request without a part, and delivers its message and the reply.
fn ask_again<S: Sighting>(
    alloc: Global,
    topology: &Topology,
    sights: &[S],
    state: &mut WireState,
    number: u64,
    repeated: u64,
) -> Result<u64, NoMemory>
    requires sights { length sights.now ≡ length topology.now.names }
    requires begun { IsBegun topology.now state.old }
    requires number { number ≡ first_open state.old.made }
    requires pending { number < length state.old.made }
    requires few { repeated + 3 < 2 ^ 64 }
    ensures round { IfOk result (IsRound (net_of S.shown sights.now topology.now) topology.now state.old repeated
        state.new) }
    ensures kept { OnOk result (Keeps (net_of S.shown sights.now topology.now) topology.now state.old state.new) }
    ensures few { IfOk result (λ counted. counted ≤ repeated + 3) }
{
    let message = state.messages();
    let send = Event::Send { number };
    let ask = Event::Deliver { message };
    let Some(reply) = message.checked_add(1) else {
        return Err(NoMemory);
    };
    let answer = Event::Deliver { message: reply };
    let sent = count(alloc, topology, sights, state, &send, repeated)?;
    let answered = count(alloc, topology, sights, state, &ask, sent)?;
    let counted = count(alloc, topology, sights, state, &answer, answered)?;
    Ok(counted)
}

// Asks again until each request has its part. The graph, and how many answers were `Repeated`.
fn finish<S: Sighting>(
    alloc: Global,
    topology: &Topology,
    sights: &[S],
    state: &mut WireState,
    repeated: u64,
) -> Result<(Graph, u64), NoMemory>
    requires sights { length sights.now ≡ length topology.now.names }
    requires begun { IsBegun topology.now state.old }
    requires few { repeated < 2 ^ 32 }
    ensures finished { IfOk result (λ told. HasFinished (net_of S.shown sights.now topology.now) topology.now state.old
        repeated state.new told.1 told.0) }
    ensures kept { OnOk result (Keeps (net_of S.shown sights.now topology.now) topology.now state.old state.new) }
{
    let mut counted = repeated;
    for _round in 0..ROUNDS_MOST {
        match state.graph(alloc) {
            Ok(graph) => return Ok((graph, counted)),
            Err(NotYet::NoMemory) => return Err(NoMemory),
            Err(NotYet::Pending { number }) => {
                counted = ask_again(alloc, topology, sights, state, number, counted)?;
            }
        }
    }
    Err(NoMemory)
}

/// A run over a link whose first events are drawn from a seed, with what is still to be done behind them. Each turn takes
/// a word of SplitMix64, which starts at the seed: where it is a multiple of 4 or nothing was sent yet, a quarter of it,
/// modulo the number of requests, is the request that is sent, else, modulo the number of messages, the message that is
/// delivered. After the turns, as long as a request has no part, the least one is sent, and its message and the reply are
/// delivered. The graph is always that of the flood. There is one sight of each router, in the order of the routers.
pub fn wire_run<S: Sighting>(
    alloc: Global,
    topology: &Topology,
    sights: &[S],
    start: &Node,
    seed: u64,
    turns: u32,
) -> Result<WireRun, NoMemory>
    requires sights { length sights.now ≡ length topology.now.names }
    requires exists { start.now.router.number < length topology.now.names }
    requires few { turns ≤ TURNS_MOST }
    ensures run { IfOk result (HasRun (net_of S.shown sights.now topology.now) topology.now start.now seed turns) }
    ensures flood { IfOk result (λ run. IsFlood (net_of S.shown sights.now topology.now) start.now run.graph) }
{
    let mut state = WireState::start(alloc, topology, start)?;
    let drawn = take_turns(alloc, topology, sights, &mut state, seed, turns)?;
    let (graph, repeated) = finish(alloc, topology, sights, &mut state, drawn)?;
    Ok(WireRun {
        graph,
        requests: state.requests(),
        messages: state.messages(),
        repeated,
    })
}
