// A manager and its agents, joined by a link that may lose, repeat and reorder messages.
ghost use Rattle.std.specs.Prelude.{◌≡◌, ◌<◌, ◌++◌, ℕ, [], ◌∷◌, length, slice_get, Some, IfErr, IfOk, OnErr, OnOk};
ghost use Rattle.reverse_flood.specs.Flood.{Net, net_of};
ghost use Rattle.reverse_flood.specs.declared.graphs.Node.{Node};
ghost use Rattle.agent_wire.specs.Accepting.{first_request};
ghost use Rattle.agent_wire.specs.Union.{AreAnswered, IsFloodOf, IsNotYet, IsUnion};
ghost use Rattle.agent_wire.specs.Link.{HasReplied, HasStepped, HasTakenIn, IsBegun, IsLink, Link};
ghost use Rattle.agent_wire.specs.declared.wire.Event.TheVariants.{Deliver, Send};
ghost use Rattle.topology.specs.Layout.{Layout};
ghost use Rattle.regional_agent.specs.Answers.{AreHome};

use crate::agents::reply_to;
use crate::{Manager, NotYet, Taken};
use reverse_flood::{Graph, Node};
use spie_base::{List, NoMemory, Sighting};
use std::alloc::Global;
use std::marker::Model;
use topology::{Topology, topology_is_sound};
use wire_message::{Message, Reply, Request, decode_message};

/// What a link does.
#[derive(Clone, Copy, PartialEq, Eq, Debug)]
pub enum Event {
    /// Puts the request of this number on the link, again if need be.
    Send { number: u64 },
    /// Hands over the sent message of this number, again if need be.
    Deliver { message: u64 },
}

/// What an event came to. Messages are numbered from 0 as they are sent.
#[derive(Clone, Copy, PartialEq, Eq, Debug)]
pub enum WireAnswer {
    /// The request was sent as this message.
    Sent { message: u64 },
    /// A request was delivered, and the reply was sent as this message.
    Answered { message: u64 },
    /// A reply was delivered, and its part is the one for the request of this number.
    Accepted { number: u64 },
    /// A reply was delivered to a request of this number, whose part is accepted. Nothing changed.
    Repeated { number: u64 },
    /// The request or the message doesn't exist: there are so many. Nothing changed.
    NoSuch { have: u64 },
}

/// A manager, and the messages that were sent. Contracts see it as its requests and the bytes of its messages.
#[derive(Drop)]
pub struct WireState {
    manager: Manager,
    sent: Vec<List<u8>>,
}

impl Model for WireState {
    ghost use Rattle.agent_wire.specs.Union.{AreAnswered, IsFloodOf, IsNotYet, IsUnion};
    ghost use Rattle.agent_wire.specs.Link.{Link as TheLink};

    ghost Value = { TheLink };

    ghost view = { λ s. record { made = s.manager; sent = s.sent.items } };
}

impl WireState {
    /// Request 0 alone, and no message.
    pub fn start(alloc: Global, topology: &Topology, start: &Node) -> Result<WireState, NoMemory>
        requires exists { start.now.router.number < length topology.now.names }
        ensures begun { IfOk result (IsBegun topology.now) }
        ensures link { IfOk result (λ state. (net : Net) → IsLink net topology.now start.now state) }
        ensures first { IfOk result (λ state. state ≡ record { made = first_request topology.now start.now ∷ []; sent = [] }) }
    {
        let manager = Manager::start(alloc, topology, start)?;
        Ok(WireState {
            manager,
            sent: Vec::new(alloc),
        })
    }

    /// How many requests there are.
    pub fn requests(&self) -> u64
        ensures { result ≡ length self.now.made }
    {
        self.manager.requests()
    }

    /// How many messages were sent.
    pub fn messages(&self) -> u64
        ensures { result ≡ length self.now.sent }
    {
        self.sent.len() as u64
    }

    /// A message that was sent.
    pub fn message(&self, at: u64) -> &[u8]
        requires exists { at < length self.now.sent }
        ensures { slice_get self.now.sent at ≡ Some result.now }
    {
        self.sent[at as usize].items()
    }

    /// The graph, once a part was accepted for each request: that of the flood.
    pub fn graph(&self, alloc: Global) -> Result<Graph, NotYet>
        ensures answered { IfOk result (λ _. AreAnswered self.now.made) }
        ensures union { IfOk result (IsUnion self.now.made) }
        ensures flood { IfOk result (λ graph. IsFloodOf self.now.made graph) }
        ensures pending { IfErr result (IsNotYet self.now.made) }
    {
        self.manager.graph(alloc)
    }

    // Puts a message on the link. Its number.
    fn put(&mut self, bytes: Vec<u8>) -> Result<u64, NoMemory>
        ensures number { IfOk result (λ message. message ≡ length self.old.sent) }
        ensures made { self.new.made ≡ self.old.made }
        ensures sent { OnOk result (self.new.sent ≡ self.old.sent ++ bytes.items ∷ []) }
        ensures same { OnErr result (self.new ≡ self.old) }
    {
        let message = self.sent.len() as u64;
        self.sent.push(List::of(bytes))?;
        Ok(message)
    }

    // Sends a request.
    fn send(&mut self, alloc: Global, number: u64) -> Result<WireAnswer, NoMemory>
        ensures stepped { IfOk result (λ answer. (net : Net) (layout : Layout) → HasStepped net layout (Send number)
            self.old self.new answer) }
        ensures same { OnErr result (self.new ≡ self.old) }
    {
        let have = self.manager.requests();
        if number >= have {
            return Ok(WireAnswer::NoSuch { have });
        }
        let bytes = self.manager.message(alloc, number)?;
        let message = self.put(bytes)?;
        Ok(WireAnswer::Sent { message })
    }

    // Hands a reply to the manager.
    fn take(
        &mut self,
        alloc: Global,
        topology: &Topology,
        reply: Reply,
    ) -> Result<WireAnswer, NoMemory>
        requires exists { reply.number < length self.old.made }
        ensures taken { IfOk result (HasTakenIn topology.now reply self.old self.new) }
        ensures same { OnErr result (self.new ≡ self.old) }
    {
        let number = reply.number;
        match self.manager.take(alloc, topology, reply)? {
            Taken::Accepted => Ok(WireAnswer::Accepted { number }),
            // a reply on the link is to a request that exists
            Taken::Repeated | Taken::NoSuch { .. } => Ok(WireAnswer::Repeated { number }),
        }
    }

    // Hands a request to its region's agent, and sends the reply.
    fn reply<S: Sighting>(
        &mut self,
        alloc: Global,
        topology: &Topology,
        sights: &[S],
        request: &Request,
    ) -> Result<WireAnswer, NoMemory>
        requires sights { length sights.now ≡ length topology.now.names }
        requires home { AreHome topology.now request.now.region request.now.entries }
        ensures replied { IfOk result (HasReplied (net_of S.shown sights.now topology.now) topology.now request.now
            self.old self.new) }
        ensures same { OnErr result (self.new ≡ self.old) }
    {
        let bytes = reply_to(alloc, topology, sights, request)?;
        let message = self.put(bytes)?;
        Ok(WireAnswer::Answered { message })
    }

    // Hands over a message.
    fn deliver<S: Sighting>(
        &mut self,
        alloc: Global,
        topology: &Topology,
        sights: &[S],
        at: u64,
    ) -> Result<WireAnswer, NoMemory>
        requires sights { length sights.now ≡ length topology.now.names }
        requires begun { IsBegun topology.now self.old }
        ensures stepped { IfOk result (HasStepped (net_of S.shown sights.now topology.now) topology.now (Deliver at)
            self.old self.new) }
        ensures same { OnErr result (self.new ≡ self.old) }
    {
        let have = self.messages();
        if at >= have {
            return Ok(WireAnswer::NoSuch { have });
        }
        // what was sent is a message, so that only want of memory stops its reader
        let Ok(message) = decode_message(alloc, self.message(at)) else {
            return Err(NoMemory);
        };
        match message {
            Message::Ask(request) => self.reply(alloc, topology, sights, &request),
            Message::Answer(reply) => self.take(alloc, topology, reply),
        }
    }
}

// What an event answers, and does.
fn step_once<S: Sighting>(
    alloc: Global,
    topology: &Topology,
    sights: &[S],
    state: &mut WireState,
    event: &Event,
) -> Result<WireAnswer, NoMemory>
    requires sights { length sights.now ≡ length topology.now.names }
    requires begun { IsBegun topology.now state.old }
    ensures stepped { IfOk result (HasStepped (net_of S.shown sights.now topology.now) topology.now event.now
        state.old state.new) }
    ensures same { OnErr result (state.new ≡ state.old) }
{
    match event {
        Event::Send { number } => state.send(alloc, *number),
        Event::Deliver { message } => state.deliver(alloc, topology, sights, *message),
    }
}

/// What an event answers, and does: a request is sent, or a message handed over. A message that is never delivered was
/// lost, one that is delivered twice was repeated. The state was begun with this topology, and there is one sight of
/// each router, in the order of the routers. Where memory is refused nothing changes. Costs the message, and where a
/// request is delivered the flood in its region.
pub fn wire_step<S: Sighting>(
    alloc: Global,
    topology: &Topology,
    sights: &[S],
    state: &mut WireState,
    event: &Event,
) -> Result<WireAnswer, NoMemory>
    requires sights { length sights.now ≡ length topology.now.names }
    requires begun { IsBegun topology.now state.old }
    ensures stepped { IfOk result (HasStepped (net_of S.shown sights.now topology.now) topology.now event.now
        state.old state.new) }
    ensures same { OnErr result (state.new ≡ state.old) }
    ensures begun { OnOk result (IsBegun topology.now state.new) }
    ensures kept { OnOk result ((start : Node) → IsLink (net_of S.shown sights.now topology.now) topology.now start
        state.old → IsLink (net_of S.shown sights.now topology.now) topology.now start state.new) }
{
    topology_is_sound(topology);
    let answer = step_once(alloc, topology, sights, state, event)?;
    Ok(answer)
}
