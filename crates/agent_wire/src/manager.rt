// The manager's half: it makes requests, and accepts one part for each.
ghost use Rattle.std.specs.Prelude.{◌≡◌, ◌<◌, ◌++◌, [], ◌∷◌, length, set, IfErr, IfOk, OnOk, OnErr};
ghost use Rattle.std.specs.List.{Contains};
ghost use Rattle.agent_wire.specs.Accepting.{first_request, with_part, HasAccepted, HasTaken};
ghost use Rattle.agent_wire.specs.Messages.{IsRequest};
ghost use Rattle.agent_wire.specs.Union.{AreAnswered, IsFloodOf, IsNotYet, IsUnion};
ghost use Rattle.agent_wire.specs.Sets.{AreOutside, HasMore, HasSame, IsOpen};

use crate::Asked;
use crate::following::{new_pairs, requests_for};
use crate::graphs::{first_open, union};
use crate::known::learn;
use crate::plain::{nodes_are_plain, region_is_plain};
use reverse_flood::{Graph, Node, Part};
use spie_base::{List, NoMemory};
use std::alloc::Global;
use std::collections::BTreeSet;
use std::marker::Model;
use topology::{Topology, topology_is_sound};
use wire_message::{Message, Reply, Request, encode_message};

/// Why there is no graph yet.
#[derive(Clone, Copy, PartialEq, Eq, Debug)]
pub enum NotYet {
    /// No part was accepted for the request of this number. It is the least such number.
    Pending { number: u64 },
    NoMemory,
}

/// What became of a reply.
#[derive(Clone, Copy, PartialEq, Eq, Debug)]
pub enum Taken {
    /// Its part was accepted.
    Accepted,
    /// A part was accepted for its request before. Nothing changed.
    Repeated,
    /// There is no request of its number, but so many. Nothing changed.
    NoSuch { have: u64 },
}

/// The requests of a traceback, and the parts that were accepted for them. Contracts see it as the list of its requests.
#[derive(Drop)]
pub struct Manager {
    made: Vec<Asked>,
    // the entries of all requests
    known: BTreeSet<Node>,
    // the first request without a part, or how many there are
    pending: usize,
}

impl Model for Manager {
    ghost use Rattle.std.specs.Prelude.{List as Items};
    ghost use Rattle.agent_wire.specs.declared.requests.Asked.{Asked as TheAsked};
    ghost use Rattle.agent_wire.specs.Sets.{IsManaged as Manages};

    ghost Value = { Items TheAsked };

    ghost view = { λ m. m.made.items };

    ghost invariant = { λ m. Manages m.made.items m.known m.pending };
}

// Puts requests behind others, and their entries to what is known.
fn add_requests(
    made: &mut Vec<Asked>,
    known: &mut BTreeSet<Node>,
    more: &mut Vec<Asked>,
    pairs: &[Node],
) -> Result<(), NoMemory>
    requires outside { AreOutside known.old pairs.now }
    ensures made { OnOk result (made.new.items ≡ made.old.items ++ more.old.items) }
    ensures known { OnOk result (HasMore known.old known.new pairs.now) }
    ensures same { OnErr result (made.new.items ≡ made.old.items) }
    ensures forgot { OnErr result (HasSame known.old known.new) }
{
    let before = made.len();
    made.append(more)?;
    match learn(known, pairs) {
        Ok(()) => Ok(()),
        Err(refused) => {
            made.truncate(before);
            Err(refused)
        }
    }
}

impl Manager {
    /// Request 0 alone: to the region of the start, with the start as its entry.
    pub fn start(alloc: Global, topology: &Topology, start: &Node) -> Result<Manager, NoMemory>
        requires exists { start.now.router.number < length topology.now.names }
        ensures first { IfOk result (λ manager. manager ≡ first_request topology.now start.now ∷ []) }
    {
        let mut entries = Vec::new(alloc);
        entries.push(*start)?;
        let region = topology.region(start.router);
        let entries = List::of(entries);
        let mut made = Vec::new(alloc);
        made.push(Asked {
            region,
            entries,
            part: None,
        })?;
        let mut known = BTreeSet::new(alloc);
        known.insert(*start)?;
        Ok(Manager {
            made,
            known,
            pending: 0,
        })
    }

    /// How many requests there are.
    pub fn requests(&self) -> u64
        ensures { result ≡ length self.now }
    {
        self.made.len() as u64
    }

    // Accepts a part.
    fn accept(
        &mut self,
        alloc: Global,
        topology: &Topology,
        number: usize,
        part: Part,
    ) -> Result<(), NoMemory>
        requires stood { IsOpen self.old number }
        ensures accepted { OnOk result (HasAccepted topology.now number part self.old self.new) }
        ensures same { OnErr result (self.new ≡ self.old) }
    {
        topology_is_sound(topology);
        let pairs = new_pairs(alloc, topology, &self.known, &part)?;
        let mut more = requests_for(alloc, topology, pairs.items())?;
        add_requests(&mut self.made, &mut self.known, &mut more, pairs.items())?;
        self.made[number].part = Some(part);
        self.pending = first_open(&self.made, self.pending);
        Ok(())
    }

    /// Takes a reply: its part is accepted where it has the number of a request without one, and the pairs to which the
    /// part leads and that no request had are asked by further requests. Where memory is refused nothing changes. Costs
    /// the part's exits, and a look at each new pair for each region.
    pub fn take(
        &mut self,
        alloc: Global,
        topology: &Topology,
        reply: Reply,
    ) -> Result<Taken, NoMemory>
        ensures taken { IfOk result (HasTaken topology.now reply self.old self.new) }
        ensures same { OnErr result (self.new ≡ self.old) }
    {
        let number = reply.number as usize;
        let Some(asked) = self.made.get(number) else {
            return Ok(Taken::NoSuch {
                have: self.made.len() as u64,
            });
        };
        if asked.part.is_some() {
            return Ok(Taken::Repeated);
        }
        self.accept(alloc, topology, number, reply.part)?;
        Ok(Taken::Accepted)
    }
    /// The message of a request, as bytes. Each call gives the same. Costs its entries.
    pub fn message(&self, alloc: Global, number: u64) -> Result<Vec<u8>, NoMemory>
        requires exists { number < length self.now }
        ensures { IfOk result (λ bytes. IsRequest self.now number bytes.items) }
    {
        let asked = &self.made[number as usize];
        let entries = asked.entries.items();
        nodes_are_plain(entries);
        region_is_plain(asked.region);
        let message = Message::Ask(Request {
            number,
            region: asked.region,
            entries: List::of(Vec::from_slice(alloc, entries)?),
        });
        let bytes = encode_message(alloc, &message)?;
        Ok(bytes)
    }

    /// The graph, once a part was accepted for each request: the union of the parts, with an exit as an edge where it
    /// leads to a node. Where the requests are those from a start and each part is its region's, that is the flood from
    /// the start. Costs a sort of what the parts tell.
    pub fn graph(&self, alloc: Global) -> Result<Graph, NotYet>
        ensures answered { IfOk result (λ _. AreAnswered self.now) }
        ensures union { IfOk result (IsUnion self.now) }
        ensures flood { IfOk result (λ graph. IsFloodOf self.now graph) }
        ensures pending { IfErr result (IsNotYet self.now) }
    {
        let number = self.pending;
        if number < self.made.len() {
            return Err(NotYet::Pending {
                number: number as u64,
            });
        }
        match union(alloc, &self.made) {
            Ok(graph) => Ok(graph),
            Err(_refused) => Err(NotYet::NoMemory),
        }
    }
}
