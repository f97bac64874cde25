// An agent's half: it answers requests for its region.
ghost use Rattle.std.specs.Prelude.{◌≡◌, ◌↔◌, length, IfErr, IfOk, IsTrue};
ghost use Rattle.reverse_flood.specs.Flood.{net_of};
ghost use Rattle.regional_agent.specs.Answers.{AreHome};
ghost use Rattle.wire_message.specs.Spelling.{IsPlainPart};
ghost use Rattle.agent_wire.specs.Messages.{HasAnswered, IsOwn, IsReply, IsWhyNot};

use crate::plain::{edges_are_plain, nodes_are_plain, number_is_plain};
use regional_agent::{flood_region, lie_in};
use reverse_flood::Part;
use spie_base::{NoMemory, Sighting};
use std::alloc::Global;
use topology::Topology;
use wire_message::{Message, MessageRefused, Reply, Request, decode_message, encode_message};

/// Why an agent gave no reply.
#[derive(Clone, Copy, PartialEq, Eq, Debug)]
pub enum NoAnswer {
    NoMemory,
    /// The bytes are no message: the place of the first fault.
    Refused { place: usize },
    /// The message is no request.
    NoRequest,
    /// The request is for another region, or has an entry that lies elsewhere.
    Elsewhere,
}

/// The agent of a region.
#[derive(Clone, Copy, PartialEq, Eq, Debug)]
pub struct Agent {
    /// The region's number.
    pub region: u32,
}

// The lists of a part are plain. Does nothing.
fn part_is_plain(part: &Part)
    ensures { IsPlainPart part.now }
{
    nodes_are_plain(part.nodes.items());
    edges_are_plain(part.edges.items());
    nodes_are_plain(part.unknown.items());
    nodes_are_plain(part.clear.items());
    edges_are_plain(part.exits.items());
}

/// The reply to a request, as bytes: the region's part of it.
pub(crate) fn reply_to<S: Sighting>(
    alloc: Global,
    topology: &Topology,
    sights: &[S],
    request: &Request,
) -> Result<Vec<u8>, NoMemory>
    requires sights { length sights.now ≡ length topology.now.names }
    requires home { AreHome topology.now request.now.region request.now.entries }
    ensures { IfOk result (λ bytes. IsReply (net_of S.shown sights.now topology.now) topology.now request.now bytes.items) }
{
    let number = request.number;
    number_is_plain(number);
    let part = flood_region(
        alloc,
        topology,
        sights,
        request.region,
        request.entries.items(),
    )?;
    part_is_plain(&part);
    let message = Message::Answer(Reply { number, part });
    let bytes = encode_message(alloc, &message)?;
    Ok(bytes)
}

impl Agent {
    // Whether a request is for this region, and its entries lie there.
    fn is_own(&self, topology: &Topology, request: &Request) -> bool
        ensures { IsTrue result ↔ IsOwn topology.now self.now.region request.now }
    {
        request.region == self.region && lie_in(topology, self.region, request.entries.items())
    }

    /// The reply to a request's bytes: the region's part of it. The agent keeps nothing, so it answers a request again if
    /// it gets it again, and loses nothing when it starts anew. There is one sight of each router, in the order of the
    /// routers. Costs the bytes and the flood in the region.
    pub fn answer<S: Sighting>(
        &self,
        alloc: Global,
        topology: &Topology,
        sights: &[S],
        bytes: &[u8],
    ) -> Result<Vec<u8>, NoAnswer>
        requires sights { length sights.now ≡ length topology.now.names }
        ensures answered { IfOk result (λ reply. HasAnswered (net_of S.shown sights.now topology.now) topology.now
            self.now.region bytes.now reply.items) }
        ensures refused { IfErr result (IsWhyNot topology.now self.now.region bytes.now) }
    {
        let message = match decode_message(alloc, bytes) {
            Ok(message) => message,
            Err(MessageRefused::NoMemory) => return Err(NoAnswer::NoMemory),
            Err(MessageRefused::Refused { place }) => return Err(NoAnswer::Refused { place }),
        };
        let Message::Ask(request) = message else {
            return Err(NoAnswer::NoRequest);
        };
        if !self.is_own(topology, &request) {
            return Err(NoAnswer::Elsewhere);
        }
        match reply_to(alloc, topology, sights, &request) {
            Ok(reply) => Ok(reply),
            Err(_refused) => Err(NoAnswer::NoMemory),
        }
    }
}
