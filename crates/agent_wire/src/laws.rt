// Laws of requests and their parts. The functions do nothing: their contracts are the laws.
ghost use Rattle.agent_wire.specs.Histories.{AnyHistoryIsTrusted};
ghost use Rattle.agent_wire.specs.Laws.{AcceptingIsSound, FirstIsSound, UnionIsFlood};

/// Where a part was accepted for each request, the union of the parts is the flood from the start.
pub fn union_is_flood()
    ensures { UnionIsFlood }
{}

/// Request 0 is what the requests from a start may be.
pub fn first_is_sound()
    ensures { FirstIsSound }
{}

/// Where the region's part of its request is accepted, the requests are again what they may be.
pub fn accepting_is_sound()
    ensures { AcceptingIsSound }
{}

/// Whatever the link does, over any list of events: each accepted part is the part of its request, each sent message is
/// that of a request or a reply to one, and once each request has its part the union of the parts is the flood.
pub fn any_history_is_trusted()
    ensures { AnyHistoryIsTrusted }
{}
