// The routers of a replay.
ghost use Rattle.std.specs.Prelude.{◌≡◌, [], length, IsOkAnd};

use data_agent::Agent;
use page_gate::Plane;
use spie_base::NoMemory;
use std::alloc::Global;
use std::marker::Model;

/// The planes of a trace's routers and their agents, by router number: what a replay leaves. Contracts see of each router the
/// shape of its plane, the entries of its agent, in the order in which they were gathered, and how many passes are out.
///
/// Planes and agents stand in two lists, so that several threads can record in the planes while one of them changes the
/// agents.
#[derive(Drop)]
pub struct Yard {
    pub(crate) planes: Vec<Plane>,
    pub(crate) agents: Vec<Agent>,
}

impl Model for Yard {
    ghost use Rattle.std.specs.Prelude.{List};
    ghost use Rattle.trace_history.specs.Workers.{YardView};

    ghost Value = { List YardView };

    ghost use Rattle.trace_replay.specs.Yards.{yard_views, IsYard};

    ghost view = { λ y. yard_views y.planes.items y.agents.items };

    ghost invariant = { λ y. IsYard y.planes.items y.agents.items };
}

impl Yard {
    /// No routers.
    pub fn new(alloc: Global) -> Result<Yard, NoMemory>
        ensures { IsOkAnd result (λ yard. yard ≡ []) }
    {
        Ok(Yard {
            planes: Vec::new(alloc),
            agents: Vec::new(alloc),
        })
    }

    /// How many routers there are, 0 to 64, and 0 for none exactly where nothing was replayed.
    pub fn routers(&self) -> u32
        ensures { result ≡ length self.now }
    {
        self.agents.len() as u32
    }
}
