// An agent while passes are out: pages are opened beside records, an archival comes, and the passes are gathered.
ghost use Rattle.std.specs.Prelude.{◌≡◌, ◌<◌, IfOk, OnOk, vec_len};
ghost use Rattle.router_account.specs.Ledger.{first_ledger};
ghost use Rattle.data_agent.specs.Planes.{IsOwnPlane};
ghost use Rattle.agent_tests.specs.TwoPasses.{AreOf, IsArchived, IsAt, after_four, after_one};

use data_agent::{Agent, Barrier, Closed};
use page_gate::{Pass, Plane};
use page_shelf::MemShelf;
use router_account::Watch;
use spie_base::{NoMemory, PageNo, RouterId, Rules, Sig};
use std::alloc::Global;
use std::rt::HostRuntime;
use std::sync::Wait;
use std::test::Fail;

const RULES: Rules = Rules {
    k: 3,
    n: 8,
    limit: 6,
    span: 1_000,
    keep: 32,
    age: 1_000,
    width: 100,
    base: 1,
};

const ROUTER: RouterId = RouterId { number: 2 };

const FIRST: Sig = Sig { bytes: [7; 28] };

const SECOND: Sig = Sig { bytes: [9; 28] };

const NEITHER: Sig = Sig { bytes: [11; 28] };

const fn page(number: u32) -> PageNo {
    PageNo { number }
}

// The agent of router 2 beside two passes.
fn two_dealt(alloc: Global) -> Result<(Plane, Agent, Vec<Pass>), NoMemory>
    ensures own { IfOk result (λ r. IsOwnPlane r.0 r.1) }
    ensures at { IfOk result (λ r. IsAt r.1 (first_ledger 2)) }
    ensures two { IfOk result (λ r. vec_len r.2 ≡ 2) }
    ensures of { IfOk result (λ r. AreOf r.0 r.2.items) }
{
    let (plane, mut agent) = Agent::open(alloc, ROUTER, &RULES)?;
    let passes = agent.deal(alloc, &plane, 2)?;
    Ok((plane, agent, passes))
}

// One of the two passes records.
fn record<R: Wait>(
    rt: &R,
    plane: &Plane,
    passes: &mut Vec<Pass>,
    number: usize,
    sig: &Sig,
) -> PageNo
    requires two { (vec_len passes.old ≡ 2) × (number < 2) }
    requires of { AreOf plane.now passes.old.items }
    ensures two { vec_len passes.new ≡ 2 }
    ensures of { AreOf plane.now passes.new.items }
{
    plane.record(rt, &mut passes[number], sig)
}

// The first rotation.
fn turned<R: Wait>(
    rt: &R,
    alloc: Global,
    plane: &Plane,
    agent: &mut Agent,
) -> Result<PageNo, NoMemory>
    requires own { IsOwnPlane plane.now agent.old }
    requires at { IsAt agent.old (first_ledger 2) }
    ensures own { IsOwnPlane plane.now agent.new }
    ensures at { OnOk result (IsAt agent.new after_one) }
{
    agent.rotate(rt, alloc, plane, 5)
}

// The other three. At the last of them no slot is free.
fn turned_thrice<R: Wait>(
    rt: &R,
    alloc: Global,
    plane: &Plane,
    agent: &mut Agent,
) -> Result<PageNo, NoMemory>
    requires own { IsOwnPlane plane.now agent.old }
    requires at { IsAt agent.old after_one }
    ensures own { IsOwnPlane plane.now agent.new }
    ensures at { OnOk result (IsAt agent.new after_four) }
{
    agent.rotate(rt, alloc, plane, 5)?;
    agent.rotate(rt, alloc, plane, 6)?;
    agent.rotate(rt, alloc, plane, 7)
}

fn note_archival(
    alloc: Global,
    plane: &Plane,
    agent: &mut Agent,
    shelf: &mut MemShelf,
) -> Result<(), NoMemory>
    requires own { IsOwnPlane plane.now agent.old }
    requires at { IsAt agent.old after_four }
    ensures own { IsOwnPlane plane.now agent.new }
    ensures archived { OnOk result (IsArchived agent.new) }
{
    agent.archive(alloc, plane, shelf)
}

fn watched(plane: &Plane, agent: &mut Agent, sig: &Sig) -> Watch
    requires own { IsOwnPlane plane.now agent.old }
    requires archived { IsArchived agent.old }
    ensures own { IsOwnPlane plane.now agent.new }
    ensures archived { IsArchived agent.new }
{
    agent.watch(plane, 7, sig)
}

// The passes are gathered, and a tick comes.
fn ticked(
    alloc: Global,
    plane: &Plane,
    agent: &mut Agent,
    passes: Vec<Pass>,
    shelf: &mut MemShelf,
) -> Result<Barrier, NoMemory>
    requires own { IsOwnPlane plane.now agent.old }
    requires archived { IsArchived agent.old }
    requires two { vec_len passes ≡ 2 }
    requires of { AreOf plane.now passes.items }
    ensures own { IsOwnPlane plane.now agent.new }
{
    agent.gather(plane, passes);
    agent.barrier(alloc, plane, shelf, 8, true)
}

// The fourth rotation collects page 0, and the archival the other closed pages. The marks of both signatures in page 4 are 153, 119, 93
// and 218, 221, 59.
#[test]
fn passes_of_an_agent(rt: HostRuntime) -> Result<(), Fail> {
    let alloc = rt.alloc();
    let (plane, mut agent, mut passes) = two_dealt(alloc)?;
    assert_eq!(rt; record(&rt, &plane, &mut passes, 0, &FIRST), page(0));
    assert_eq!(rt; turned(&rt, alloc, &plane, &mut agent)?, page(1));
    assert_eq!(rt; record(&rt, &plane, &mut passes, 1, &FIRST), page(1));
    assert_eq!(rt; turned_thrice(&rt, alloc, &plane, &mut agent)?, page(4));
    assert_eq!(rt; record(&rt, &plane, &mut passes, 0, &SECOND), page(4));
    assert_eq!(rt; record(&rt, &plane, &mut passes, 1, &FIRST), page(4));
    let mut shelf = MemShelf::new(alloc, &[])?;
    note_archival(alloc, &plane, &mut agent, &mut shelf)?;
    assert_eq!(rt; watched(&plane, &mut agent, &SECOND), Watch::Seen);
    assert_eq!(rt; watched(&plane, &mut agent, &NEITHER), Watch::NotSeen);
    assert_eq!(rt; agent.out(), 2);
    let Barrier {
        archived,
        closed,
        left,
    } = ticked(alloc, &plane, &mut agent, passes, &mut shelf)?;
    assert_eq!(rt; agent.out(), 0);
    let full = Closed {
        page: page(4),
        bits: 6,
    };
    assert_eq!(rt; closed, Some(full));
    assert!(rt; left.items().is_empty());
    let Some(archived) = archived else {
        return Err(Fail::from("no archival"));
    };
    let put = [page(0), page(1), page(2), page(3)];
    assert_eq!(rt; archived.put.items(), put.as_slice());
    assert!(rt; archived.kept.items().is_empty());
    Ok(())
}
