ghost use Rattle.std.specs.Prelude.{◌≡◌, ◌<◌, IfOk};
ghost use Rattle.index_rings.specs.Orders.{chains_in, places_in};

use index_rings::Chains;
use std::alloc::{AllocError, Global};
use std::test::Fail;

// The places that a chain gives, up to three.
fn three(chains: &Chains, chain: usize, most: usize) -> [Option<usize>; 3] {
    if chain >= chains.len() {
        return [None; 3];
    }
    let mut places = chains.places(chain, most);
    let first = places.next();
    let second = places.next();
    let third = places.next();
    [first, second, third]
}

// Places 3 and 2 in chain 1, and place 0 in chain 0.
fn linked(alloc: Global) -> Result<Chains, AllocError>
    ensures chains { IfOk result (λ chains. chains_in chains ≡ 2) }
    ensures places { IfOk result (λ chains. 3 < places_in chains) }
{
    let mut chains = Chains::with_chains(alloc, 1)?;
    chains.add_chain()?;
    chains.cover_place(3)?;
    chains.append(1, 3);
    chains.append(0, 0);
    chains.append(1, 2);
    Ok(chains)
}

// Each chain has its places in the order of appending, and one that is taken out is in none.
#[test]
fn two_chains(rt: HostRuntime) -> Result<(), Fail> {
    let mut chains = linked(rt.alloc())?;
    assert_eq!(rt; chains.len(), 2);
    assert_eq!(rt; chains.first(1), Some(3));
    assert_eq!(rt; three(&chains, 0, 9), [Some(0), None, None]);
    assert_eq!(rt; three(&chains, 1, 9), [Some(3), Some(2), None]);
    assert_eq!(rt; three(&chains, 1, 1), [Some(3), None, None]);
    chains.take_out(1, 3);
    assert_eq!(rt; chains.first(1), Some(2));
    assert_eq!(rt; three(&chains, 1, 9), [Some(2), None, None]);
    Ok(())
}

// Room for chains and places, a few at a time.
#[test]
fn room(rt: HostRuntime) -> Result<(), Fail> {
    let mut chains = Chains::new(rt.alloc());
    assert_eq!(rt; chains.len(), 0);
    chains.cover_chain(4)?;
    assert_eq!(rt; chains.len(), 5);
    chains.cover_chain(2)?;
    assert_eq!(rt; chains.len(), 5);
    assert_eq!(rt; chains.first(4), None);
    Ok(())
}
