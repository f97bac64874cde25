// The routers beside each router.
ghost use Rattle.std.specs.Prelude.{◌≡◌, ◌++◌, ◌≤◌, IfOk, OnOk, length, map};
ghost use Rattle.std.specs.List.{flat_map};
ghost use Rattle.topology.specs.Wired.{IsNear};
ghost use Rattle.evidence_check.specs.Evidence.{stated_link};
ghost use Rattle.evidence_check.specs.Steps.{AreNear, across};

use evidence_text::Link;
use spie_base::{List, NoMemory, RouterId, ascending};
use std::alloc::Global;
use topology::ROUTERS_MOST;

// Appends the other end of a link that ends at a router.
fn push_across(found: &mut Vec<RouterId>, link: &Link, router: RouterId) -> Result<(), NoMemory>
    ensures { OnOk result (found.new.items ≡ found.old.items ++ across router.number link.now) }
{
    if link.low == router {
        found.push(link.high)?;
    } else if link.high == router {
        found.push(link.low)?;
    }
    Ok(())
}

// The other ends of the links that end at a router.
fn ends_at(alloc: Global, links: &[Link], router: RouterId) -> Result<Vec<RouterId>, NoMemory>
    ensures { IfOk result (λ found. found.items ≡ flat_map (across router.number) links.now) }
{
    let mut found = Vec::new(alloc);
    for link in links {
        push_across(&mut found, link, router)?;
    }
    Ok(found)
}

// The routers beside one, ascending.
fn beside_one(alloc: Global, links: &[Link], router: RouterId) -> Result<List<RouterId>, NoMemory>
    ensures { IfOk result (λ near. IsNear (map stated_link links.now) router.number near) }
{
    let found = ends_at(alloc, links, router)?;
    Ok(ascending(found))
}

/// Of each of so many routers, those beside it. Costs a walk over the links for each router.
pub(crate) fn near_all(
    alloc: Global,
    links: &[Link],
    routers: usize,
) -> Result<Vec<List<RouterId>>, NoMemory>
    requires { routers ≤ ROUTERS_MOST }
    ensures near { IfOk result (λ near. AreNear links.now near.items) }
    ensures each { IfOk result (λ near. length near.items ≡ routers) }
{
    let mut near = Vec::new(alloc);
    let mut number = 0;
    while number < routers {
        near.push(beside_one(
            alloc,
            links,
            RouterId {
                number: number as u32,
            },
        )?)?;
        number += 1;
    }
    Ok(near)
}
