// Linked routers.
ghost use Rattle.std.specs.Prelude.{◌<◌, ◌↔◌, IsTrue, length, map};
ghost use Rattle.std.specs.List.{Contains};
ghost use Rattle.topology.specs.Layout.{is_linked};
ghost use Rattle.evidence_check.specs.Evidence.{stated_link};
ghost use Rattle.evidence_check.specs.Steps.{AreNear};

use evidence_text::Link;
use spie_base::{List, RouterId};

// Whether a router is one of some.
fn has_router(routers: &[RouterId], router: RouterId) -> bool
    ensures { IsTrue result ↔ Contains routers.now router }
{
    routers.contains(&router)
}

/// Whether two routers are linked.
pub(crate) fn is_beside(
    links: &[Link],
    near: &[List<RouterId>],
    one: RouterId,
    other: RouterId,
) -> bool
    requires near { AreNear links.now near.now }
    requires exists { one.number < length near.now }
    ensures { IsTrue result ↔ IsTrue (is_linked (map stated_link links.now) one.number other.number) }
{
    has_router(near[one.number as usize].items(), other)
}
