// A page in memory.
ghost use Rattle.std.specs.Prelude.{◌≡◌, IfOk};
ghost use Rattle.spie_base.specs.Shapes.{AreInRange, shape_of};
ghost use Rattle.hash_family.specs.Positions.{family_of};

use bloom_page::Page;
use hash_family::{Family, page_seed};
use spie_base::{NoMemory, PageNo, RouterId, Rules, Sig};
use std::alloc::Global;

/// The hash functions of a page of a router.
pub(crate) fn hashes(
    alloc: Global,
    rules: &Rules,
    router: RouterId,
    page: PageNo,
) -> Result<Box<Family>, NoMemory>
    requires { AreInRange rules.now.k rules.now.n }
    ensures family { IfOk result (λ family. family.value ≡ family_of (shape_of rules.now router.number) page.number) }
    ensures size { IfOk result (λ family. family.value.n ≡ rules.now.n) }
{
    let seed = page_seed(rules.base, router, page);
    Ok(Box::new(alloc, Family::of(seed, rules.k, rules.n))?)
}

/// A page in memory with its hash functions.
#[derive(Drop)]
pub struct Resident {
    pub(crate) family: Box<Family>,
    pub(crate) page: Page,
    ghost same_size: { page.n ≡ family.value.n },
}

impl Resident {
    ghost use Rattle.data_agent.specs.Residents.{IsRead, shows};

    /// A page of a router that was read back.
    pub(crate) fn of(
        alloc: Global,
        rules: &Rules,
        router: RouterId,
        page: PageNo,
        bits: Page,
    ) -> Result<Resident, NoMemory>
        requires ranges { AreInRange rules.now.k rules.now.n }
        requires size { bits.n ≡ rules.now.n }
        ensures { IfOk result (λ resident. IsRead rules.now router.number page.number bits resident) }
    {
        Ok(Resident {
            family: hashes(alloc, rules, router, page)?,
            page: bits,
        })
    }

    /// Whether all marks of a signature are set.
    pub(crate) fn has(&self, sig: &Sig) -> bool
        ensures { result ≡ shows self.now sig.now }
    {
        self.page.has(&self.family.positions(sig))
    }
}
