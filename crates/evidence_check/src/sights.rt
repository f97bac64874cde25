// What the used pages of a router show, with their rows in order of their keys.
ghost use Rattle.std.specs.Prelude.{◌≡◌, IfOk};
ghost use Rattle.std.specs.List.{flat_map};
ghost use Rattle.spie_base.specs.Shapes.{IsShape};
ghost use Rattle.used_pages.specs.UsedPages.{holds_sig, is_hit};
ghost use Rattle.evidence_check.specs.Evidence.{stated_page, stated_pages, stated_sight};
ghost use Rattle.evidence_check.specs.Sights.{AreShaped, AreSized, page_rows};

use evidence_text::{PageEvidence, RouterPages};
use hash_family::{Family, page_seed};
use packet_signature::Row;
use spie_base::{NoMemory, PageShape, Sig, Sighting};
use std::alloc::Global;
use std::marker::Model;
use used_pages::{KeyedRows, Origins};

/// What the used pages of a router show. It borrows the pages, and has the rows of all of them in one order, in which those
/// of a key are found by a binary search.
#[derive(Drop)]
pub(crate) struct PageSight<'a> {
    router: &'a RouterPages,
    rows: KeyedRows,
}

impl<'a> Model for PageSight<'a> {
    ghost use Rattle.evidence_text.specs.declared.certificates.RouterPages.{RouterPages};
    ghost use Rattle.evidence_check.specs.Sights.{IsIndexed};

    ghost Value = { RouterPages };

    ghost view = { λ sight. sight.router.now };

    ghost invariant = { λ sight. IsIndexed sight.router.now sight.rows };
}

// The rows of some pages, those of a page in their order.
fn rows_of(alloc: Global, pages: &[PageEvidence]) -> Result<Vec<Row>, NoMemory>
    ensures { IfOk result (λ rows. rows.items ≡ flat_map page_rows pages.now) }
{
    let mut rows = Vec::new(alloc);
    for page in pages {
        rows.extend_from_slice(page.rows.items())?;
    }
    Ok(rows)
}

// Whether a page has all marks of a signature. Draws the hash functions of the page, since those of all pages would take
// more memory than small pages do.
fn shows(shape: &PageShape, page: &PageEvidence, sig: &Sig) -> bool
    requires shape { IsShape shape.now }
    requires size { page.now.bits.n ≡ shape.now.n }
    ensures { result ≡ holds_sig shape.now sig.now (stated_page page.now) }
{
    let seed = page_seed(shape.base, shape.router, page.page);
    let family = Family::of(seed, shape.k, shape.n);
    page.bits.has(&family.positions(sig))
}

// Whether one of some pages has all marks of a signature.
fn one_shows(router: &RouterPages, sig: &Sig) -> bool
    requires shape { IsShape router.now.shape }
    requires sizes { AreSized router.now }
    ensures { result ≡ is_hit router.now.shape (stated_pages router.now) sig.now }
{
    for page in router.pages.items() {
        if shows(&router.shape, page, sig) {
            return true;
        }
    }
    false
}

impl<'a> PageSight<'a> {
    /// The sight of a router's pages. Copies their rows, and sorts them.
    pub(crate) fn of(alloc: Global, router: &'a RouterPages) -> Result<PageSight<'a>, NoMemory>
        requires shape { IsShape router.now.shape }
        requires sizes { AreSized router.now }
        ensures { IfOk result (λ sight. sight ≡ router.now) }
    {
        let rows = rows_of(alloc, router.pages.items())?;
        Ok(PageSight {
            router,
            rows: KeyedRows::of(rows),
        })
    }
}

impl<'a> Sighting for PageSight<'a> {
    ghost shown = { stated_sight };

    fn hit(&self, sig: &Sig) -> bool {
        one_shows(self.router, sig)
    }

    fn origins(&self, alloc: Global, sig: &Sig) -> Result<Vec<Sig>, NoMemory> {
        let mut origins = Origins::of(alloc, sig)?;
        origins.add_rows(&self.rows)?;
        Ok(origins.into_ascending())
    }

    fn has_missing(&self) -> bool {
        self.router.missing
    }
}

/// The sights of some routers.
pub(crate) fn sights_of<'a>(
    alloc: Global,
    routers: &'a [RouterPages],
) -> Result<Vec<PageSight<'a>>, NoMemory>
    requires shapes { AreShaped routers.now }
    ensures { IfOk result (λ sights. sights.items ≡ routers.now) }
{
    let mut sights = Vec::new(alloc);
    for router in routers {
        sights.push(PageSight::of(alloc, router)?)?;
    }
    Ok(sights)
}
