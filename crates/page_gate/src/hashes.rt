// The hash functions of a page, which a recorder keeps for its next record in the same page.
ghost use Rattle.std.specs.Prelude.{◌≡◌, ◌↔◌, IsTrue, IsSomeAnd, true};
ghost use Rattle.hash_family.specs.Positions.{family_of};
ghost use Rattle.page_gate.specs.Placed.{AreMarks};
ghost use Rattle.spie_base.specs.Shapes.{IsShape};

use gate_core::family_of;
use hash_family::Family;
use spie_base::{Marks, PageNo, PageShape, Sig};

/// The hash functions of a page, and of which page they are. 560 bytes, kept in place.
#[derive(Drop)]
pub(crate) struct PageHashes {
    shape: PageShape,
    page: PageNo,
    family: Family,
    ghost of_page: { family ≡ family_of shape page.number },
}

impl PageHashes {
    fn of(shape: &PageShape, page: PageNo) -> PageHashes
        requires { IsShape shape.now }
        ensures { (result.shape ≡ shape.now) × (result.page ≡ page) }
    {
        PageHashes {
            shape: *shape,
            page,
            family: family_of(shape, page),
        }
    }

    fn are_of(&self, shape: &PageShape, page: PageNo) -> bool
        ensures { IsTrue result ↔ ((self.now.page ≡ page) × (self.now.shape ≡ shape.now)) }
    {
        self.page == page && self.shape == *shape
    }

    #[inline(always)]
    fn marks(&self, sig: &Sig) -> Marks
        requires { IsShape self.now.shape }
        ensures value { AreMarks self.now.shape self.now.page.number sig.now result }
        ensures count { result.count ≡ self.now.shape.k }
    {
        self.family.positions(sig)
    }
}

// Whether the hash functions of a page are kept.
fn are_kept(kept: &Option<PageHashes>, shape: &PageShape, page: PageNo) -> bool
    ensures { (result ≡ true) → IsSomeAnd kept.now (λ hashes. (hashes.shape ≡ shape.now) × (hashes.page ≡ page)) }
{
    match kept {
        Some(hashes) => hashes.are_of(shape, page),
        None => false,
    }
}

// It is apart, so that a record in the same page pays nothing for it.
#[cold]
#[inline(never)]
fn keep_page(kept: &mut Option<PageHashes>, shape: &PageShape, page: PageNo)
    requires { IsShape shape.now }
    ensures { IsSomeAnd kept.new (λ hashes. (hashes.shape ≡ shape.now) × (hashes.page ≡ page)) }
{
    *kept = Some(PageHashes::of(shape, page));
}

/// The marks of a signature in a page. Costs k positions, and 8·k words of the generator more where `kept` is of
/// another page; then it becomes this one's.
// Inlined, since a copy of marks that were just written, as to a caller, waits for them.
#[inline(always)]
pub(crate) fn marks_in(
    kept: &mut Option<PageHashes>,
    shape: &PageShape,
    page: PageNo,
    sig: &Sig,
) -> Marks
    requires { IsShape shape.now }
    ensures value { AreMarks shape.now page.number sig.now result }
    ensures count { result.count ≡ shape.now.k }
{
    if !are_kept(kept, shape, page) {
        keep_page(kept, shape, page);
    }
    match &*kept {
        Some(hashes) => hashes.marks(sig),
        None => unreachable!(),
    }
}
