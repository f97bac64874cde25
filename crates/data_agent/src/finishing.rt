// The end of a segment's archival: bits records that were deferred are put, then rows records, and pages that were put leave
// memory.
//
// First all puts are made and all memory is taken, which changes nothing of the agent. Then the pages leave memory,
// which can't fail.
ghost use Rattle.std.specs.Prelude.{◌≡◌, ◌≤◌, ◌<◌, ℕ, true, false, IfOk, OnOk, OnErr};
ghost use Rattle.std.specs.List.{Contains};
ghost use Rattle.spie_base.specs.declared.Rules.{Rules as TheRules};
ghost use Rattle.bloom_page.specs.Sets.{is_in};
ghost use Rattle.router_account.specs.Ledger.{Ledger, Unfinished};
ghost use Rattle.shelved_page.specs.Shelving.{view_of};
ghost use Rattle.data_agent.specs.declared.archival.Note.{Note as TheNote};
ghost use Rattle.data_agent.specs.declared.finishing.Settled.{Settled as TheSettled};
ghost use Rattle.data_agent.specs.Archiving.{HasClosed};
ghost use Rattle.data_agent.specs.Finishing.{FinishesOne, FinishesTo, IsFinished, IsSettled, digests_with, settled_by, settled_all, shelved_in, covered_in, pages_put, pages_kept};
ghost use Rattle.data_agent.specs.Planes.{IsPlaneSame};
ghost use Rattle.data_agent.specs.Standing.{AreDigests, Stands, StandsWhole, IsBitsDigest, digest_of, is_deferred};

use crate::archival::Note;
use crate::closed_page::{ClosedPage, Whereabouts};
use crate::{Agent, Archived};
use page_shelf::Shelf;
use shelved_page::{Digests, put_rows};
use spie_base::{List, NoMemory, PageNo};
use std::alloc::Global;

/// What became of a page that the segment's archival covers: it has digests where both its records were put.
#[derive(Clone, Copy, PartialEq, Eq, Debug)]
pub struct Settled {
    pub page: PageNo,
    pub digests: Option<Digests>,
}

// A page whose bits record was put, with what came of its rows record.
fn settled_with(page: PageNo, bits: [u8; 32], rows: Option<[u8; 32]>) -> Settled
    ensures { result ≡ record { page = page; digests = digests_with bits rows } }
{
    match rows {
        Some(rows) => Settled {
            page,
            digests: Some(Digests { bits, rows }),
        },
        None => Settled {
            page,
            digests: None,
        },
    }
}

// The pages that were put.
fn put_pages(alloc: Global, settled: &[Settled]) -> Result<List<PageNo>, NoMemory>
    ensures { IfOk result (λ pages. pages ≡ pages_put settled.now) }
{
    let mut pages = Vec::new(alloc);
    for one in settled {
        if one.digests.is_some() {
            pages.push(one.page)?;
        }
    }
    Ok(List::of(pages))
}

// The pages that stay in memory.
fn kept_pages(alloc: Global, settled: &[Settled]) -> Result<List<PageNo>, NoMemory>
    ensures { IfOk result (λ pages. pages ≡ pages_kept settled.now) }
{
    let mut pages = Vec::new(alloc);
    for one in settled {
        if one.digests.is_none() {
            pages.push(one.page)?;
        }
    }
    Ok(List::of(pages))
}

impl Agent {
    // Puts the rows record of a noted page, where its bits record was put.
    fn finish_one<H: Shelf>(
        &self,
        alloc: Global,
        shelf: &mut H,
        note: &Note,
    ) -> Result<Settled, NoMemory>
        requires closed { HasClosed self.now note.now.page.number }
        ensures later { H.faults shelf.old ≤ H.faults shelf.new }
        ensures still { H.tells shelf.new ≡ H.tells shelf.old }
        ensures finished { let before = view_of H.tells H.contents H.faults shelf.old in
            let after = view_of H.tells H.contents H.faults shelf.new in
            IfOk result (λ settled. (rules : TheRules) (l : Ledger) → Stands self.now rules l
            → is_in l.put_before note.now.page.number ≡ false
            → IsBitsDigest rules l.account note.now.page.number (digest_of note.now.bits) → is_deferred note.now ≡ false
            → FinishesOne rules l.account note.now settled before after) }
    {
        let Some(bits) = note.bits.digest() else {
            return Ok(Settled {
                page: note.page,
                digests: None,
            });
        };
        let rows = self.table.rows_of(alloc, note.page)?;
        let put = put_rows(alloc, shelf, self.router, note.page, &rows)?;
        Ok(settled_with(note.page, bits, put))
    }

    // Puts the rows records that are due.
    fn finish_all<H: Shelf>(
        &self,
        alloc: Global,
        shelf: &mut H,
        notes: &[Note],
    ) -> Result<Vec<Settled>, NoMemory>
        requires closed { (note : TheNote) → Contains notes.now note → HasClosed self.now note.page.number }
        ensures later { H.faults shelf.old ≤ H.faults shelf.new }
        ensures still { H.tells shelf.new ≡ H.tells shelf.old }
        ensures finished { let before = view_of H.tells H.contents H.faults shelf.old in
            let after = view_of H.tells H.contents H.faults shelf.new in
            IfOk result (λ settled. (rules : TheRules) (l : Ledger) → Stands self.now rules l
            → ((note : TheNote) → Contains notes.now note → (is_in l.put_before note.page.number ≡ false)
            × IsBitsDigest rules l.account note.page.number (digest_of note.bits) × (is_deferred note ≡ false))
            → FinishesTo rules l.account notes.now settled.items before after) }
    {
        let mut settled = Vec::new(alloc);
        for note in notes {
            settled.push(self.finish_one(alloc, shelf, note)?)?;
        }
        Ok(settled)
    }

    // A page leaves memory, of which both records were put.
    fn shelve(&mut self, page: PageNo, digests: Digests)
        requires closed { HasClosed self.old page.number }
        ensures shelved { (rules : TheRules) (l : Ledger) → Stands self.old rules l
            → AreDigests rules l.account page.number digests → Stands self.new rules (shelved_in l page.number) }
        ensures rest { (self.new.catalogue ≡ self.old.catalogue) × (self.new.page ≡ self.old.page)
            × (self.new.noted ≡ self.old.noted) }
        ensures plane { IsPlaneSame self.old self.new }
    {
        let at = (page.number - self.first()) as usize;
        self.closed[at] = ClosedPage {
            place: Whereabouts::OnShelf(digests),
            covered: true,
        };
        self.table.drop_page(page);
    }

    // A page stays in memory that an archival covered.
    fn cover(&mut self, page: PageNo)
        requires closed { HasClosed self.old page.number }
        ensures covered { (rules : TheRules) (l : Ledger) → Stands self.old rules l
            → Stands self.new rules (covered_in l page.number) }
        ensures rest { (self.new.catalogue ≡ self.old.catalogue) × (self.new.page ≡ self.old.page)
            × (self.new.noted ≡ self.old.noted) }
        ensures plane { IsPlaneSame self.old self.new }
    {
        let at = (page.number - self.first()) as usize;
        self.closed[at].covered = true;
    }

    // What became of a page that the archival covers takes effect.
    fn settle_one(&mut self, settled: &Settled)
        requires closed { HasClosed self.old settled.now.page.number }
        ensures settled { (rules : TheRules) (l : Ledger) → Stands self.old rules l
            → IsSettled rules l.account settled.now → Stands self.new rules (settled_by l settled.now) }
        ensures rest { (self.new.catalogue ≡ self.old.catalogue) × (self.new.page ≡ self.old.page)
            × (self.new.noted ≡ self.old.noted) }
        ensures plane { IsPlaneSame self.old self.new }
    {
        match settled.digests {
            Some(digests) => self.shelve(settled.page, digests),
            None => self.cover(settled.page),
        }
    }

    // The same, of all of them.
    fn settle(&mut self, settled: &[Settled])
        requires ready { (rules : TheRules) × (l : Ledger) × Stands self.old rules l
            × ((one : TheSettled) → Contains settled.now one
            → IsSettled rules l.account one × (self.old.catalogue.gone ≤ one.page.number)
            × (one.page.number < self.old.page.number)) }
        ensures settled { (rules : TheRules) (l : Ledger) → Stands self.old rules l
            → ((one : TheSettled) → Contains settled.now one → IsSettled rules l.account one)
            → Stands self.new rules (settled_all l settled.now) }
        ensures rest { (self.new.catalogue ≡ self.old.catalogue) × (self.new.page ≡ self.old.page)
            × (self.new.noted ≡ self.old.noted) }
        ensures plane { IsPlaneSame self.old self.new }
    {
        for one in settled {
            self.settle_one(one);
        }
    }

    // Finishes the segment's archival, where one came.
    pub(crate) fn finish<H: Shelf>(
        &mut self,
        alloc: Global,
        shelf: &mut H,
    ) -> Result<Option<Archived>, NoMemory>
        requires { (rules : TheRules) × (l : Ledger) × (u : Unfinished) × StandsWhole self.old rules l u }
        ensures later { H.faults shelf.old ≤ H.faults shelf.new }
        ensures still { H.tells shelf.new ≡ H.tells shelf.old }
        ensures finished { let before = view_of H.tells H.contents H.faults shelf.old in
            let after = view_of H.tells H.contents H.faults shelf.new in
            IfOk result (λ archived. (rules : TheRules) (l : Ledger) (u : Unfinished) → StandsWhole self.old rules l u
            → IsFinished rules l u archived self.new before after) }
        ensures rest { self.new.catalogue ≡ self.old.catalogue }
        ensures plane { IsPlaneSame self.old self.new }
        ensures same { OnErr result ((rules : TheRules) (l : Ledger) (u : Unfinished) → StandsWhole self.old rules l u
            → StandsWhole self.new rules l u) }
    {
        let Some(noted) = &self.noted else {
            return Ok(None);
        };
        let notes = self.put_all_deferred(alloc, shelf, noted)?;
        let settled = self.finish_all(alloc, shelf, &notes)?;
        let put = put_pages(alloc, &settled)?;
        let kept = kept_pages(alloc, &settled)?;
        self.settle(&settled);
        self.noted = None;
        Ok(Some(Archived { put, kept }))
    }
}
