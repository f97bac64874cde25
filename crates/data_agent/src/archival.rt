// An archival: the closed pages that it covers are noted, and their bits records put.
//
// While passes are out somebody may be inside a closed page. From the first such page on pages stay in their slots, and their
// bits records are deferred: the barrier puts them, when no pass is out.
ghost use Rattle.std.specs.Prelude.{◌≡◌, ◌≤◌, ◌<◌, ◌⊎◌, ℕ, false, true, None, IfOk, OnOk, OnErr};
ghost use Rattle.std.specs.List.{Contains};
ghost use Rattle.spie_base.specs.Causes.{RoseBy};
ghost use Rattle.spie_base.specs.declared.Rules.{Rules as TheRules};
ghost use Rattle.bloom_page.specs.Sets.{is_in};
ghost use Rattle.router_account.specs.Account.{Account};
ghost use Rattle.router_account.specs.Ledger.{Ledger, Unfinished};
ghost use Rattle.router_account.specs.Records.{head_of};
ghost use Rattle.shelved_page.specs.Shelving.{view_of};
ghost use Rattle.data_agent.specs.declared.archival.Note.{Note as TheNote};
ghost use Rattle.data_agent.specs.Archiving.{HasClosed, IsHeld, KnowsPages, KnowsTimes, NotesOne, NotesTo, place_at};
ghost use Rattle.data_agent.specs.Beside.{Away, KeepsReads, StandsBeside, meaning_beside, out_of};
ghost use Rattle.data_agent.specs.Calls.{MayNote, IsNoted, IsNotedBeside};
ghost use Rattle.data_agent.specs.Planes.{AreTaken, CountedSomebody, DefersPage, IsOwnPlane, IsPlaneSame, entries_of};
ghost use Rattle.data_agent.specs.Probing.{StandsInSlot};
ghost use Rattle.data_agent.specs.Finishing.{PutsAllDeferred, PutsDeferred};
ghost use Rattle.data_agent.specs.Standing.{IsBitsDigest, Stands, StandsFor, StandsWhole, digest_of, standing, was_deferred};

use crate::closed_page::Whereabouts;
use crate::{Agent, Resident};
use archive_record::BitsHead;
use hash_family::page_seed;
use page_gate::Plane;
use page_shelf::Shelf;
use shelved_page::put_bits;
use spie_base::{NoMemory, PageNo};
use std::alloc::Global;

/// What became of the bits record of a page that the segment's archival covers.
#[derive(Clone, Copy, PartialEq, Eq, Debug)]
pub enum NotedBits {
    /// It was put, and this is its SHA-256.
    Stored([u8; 32]),
    /// The put failed.
    Refused,
    /// Nothing was put yet, since somebody was inside the page's slot. The barrier puts it.
    Deferred,
}

/// A page that the segment's archival covers.
#[derive(Clone, Copy, PartialEq, Eq, Debug)]
pub struct Note {
    pub page: PageNo,
    pub bits: NotedBits,
}

impl NotedBits {
    // What came of a put.
    fn of(put: Option<[u8; 32]>) -> NotedBits
        ensures digest { digest_of result ≡ put }
        ensures known { was_deferred result ≡ false }
    {
        match put {
            Some(digest) => NotedBits::Stored(digest),
            None => NotedBits::Refused,
        }
    }

    // The SHA-256 of a bits record that was put.
    pub(crate) fn digest(&self) -> Option<[u8; 32]>
        ensures { result ≡ digest_of self.now }
    {
        match self {
            NotedBits::Stored(digest) => Some(*digest),
            _ => None,
        }
    }

    // Whether nothing was put of it yet.
    fn is_deferred(&self) -> bool
        ensures { result ≡ was_deferred self.now }
    {
        matches!(self, NotedBits::Deferred)
    }
}

impl Agent {
    // What the bits record of a closed page says beside its bits.
    pub(crate) fn head(&self, page: PageNo) -> BitsHead
        requires { (rules : TheRules) × (a : Account) × KnowsTimes self.now rules a
            × (page.number < self.now.page.number) }
        ensures { (rules : TheRules) (a : Account) → KnowsTimes self.now rules a → page.number < self.now.page.number
            → result ≡ head_of rules a page.number }
    {
        let row = self.catalogue.row(page);
        let Some(closed) = row.closed else {
            unreachable!()
        };
        BitsHead {
            router: self.router,
            page,
            k: self.rules.k,
            seed: page_seed(self.rules.base, self.router, page),
            opened: row.opened,
            closed,
        }
    }

    // A page that was collected and has not expired, where it is in memory.
    fn held(&self, page: u32) -> Option<&Resident>
        requires near { (self.now.catalogue.gone ≤ page) × (page < standing self.now) }
        ensures { IsHeld (place_at self.now page) result }
    {
        match &self.closed[(page - self.first()) as usize].place {
            Whereabouts::InMemory(resident) => Some(resident),
            Whereabouts::OnShelf(_) => None,
        }
    }

    // Notes a closed page where it is not on the shelf, and puts its bits record where it is in memory.
    fn note<H: Shelf>(
        &self,
        alloc: Global,
        shelf: &mut H,
        page: PageNo,
    ) -> Result<Option<Note>, NoMemory>
        requires knows { (rules : TheRules) × (l : Ledger) × KnowsPages self.now rules l }
        requires closed { (self.now.catalogue.gone ≤ page.number) × (page.number < self.now.page.number) }
        ensures later { H.faults shelf.old ≤ H.faults shelf.new }
        ensures still { H.tells shelf.new ≡ H.tells shelf.old }
        ensures noted { let before = view_of H.tells H.contents H.faults shelf.old in
            let after = view_of H.tells H.contents H.faults shelf.new in
            IfOk result (λ note. (rules : TheRules) (l : Ledger) → KnowsPages self.now rules l
            → NotesOne self.now rules l page.number note before after) }
    {
        if page.number >= self.first() + self.closed.len() as u32 {
            return Ok(Some(Note {
                page,
                bits: NotedBits::Deferred,
            }));
        }
        let Some(resident) = self.held(page.number) else {
            return Ok(None);
        };
        let put = put_bits(alloc, shelf, &self.head(page), &resident.page)?;
        Ok(Some(Note {
            page,
            bits: NotedBits::of(put),
        }))
    }

    // Puts the bits record of a noted page, where it was deferred.
    fn put_deferred<H: Shelf>(
        &self,
        alloc: Global,
        shelf: &mut H,
        note: &Note,
    ) -> Result<Note, NoMemory>
        requires closed { HasClosed self.now note.now.page.number }
        ensures later { H.faults shelf.old ≤ H.faults shelf.new }
        ensures still { H.tells shelf.new ≡ H.tells shelf.old }
        ensures put { let before = view_of H.tells H.contents H.faults shelf.old in
            let after = view_of H.tells H.contents H.faults shelf.new in
            IfOk result (λ new. (rules : TheRules) (l : Ledger) → Stands self.now rules l
            → is_in l.put_before note.now.page.number ≡ false
            → IsBitsDigest rules l.account note.now.page.number (digest_of note.now.bits)
            → PutsDeferred rules l.account note.now new before after) }
    {
        if !note.bits.is_deferred() {
            return Ok(*note);
        }
        match self.note(alloc, shelf, note.page)? {
            Some(new) => Ok(new),
            None => Ok(*note),
        }
    }

    // Puts the bits records that were deferred.
    pub(crate) fn put_all_deferred<H: Shelf>(
        &self,
        alloc: Global,
        shelf: &mut H,
        notes: &[Note],
    ) -> Result<Vec<Note>, NoMemory>
        requires closed { (note : TheNote) → Contains notes.now note → HasClosed self.now note.page.number }
        ensures later { H.faults shelf.old ≤ H.faults shelf.new }
        ensures still { H.tells shelf.new ≡ H.tells shelf.old }
        ensures put { let before = view_of H.tells H.contents H.faults shelf.old in
            let after = view_of H.tells H.contents H.faults shelf.new in
            IfOk result (λ new. (rules : TheRules) (l : Ledger) → Stands self.now rules l
            → ((note : TheNote) → Contains notes.now note
            → (is_in l.put_before note.page.number ≡ false)
            × IsBitsDigest rules l.account note.page.number (digest_of note.bits))
            → PutsAllDeferred rules l.account notes.now new.items before after) }
    {
        let mut new = Vec::new(alloc);
        for note in notes {
            new.push(self.put_deferred(alloc, shelf, note)?)?;
        }
        Ok(new)
    }

    // Notes the closed pages that are not on the shelf.
    fn notes<H: Shelf>(&self, alloc: Global, shelf: &mut H) -> Result<Vec<Note>, NoMemory>
        requires { (rules : TheRules) × (l : Ledger) × KnowsPages self.now rules l }
        ensures later { H.faults shelf.old ≤ H.faults shelf.new }
        ensures still { H.tells shelf.new ≡ H.tells shelf.old }
        ensures noted { let before = view_of H.tells H.contents H.faults shelf.old in
            let after = view_of H.tells H.contents H.faults shelf.new in
            IfOk result (λ notes. (rules : TheRules) (l : Ledger) → KnowsPages self.now rules l
            → NotesTo self.now rules l self.now.catalogue.gone self.now.page.number notes.items before after) }
    {
        let mut notes = Vec::new(alloc);
        'pages: for number in self.first()..self.page.number {
            if let Some(note) = self.note(alloc, shelf, PageNo { number })? {
                notes.push(note)?;
            }
        }
        Ok(notes)
    }

    // Notes the closed pages.
    fn note_closed<H: Shelf>(&mut self, alloc: Global, shelf: &mut H) -> Result<(), NoMemory>
        requires none { self.old.noted ≡ None }
        requires knows { (rules : TheRules) × (l : Ledger) × KnowsPages self.old rules l }
        ensures later { H.faults shelf.old ≤ H.faults shelf.new }
        ensures still { H.tells shelf.new ≡ H.tells shelf.old }
        ensures noted { OnOk result ((more : Unfinished)
            × IsNoted (StandsWhole self.old) (StandsWhole self.new) more (H.tells shelf.old) (H.contents shelf.old)
            (H.contents shelf.new)
            × ((away : Away) → IsNotedBeside (meaning_beside self.old away) (meaning_beside self.new away) more
            (H.tells shelf.old) (H.contents shelf.old) (H.contents shelf.new))
            × RoseBy more.refused (H.faults shelf.old) (H.faults shelf.new)) }
        ensures deferred { OnOk result ((page : ℕ) → DefersPage self.new page
            → (standing self.old ≤ page) × (page < self.old.page.number)) }
        ensures taken { AreTaken self.old → AreTaken self.new }
        ensures plane { IsPlaneSame self.old self.new }
        ensures same { OnErr result (self.new ≡ self.old) }
    {
        let notes = self.notes(alloc, shelf)?;
        self.noted = Some(notes);
        Ok(())
    }

    /// Notes which pages an archival covers: those that are closed, have not expired and are not on the shelf. Settles each
    /// closed page that stands in a slot once, oldest first, and collects it, up to the first one in which somebody is inside, and
    /// puts the bits records of the pages in memory, in order. With no pass out nobody is inside one, and all are put. Else pages
    /// from that one on stay in their slots, and the barrier puts their bits records; what is put meanwhile are the bits that were
    /// collected, which `gather` shows to be the page's. A segment has one archival. Waits for nobody. Copies no page beside the
    /// bytes of one record.
    pub fn archive<H: Shelf>(
        &mut self,
        alloc: Global,
        plane: &Plane,
        shelf: &mut H,
    ) -> Result<(), NoMemory>
        requires own { IsOwnPlane plane.now self.old }
        requires noted { MayNote (StandsFor self.old) ⊎ ((away : Away) × MayNote (meaning_beside self.old away)) }
        ensures own { IsOwnPlane plane.now self.new }
        ensures entries { entries_of self.new ≡ entries_of self.old }
        ensures later { H.faults shelf.old ≤ H.faults shelf.new }
        ensures still { H.tells shelf.new ≡ H.tells shelf.old }
        ensures noted { OnOk result ((more : Unfinished)
            × IsNoted (StandsFor self.old) (StandsFor self.new) more (H.tells shelf.old) (H.contents shelf.old)
            (H.contents shelf.new)
            × ((away : Away) → IsNotedBeside (meaning_beside self.old away) (meaning_beside self.new away) more
            (H.tells shelf.old) (H.contents shelf.old) (H.contents shelf.new))
            × RoseBy more.refused (H.faults shelf.old) (H.faults shelf.new)) }
        ensures tried { OnOk result ((out_of self.old ≡ 0) → (page : ℕ) → DefersPage self.new page → ⊥) }
        ensures deferred { OnOk result ((page : ℕ) → DefersPage self.new page → StandsInSlot self.new page) }
        ensures inside { OnOk result (AreTaken self.new ⊎ CountedSomebody self.new) }
        ensures same { OnErr result ((rules : TheRules) (l : Ledger) (u : Unfinished) → StandsFor self.old rules l u
            → StandsFor self.new rules l u) }
        ensures beside_same { OnErr result ((rules : TheRules) (l : Ledger) (u : Unfinished) (away : Away)
            → StandsBeside self.old rules l u away
            → StandsBeside self.new rules l u away) }
        ensures reads { KeepsReads self.old self.new }
    {
        self.collect_quiet(alloc, plane)?;
        self.note_closed(alloc, shelf)
    }
}
