// One page of a query's window: borrowed where it is in memory, and read back where it is on the shelf.
ghost use Rattle.std.specs.Prelude.{◌≡◌, ◌↔◌, ◌++◌, ◌+◌, ◌-◌, ◌≤◌, ◌<◌, ℕ, true, IfOk, OnOk};
ghost use Rattle.std.specs.List.{Contains};
ghost use Rattle.spie_base.specs.declared.Rules.{Rules as TheRules};
ghost use Rattle.packet_signature.specs.declared.Row.{Row as TheRow};
ghost use Rattle.router_account.specs.Ledger.{Ledger};
ghost use Rattle.shelved_page.specs.Reading.{Gets};
ghost use Rattle.shelved_page.specs.Shelving.{view_of};
ghost use Rattle.data_agent.specs.Archiving.{HasClosed};
ghost use Rattle.data_agent.specs.Looking.{IsLooked, IsReadBack, LooksTo, is_unread, look_shows, undone_by, used_of, unread_of, unread_where};
ghost use Rattle.data_agent.specs.Planes.{IsCopy, IsPrepared};
ghost use Rattle.data_agent.specs.Residents.{IsResident};
ghost use Rattle.data_agent.specs.Standing.{AreDigests, Stands};

use crate::closed_page::Whereabouts;
use crate::{Agent, Resident};
use packet_signature::Row;
use page_shelf::Shelf;
use router_account::{Cause, Unreadable};
use shelved_page::{Back, Digests, read_back};
use spie_base::{List, NoMemory, PageNo, Sig};
use std::alloc::Global;
use std::snapshot::Snapshot;
use used_pages::{KeyedRows, Origins};

/// A page that was read back from the shelf.
#[derive(Drop)]
pub struct ReadPage {
    pub(crate) resident: Resident,
    // The rows as they were read, which only clauses see.
    pub(crate) read: Snapshot<List<Row>>,
    pub(crate) rows: KeyedRows,
}

/// How a page is seen.
#[derive(Drop)]
pub enum Looked<'a> {
    Borrowed(&'a Resident),
    ReadBack(ReadPage),
    Unread(Cause),
}

/// A page of a query's window.
#[derive(Drop)]
pub struct Look<'a> {
    pub(crate) page: PageNo,
    pub(crate) looked: Looked<'a>,
}

impl ReadPage {
    // A page, with its rows put in order of their keys.
    fn of(resident: Resident, rows: List<Row>) -> ReadPage
        ensures resident { result.resident ≡ resident }
        ensures read { result.read.value ≡ rows }
        ensures same { (row : TheRow) → Contains result.rows row ↔ Contains rows row }
    {
        let read = Snapshot::of(&rows);
        ReadPage {
            resident,
            read,
            rows: KeyedRows::of(rows.into_vec()),
        }
    }
}

impl<'a> Look<'a> {
    // Whether the page could not be read.
    pub(crate) fn is_lost(&self) -> bool
        ensures { result ≡ is_unread self.now }
    {
        match &self.looked {
            Looked::Borrowed(_) => false,
            Looked::ReadBack(_) => false,
            Looked::Unread(_) => true,
        }
    }

    // The page and its cause, where it could not be read.
    fn unreadable(&self) -> Option<Unreadable>
        ensures { result ≡ unread_where self.now.page self.now.looked }
    {
        match &self.looked {
            Looked::Borrowed(_) => None,
            Looked::ReadBack(_) => None,
            Looked::Unread(cause) => Some(Unreadable {
                page: self.page,
                cause: *cause,
            }),
        }
    }

    // Whether the page has all marks of a signature.
    pub(crate) fn shows(&self, sig: &Sig) -> bool
        ensures { result ≡ look_shows self.now sig.now }
    {
        match &self.looked {
            Looked::Borrowed(resident) => resident.has(sig),
            Looked::ReadBack(page) => page.resident.has(sig),
            Looked::Unread(_) => false,
        }
    }

    // Adds what the rows that were read back say that a signature was before.
    pub(crate) fn undo(&self, origins: &mut Origins) -> Result<(), NoMemory>
        ensures sig { origins.new.sig ≡ origins.old.sig }
        ensures more { OnOk result (origins.new.olds ≡ origins.old.olds ++ undone_by origins.old.sig self.now) }
    {
        match &self.looked {
            Looked::Borrowed(_) => Ok(()),
            Looked::ReadBack(page) => origins.add_rows(&page.rows),
            Looked::Unread(_) => Ok(()),
        }
    }
}

// The pages that are used.
pub(crate) fn used_pages(alloc: Global, looks: &[Look<'_>]) -> Result<List<PageNo>, NoMemory>
    ensures { IfOk result (λ used. used ≡ used_of looks.now) }
{
    let mut used = Vec::new(alloc);
    for look in looks {
        if !look.is_lost() {
            used.push(look.page)?;
        }
    }
    Ok(List::of(used))
}

// The pages that could not be read, with their causes.
pub(crate) fn unread_pages(alloc: Global, looks: &[Look<'_>]) -> Result<List<Unreadable>, NoMemory>
    ensures { IfOk result (λ unread. unread ≡ unread_of looks.now) }
{
    let mut unread = Vec::new(alloc);
    for look in looks {
        if let Some(page) = look.unreadable() {
            unread.push(page)?;
        }
    }
    Ok(List::of(unread))
}

impl Agent {
    // The copy of the open page.
    #[tactic(auto, using(crate::proofs::Planes::some_copy, crate::proofs::Planes::none_copy, crate::proofs::Planes::copy_of))]
    fn copy(&self) -> &Resident
        requires { IsPrepared self.now }
        ensures copy { IsCopy self.now result.now }
        ensures resident { (rules : TheRules) (l : Ledger) → Stands self.now rules l
            → IsResident rules l.account self.now.page.number result.now }
    {
        match &self.copied {
            Some(resident) => resident,
            None => unreachable!(),
        }
    }

    // Reads a page back from the shelf.
    fn read_page<H: Shelf>(
        &self,
        alloc: Global,
        shelf: &mut H,
        page: PageNo,
        digests: &Digests,
    ) -> Result<Looked<'_>, NoMemory>
        requires closed { (rules : TheRules) × (l : Ledger) × Stands self.now rules l
            × (self.now.catalogue.gone ≤ page.number) × (page.number < self.now.page.number)
            × AreDigests rules l.account page.number digests.now }
        ensures gets { let before = view_of H.tells H.contents H.faults shelf.old in
            let after = view_of H.tells H.contents H.faults shelf.new in
            Gets before after }
        ensures read { let before = view_of H.tells H.contents H.faults shelf.old in
            let after = view_of H.tells H.contents H.faults shelf.new in
            IfOk result (λ looked. (rules : TheRules) (l : Ledger) → Stands self.now rules l
            → AreDigests rules l.account page.number digests.now
            → IsReadBack rules l.account page.number before after looked) }
    {
        match read_back(alloc, shelf, &self.head(page), self.rules.n, digests)? {
            Back::Got(content) => {
                let resident = Resident::of(alloc, &self.rules, self.router, page, content.bits)?;
                let page = ReadPage::of(resident, content.rows);
                Ok(Looked::ReadBack(page))
            }
            Back::Bad(cause) => Ok(Looked::Unread(cause)),
        }
    }

    // Looks at a page that has not expired.
    fn look<H: Shelf>(
        &self,
        alloc: Global,
        shelf: &mut H,
        page: PageNo,
    ) -> Result<Looked<'_>, NoMemory>
        requires prepared { IsPrepared self.now }
        requires near { (rules : TheRules) × (l : Ledger) × Stands self.now rules l
            × (self.now.catalogue.gone ≤ page.number) × (page.number ≤ self.now.page.number) }
        ensures gets { let before = view_of H.tells H.contents H.faults shelf.old in
            let after = view_of H.tells H.contents H.faults shelf.new in
            Gets before after }
        ensures looked { let before = view_of H.tells H.contents H.faults shelf.old in
            let after = view_of H.tells H.contents H.faults shelf.new in
            IfOk result (λ looked. (rules : TheRules) (l : Ledger) → Stands self.now rules l
            → IsLooked rules l page.number before after looked) }
    {
        if page.number == self.page.number {
            return Ok(Looked::Borrowed(self.copy()));
        }
        match &self.closed[(page.number - self.first()) as usize].place {
            Whereabouts::InMemory(resident) => Ok(Looked::Borrowed(resident)),
            Whereabouts::OnShelf(digests) => self.read_page(alloc, shelf, page, digests),
        }
    }

    // Looks at the pages from one to another, of which none has expired.
    pub(crate) fn looks<H: Shelf>(
        &self,
        alloc: Global,
        shelf: &mut H,
        from: u32,
        last: u32,
    ) -> Result<Vec<Look<'_>>, NoMemory>
        requires prepared { IsPrepared self.now }
        requires stands { (rules : TheRules) × (l : Ledger) × Stands self.now rules l }
        requires near { self.now.catalogue.gone ≤ from }
        requires exists { last ≤ self.now.page.number }
        ensures gets { let before = view_of H.tells H.contents H.faults shelf.old in
            let after = view_of H.tells H.contents H.faults shelf.new in
            Gets before after }
        ensures looked { let before = view_of H.tells H.contents H.faults shelf.old in
            let after = view_of H.tells H.contents H.faults shelf.new in
            IfOk result (λ looks. (rules : TheRules) (l : Ledger) → Stands self.now rules l
            → LooksTo rules l from (last + 1 - from) looks.items before after) }
    {
        let mut looks = Vec::new(alloc);
        'pages: for number in from..last + 1 {
            let page = PageNo { number };
            let looked = self.look(alloc, shelf, page)?;
            looks.push(Look { page, looked })?;
        }
        Ok(looks)
    }
}
