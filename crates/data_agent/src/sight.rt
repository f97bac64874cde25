// What a query sees of a router.
ghost use Rattle.std.specs.Prelude.{◌≡◌, ◌++◌, ◌≤◌, ◌<◌, ◌+◌, ℕ, true, IfOk, OnOk, OnErr};
ghost use Rattle.spie_base.specs.Causes.{RoseBy};
ghost use Rattle.spie_base.specs.declared.Rules.{Rules as TheRules};
ghost use Rattle.page_shelf.specs.Shelves.{IsSame};
ghost use Rattle.router_account.specs.Ledger.{Ledger, Unfinished};
ghost use Rattle.router_account.specs.Readings.{IsReadFrom};
ghost use Rattle.router_account.specs.Records.{Holds, AreTrue, AllFailed};
ghost use Rattle.router_account.specs.Shelves.{view_of};
ghost use Rattle.router_account.specs.Sights.{failures};
ghost use Rattle.packet_signature.specs.Row.{key_of};
ghost use Rattle.transform_table.specs.Tables.{with_key};
ghost use Rattle.std.specs.List.{flat_map};
ghost use Rattle.data_agent.specs.Calls.{MayAsk, IsSeen};
ghost use Rattle.data_agent.specs.Looking.{undone_by};
ghost use Rattle.data_agent.specs.Seeing.{undone_in, shown_by, told_by, expired_in};
ghost use Rattle.data_agent.specs.Planes.{IsPrepared};
ghost use Rattle.data_agent.specs.Standing.{StandsFor};

use crate::Agent;
use crate::looking::{Look, unread_pages, used_pages};
use page_shelf::Shelf;
use router_account::Unreadable;
use spie_base::{List, NoMemory, PageNo, PageRange, Sig, Sighting};
use std::alloc::Global;
use transform_table::Table;
use used_pages::Origins;

/// What a query sees of a router. It borrows the agent's pages, and owns what was read back from the shelf.
#[derive(Drop)]
pub struct Sight<'a> {
    // The pages of the window that have not expired.
    pub(crate) looks: Vec<Look<'a>>,
    // Of pages from the first to the last the rows are used. The table has none of pages on the shelf.
    pub(crate) rows: &'a Table,
    pub(crate) first: u32,
    pub(crate) last: u32,
    pub(crate) expired: Option<PageRange>,
    pub(crate) unreadable: List<Unreadable>,
    pub(crate) used: List<PageNo>,
}

impl<'a> Sight<'a> {
    /// The expired pages of the window.
    pub fn expired(&self) -> Option<PageRange>
        ensures { result ≡ (told_by self.now).expired }
    {
        self.expired
    }

    /// The pages of the window that could not be read, ascending.
    pub fn unreadable(&self) -> &[Unreadable]
        ensures { result.now ≡ (told_by self.now).unreadable }
    {
        self.unreadable.items()
    }

    /// The pages that the query uses, ascending.
    pub fn used(&self) -> &[PageNo]
        ensures { result.now ≡ (told_by self.now).used }
    {
        self.used.items()
    }

    // Adds what the rows of the pages in memory say that a signature was before.
    fn undo(&self, origins: &mut Origins) -> Result<(), NoMemory>
        ensures sig { origins.new.sig ≡ origins.old.sig }
        ensures more { OnOk result (origins.new.olds
            ≡ origins.old.olds ++ undone_in self.now.first self.now.last origins.old.sig
            (with_key (key_of origins.old.sig) self.now.rows.now)) }
    {
        for (page, row) in self.rows.find(origins.key()) {
            if self.first <= page.number && page.number <= self.last {
                origins.add(&row)?;
            }
        }
        Ok(())
    }

    // Adds what the rows that were read back say that a signature was before.
    fn undo_read(&self, origins: &mut Origins) -> Result<(), NoMemory>
        ensures sig { origins.new.sig ≡ origins.old.sig }
        ensures more { OnOk result (origins.new.olds
            ≡ origins.old.olds ++ flat_map (undone_by origins.old.sig) self.now.looks.items) }
    {
        for look in &self.looks {
            look.undo(origins)?;
        }
        Ok(())
    }
}

impl<'a> Sighting for Sight<'a> {
    ghost shown = { shown_by };

    fn hit(&self, sig: &Sig) -> bool {
        for look in &self.looks {
            if look.shows(sig) {
                return true;
            }
        }
        false
    }

    fn origins(&self, alloc: Global, sig: &Sig) -> Result<Vec<Sig>, NoMemory> {
        let mut origins = Origins::of(alloc, sig)?;
        self.undo(&mut origins)?;
        self.undo_read(&mut origins)?;
        Ok(origins.into_ascending())
    }

    fn has_missing(&self) -> bool {
        self.expired.is_some() || !self.unreadable.items().is_empty()
    }
}

// The pages of a window before the first that has not expired.
fn expired_pages(window: PageRange, first: u32) -> Option<PageRange>
    ensures { result ≡ expired_in window.first.number window.last.number first }
{
    if first <= window.first.number {
        return None;
    }
    Some(PageRange {
        first: window.first,
        last: PageNo {
            number: window.last.number.min(first - 1),
        },
    })
}

impl Agent {
    // The table of rows.
    fn table(&self) -> &Table
        ensures { result.now ≡ self.now.table }
    {
        &self.table
    }

    /// What a query for a time sees, behind `prepare`. The sight borrows the pages of the window that are in memory, and
    /// copies none; of the open page it borrows the copy that `prepare` made. It reads those on the shelf back, of each the
    /// bits first, and the rows only where the bits were got.
    pub fn sight<H: Shelf>(
        &self,
        alloc: Global,
        shelf: &mut H,
        time: u64,
    ) -> Result<Sight<'_>, NoMemory>
        requires prepared { IsPrepared self.now }
        requires past { MayAsk (StandsFor self.now) time }
        ensures later { H.faults shelf.old ≤ H.faults shelf.new }
        ensures still { H.tells shelf.new ≡ H.tells shelf.old }
        ensures seen { IfOk result (λ s. (rules : TheRules) (l : Ledger) (u : Unfinished) → StandsFor self.now rules l u
            → IsSeen rules l time (shown_by s) (told_by s)) }
        ensures paid { IfOk result (λ s. RoseBy (failures (told_by s).reading) (H.faults shelf.old)
            (H.faults shelf.new)) }
        ensures all_true { IfOk result (λ s. (rules : TheRules) (l : Ledger) (u : Unfinished)
            → StandsFor self.now rules l u → H.tells shelf.old ≡ true
            → Holds rules (H.contents shelf.old) l → AreTrue rules l.account (told_by s).reading) }
        ensures only_faults { IfOk result (λ s. (rules : TheRules) (l : Ledger) (u : Unfinished)
            → StandsFor self.now rules l u → H.tells shelf.old ≡ true
            → Holds rules (H.contents shelf.old) l → AllFailed (told_by s).reading) }
        ensures read_from { let before = view_of H.tells H.contents H.faults shelf.old in
            let after = view_of H.tells H.contents H.faults shelf.new in
            IfOk result (λ s. (rules : TheRules) (l : Ledger) (u : Unfinished) → StandsFor self.now rules l u
            → IsReadFrom rules l.account before after (told_by s).reading) }
        ensures unchanged { OnOk result (H.tells shelf.old ≡ true
            → IsSame (H.contents shelf.old) (H.contents shelf.new)) }
    {
        let window = self.catalogue.window(time);
        let first = self.first();
        let from = first.max(window.first.number);
        let looks = self.looks(alloc, shelf, from, window.last.number)?;
        Ok(Sight {
            rows: self.table(),
            first: from,
            last: window.last.number,
            expired: expired_pages(window, first),
            unreadable: unread_pages(alloc, &looks)?,
            used: used_pages(alloc, &looks)?,
            looks,
        })
    }
}
