// The agent of one router, and recording.
//
// The open page and the closed ones that were not collected yet stand in slots of the plane. The agent has a place for each closed page
// that was collected and has not expired, in order, so a page's number is its place behind the expired ones; the numbers
// behind the last place are those of pages that stand in slots.
ghost use Rattle.std.specs.Prelude.{◌≡◌, ◌<◌, ◌≤◌, ◌+◌, ◌-◌, ◌^◌, ◌++◌, ◌∷◌, [], ℕ, IfOk, OnOk, OnErr, length};
ghost use Rattle.spie_base.specs.Shapes.{AreInRange, shape_of};
ghost use Rattle.archive_record.specs.Spelling.{AreBytes, IsPlainRow};
ghost use Rattle.spie_base.specs.declared.Rules.{Rules as TheRules};
ghost use Rattle.page_catalogue.specs.Pages.{open_page};
ghost use Rattle.page_gate.specs.Held.{PlaneId};
ghost use Rattle.router_account.specs.Ledger.{Ledger, Unfinished, first_ledger, nothing_unfinished, recorded_in, changed_in};
ghost use Rattle.data_agent.specs.Calls.{IsNear};
ghost use Rattle.data_agent.specs.Planes.{IsOwnPlane, entries_of};
ghost use Rattle.data_agent.specs.Standing.{StandsFor};

use crate::Resident;
use crate::archival::Note;
use crate::closed_page::ClosedPage;
use packet_signature::{Row, RowData};
use page_catalogue::Catalogue;
use page_gate::{Keeper, Plane};
use spie_base::{NoMemory, PageNo, PageShape, RouterId, Rules, Sig};
use std::alloc::Global;
use std::collections::VecDeque;
use transform_table::Table;

/// One router's pages and transforms, beside the plane on which it works.
#[derive(Drop)]
pub struct Agent {
    pub(crate) rules: Rules,
    pub(crate) router: RouterId,
    pub(crate) catalogue: Catalogue,
    // The open page.
    pub(crate) page: PageNo,
    pub(crate) keeper: Keeper,
    // At least as many bits as are set in the open page.
    pub(crate) marked: u32,
    // Of the pages from the first one on those that were collected.
    pub(crate) closed: VecDeque<ClosedPage>,
    // The rows of the pages in the plane and in memory.
    pub(crate) table: Table,
    // What the segment's archival covers, where one came.
    pub(crate) noted: Option<Vec<Note>>,
    // A copy of the open page, which sights borrow.
    pub(crate) copied: Option<Resident>,
}

// Bytes have their length by their type.
fn are_bytes(bytes: &[u8])
    ensures { AreBytes bytes.now }
{}

fn has_four(bytes: &[u8; 4])
    ensures length { length bytes.now ≡ 4 }
    ensures bytes { AreBytes bytes.now }
{
    are_bytes(&bytes[..4]);
}

fn has_all(bytes: &[u8; 28])
    ensures length { length bytes.now ≡ 28 }
    ensures bytes { AreBytes bytes.now }
{
    are_bytes(&bytes[..28]);
}

// A row fits in a record, by its type.
fn is_plain(row: &Row)
    ensures { IsPlainRow row.now }
{
    let _key = row.key;
    match &row.old {
        RowData::Direct(bytes) => has_four(bytes),
        RowData::Indirect(sig) => has_all(&sig.bytes),
    }
}

// The shape of a router's pages.
fn shape_of(rules: &Rules, router: RouterId) -> PageShape
    ensures { result ≡ shape_of rules.now router.number }
{
    PageShape {
        k: rules.k,
        n: rules.n,
        base: rules.base,
        router,
    }
}

impl Agent {
    /// A plane, and the agent that works on it, which has recorded nothing. Its page 0 is open, since 0. Takes the memory for four
    /// slots of 2^(n-6) words, once.
    pub fn open(alloc: Global, router: RouterId, rules: &Rules) -> Result<(Plane, Agent), NoMemory>
        requires router { router.number < 64 }
        requires rules { AreInRange rules.now.k rules.now.n }
        ensures first { IfOk result (λ r. StandsFor r.1 rules.now (first_ledger router.number) nothing_unfinished) }
        ensures own { IfOk result (λ r. IsOwnPlane r.0 r.1) }
        ensures shape { IfOk result (λ r. r.0.shape ≡ shape_of rules.now router.number) }
        ensures entries { IfOk result (λ r. entries_of r.1 ≡ []) }
    {
        let (plane, keeper) = Plane::open(alloc, shape_of(rules, router))?;
        let agent = Agent {
            rules: *rules,
            router,
            catalogue: Catalogue::start(alloc, rules)?,
            page: PageNo { number: 0 },
            keeper,
            marked: 0,
            closed: VecDeque::new(alloc),
            table: Table::new(alloc)?,
            noted: None,
            copied: None,
        };
        Ok((plane, agent))
    }

    /// Records a signature in the open page, and answers its number. Costs what `Plane::record_alone` does, and takes no
    /// memory.
    pub fn forward(&mut self, plane: &Plane, sig: &Sig) -> PageNo
        requires own { IsOwnPlane plane.now self.old }
        requires stands { (rules : TheRules) × (l : Ledger) × (u : Unfinished) × StandsFor self.old rules l u }
        ensures own { IsOwnPlane plane.now self.new }
        ensures entries { entries_of self.new ≡ entries_of self.old ++ record { page = result; sig = sig.now } ∷ [] }
        ensures page { (rules : TheRules) (l : Ledger) (u : Unfinished) → StandsFor self.old rules l u
            → result.number ≡ open_page l.account.closings }
        ensures recorded { (rules : TheRules) (l : Ledger) (u : Unfinished) → StandsFor self.old rules l u
            → StandsFor self.new rules (recorded_in l (open_page l.account.closings) sig.now) u }
    {
        let page = plane.record_alone(&mut self.keeper, sig);
        self.copied = None;
        self.marked = self.marked.saturating_add(u32::from(self.rules.k));
        page
    }

    /// Adds the row of a transform whose packet was recorded in a page. Costs what the table of rows says of `add`.
    pub fn transform(&mut self, alloc: Global, page: PageNo, row: &Row) -> Result<(), NoMemory>
        requires near { (rules : TheRules) × (l : Ledger) × (u : Unfinished) × StandsFor self.old rules l u
            × IsNear rules l page.number row.now }
        ensures own { (plane : PlaneId) → IsOwnPlane plane self.old → IsOwnPlane plane self.new }
        ensures entries { entries_of self.new ≡ entries_of self.old }
        ensures changed { OnOk result ((rules : TheRules) (l : Ledger) (u : Unfinished) → StandsFor self.old rules l u
            → StandsFor self.new rules (changed_in l page.number row.now) u) }
        ensures same { OnErr result ((rules : TheRules) (l : Ledger) (u : Unfinished) → StandsFor self.old rules l u
            → StandsFor self.new rules l u) }
    {
        is_plain(row);
        self.table.add(alloc, page, row)
    }
}
