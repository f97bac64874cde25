// Whether a signature was recorded in the pages that are in the plane or in memory.
ghost use Rattle.std.specs.Prelude.{◌≡◌, ◌≤◌, ◌<◌, ℕ, nat_lt, Some, List};
ghost use Rattle.spie_base.specs.declared.Rules.{Rules as TheRules};
ghost use Rattle.gate_core.specs.declared.view.Probed.{Probed};
ghost use Rattle.router_account.specs.declared.words.Watch.TheVariants.{Seen};
ghost use Rattle.router_account.specs.Ledger.{Ledger, Unfinished};
ghost use Rattle.router_account.specs.Watches.{watch_of};
ghost use Rattle.bloom_page.specs.Sets.{is_in};
ghost use Rattle.data_agent.specs.Beside.{Away, KeepsReads, StandsBeside};
ghost use Rattle.data_agent.specs.BesideWatches.{IsSeenBeside, IsUnseenBeside, StandsAnyhow};
ghost use Rattle.data_agent.specs.Planes.{IsOwnPlane, entries_of};
ghost use Rattle.data_agent.specs.Probing.{HasNoted, IsNeverSeen, IsSeenOnce, place_of};
ghost use Rattle.data_agent.specs.Standing.{StandsAmid, StandsFor, standing};
ghost use Rattle.data_agent.specs.Watching.{HasPlaces, IsLacking, IsLackingHere, TellsMemory, TellsPage, TellsShelf, TellsWatch, shows_now};

use crate::Agent;
use crate::closed_page::Whereabouts;
use crate::slots::probe_page;
use page_gate::Plane;
use router_account::Watch;
use spie_base::{PageNo, PageRange, Sig};

impl Agent {
    // Whether a page that has not expired was collected.
    fn is_collected(&self, page: u32) -> bool
        requires places { HasPlaces self.now }
        requires near { self.now.catalogue.gone ≤ page }
        ensures { result ≡ nat_lt page (standing self.now) }
    {
        page < self.first() + self.closed.len() as u32
    }

    // Where a page is that was collected and has not expired.
    fn place(&self, page: u32) -> &Whereabouts
        requires places { HasPlaces self.now }
        requires near { self.now.catalogue.gone ≤ page }
        requires collected { page < standing self.now }
        ensures here { place_of self.now page ≡ Some result.now }
    {
        &self.closed[(page - self.first()) as usize].place
    }

    // Whether such a page is on the shelf.
    fn is_shelved(&self, page: u32) -> bool
        requires places { HasPlaces self.now }
        requires near { self.now.catalogue.gone ≤ page }
        requires collected { page < standing self.now }
        ensures shelf { TellsShelf self.now page result }
        ensures put { (rules : TheRules) (l : Ledger) → StandsAmid self.now rules l → result ≡ is_in l.put_before page }
    {
        match self.place(page) {
            Whereabouts::InMemory(_) => false,
            Whereabouts::OnShelf(_) => true,
        }
    }

    // Whether it is in memory and shows a signature.
    fn shows_here(&self, page: u32, sig: &Sig) -> bool
        requires places { HasPlaces self.now }
        requires near { self.now.catalogue.gone ≤ page }
        requires collected { page < standing self.now }
        ensures memory { TellsMemory self.now page sig.now result }
        ensures shows { (rules : TheRules) (l : Ledger) → StandsAmid self.now rules l
            → result ≡ shows_now rules l sig.now page }
    {
        match self.place(page) {
            Whereabouts::InMemory(resident) => resident.has(sig),
            Whereabouts::OnShelf(_) => false,
        }
    }

    // The same of any page that has not expired. One that stands in a slot is probed there.
    fn shows(&mut self, plane: &Plane, page: u32, sig: &Sig) -> bool
        requires own { IsOwnPlane plane.now self.old }
        requires places { HasPlaces self.old }
        requires near { self.old.catalogue.gone ≤ page }
        requires exists { page ≤ self.old.page.number }
        ensures own { IsOwnPlane plane.now self.new }
        ensures read { (reads : List Probed) × HasNoted self.old self.new reads
            × TellsPage self.old reads page sig.now result }
        ensures shows { (rules : TheRules) (l : Ledger) → StandsAmid self.old rules l
            → result ≡ shows_now rules l sig.now page }
        ensures amid { (rules : TheRules) (l : Ledger) → StandsAmid self.old rules l → StandsAmid self.new rules l }
    {
        if self.is_collected(page) {
            return self.shows_here(page, sig);
        }
        probe_page(plane, &mut self.keeper, PageNo { number: page }, sig)
    }

    // Whether a page of a window has expired or is on the shelf.
    fn lacks(&self, window: &PageRange) -> bool
        requires places { HasPlaces self.now }
        requires some { window.now.first.number ≤ window.now.last.number }
        requires exists { window.now.last.number ≤ self.now.page.number }
        ensures here { IsLackingHere self.now window.now.first.number window.now.last.number result }
        ensures lacking { (rules : TheRules) (l : Ledger) → StandsAmid self.now rules l
            → IsLacking rules l window.now.first.number window.now.last.number result }
    {
        let first = self.first();
        if window.first.number < first {
            return true;
        }
        let end = (first + self.closed.len() as u32).min(window.last.number + 1);
        'pages: for page in window.first.number..end {
            if self.is_shelved(page) {
                return true;
            }
        }
        false
    }

    // What a watch answers, by where the agent's pages are.
    fn look_through(&mut self, plane: &Plane, clock: u64, sig: &Sig) -> Watch
        requires own { IsOwnPlane plane.now self.old }
        requires places { HasPlaces self.old }
        ensures own { IsOwnPlane plane.now self.new }
        ensures watched { (reads : List Probed) × HasNoted self.old self.new reads
            × TellsWatch self.old reads clock sig.now result }
        ensures seen { (rules : TheRules) (l : Ledger) → StandsAmid self.old rules l
            → result ≡ watch_of rules l clock sig.now }
        ensures amid { (rules : TheRules) (l : Ledger) → StandsAmid self.old rules l → StandsAmid self.new rules l }
    {
        let window = self.catalogue.window(clock);
        let first = self.first();
        'pages: for page in first.max(window.first.number)..window.last.number + 1 {
            if self.shows(plane, page, sig) {
                return Watch::Seen;
            }
        }
        if self.lacks(&window) {
            Watch::Unknown
        } else {
            Watch::NotSeen
        }
    }

    /// Whether a signature was recorded in the pages of the window at a clock that are in the plane or in memory. Of the open
    /// page and of closed ones that stand in slots it probes the marked words in the plane, of others it looks into the page; it
    /// copies none. Beside passes it may see what they recorded, and sees all that was gathered. Costs up to k loads for each
    /// page, and for each but the open one that stands in a slot 8·k words of the generator, as the next record does then.
    /// Takes no memory.
    pub fn watch(&mut self, plane: &Plane, clock: u64, sig: &Sig) -> Watch
        requires own { IsOwnPlane plane.now self.old }
        requires stands { StandsAnyhow self.old }
        ensures own { IsOwnPlane plane.now self.new }
        ensures entries { entries_of self.new ≡ entries_of self.old }
        ensures seen { (rules : TheRules) (l : Ledger) (u : Unfinished) → StandsFor self.old rules l u
            → result ≡ watch_of rules l clock sig.now }
        ensures same { (rules : TheRules) (l : Ledger) (u : Unfinished) → StandsFor self.old rules l u
            → StandsFor self.new rules l u }
        ensures probed_seen { result ≡ Seen
            → (reads : List Probed) × HasNoted self.old self.new reads × IsSeenOnce self.old reads clock sig.now }
        ensures probed_unseen { (result ≡ Seen → ⊥)
            → (reads : List Probed) × HasNoted self.old self.new reads × IsNeverSeen self.old reads clock sig.now }
        ensures beside_seen { (rules : TheRules) (l : Ledger) (u : Unfinished) (away : Away)
            → StandsBeside self.old rules l u away
            → result ≡ Seen → IsSeenBeside rules l clock sig.now self.new }
        ensures beside_unseen { (rules : TheRules) (l : Ledger) (u : Unfinished) (away : Away)
            → StandsBeside self.old rules l u away
            → (result ≡ Seen → ⊥) → IsUnseenBeside rules l clock sig.now result }
        ensures beside_same { (rules : TheRules) (l : Ledger) (u : Unfinished) (away : Away)
            → StandsBeside self.old rules l u away
            → StandsBeside self.new rules l u away }
        ensures reads { KeepsReads self.old self.new }
    {
        self.look_through(plane, clock, sig)
    }
}
