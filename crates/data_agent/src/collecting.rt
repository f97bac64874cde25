// Closed pages leave their slots, also while passes are out: a page is settled, and collected where nobody is inside. With no
// pass out nobody is.
ghost use Rattle.std.specs.Prelude.{◌≡◌, ◌<◌, ◌≤◌, ◌+◌, ◌⊎◌, ℕ, false, true, OnOk};
ghost use Rattle.gate_core.specs.Acts.{IsQuiet};
ghost use Rattle.page_gate.specs.Pages.{phase_with};
ghost use Rattle.page_gate.specs.Slots.{free_count};
ghost use Rattle.data_agent.specs.Archiving.{KeepsStanding};
ghost use Rattle.data_agent.specs.Beside.{MindsPages, out_of};
ghost use Rattle.data_agent.specs.Planes.{AreTaken, CountedSomebody, IsOwnPlane};
ghost use Rattle.data_agent.specs.Standing.{standing};

use crate::closed_page::{ClosedPage, Whereabouts};
use crate::resident::hashes;
use crate::slots::{collect_page, settle_page, settle_until_quiet};
use crate::{Agent, Resident};
use page_gate::{Plane, Settled};
use spie_base::{NoMemory, PageNo};
use std::alloc::Global;
use std::sync::Wait;

impl Agent {
    // The first page that has not expired.
    pub(crate) fn first(&self) -> u32
        ensures { result ≡ self.now.catalogue.gone }
    {
        self.catalogue.expired_count()
    }

    // The first page that stands in a slot: those before it have expired or were collected.
    pub(crate) fn standing(&self) -> u32
        requires { MindsPages self.now }
        ensures { result ≡ standing self.now }
    {
        self.first() + self.closed.len() as u32
    }

    // Looks once whether nobody is inside the page that stands in a slot longest.
    pub(crate) fn is_oldest_quiet(&mut self, plane: &Plane) -> bool
        requires own { IsOwnPlane plane.now self.old }
        requires minds { MindsPages self.old }
        requires some { standing self.old < self.old.page.number }
        ensures own { IsOwnPlane plane.now self.new }
        ensures minds { MindsPages self.new }
        ensures keeps { KeepsStanding self.old self.new }
        ensures standing { standing self.new ≡ standing self.old }
        ensures out { out_of self.new ≡ out_of self.old }
        ensures quiet { result ≡ true → IsQuiet (phase_with self.new.keeper.view.duties (standing self.new)) }
        ensures inside { result ≡ false → CountedSomebody self.new }
        ensures alone { (out_of self.old ≡ 0) → result ≡ true }
    {
        let page = PageNo {
            number: self.standing(),
        };
        settle_page(plane, &mut self.keeper, page) == Settled::Quiet
    }

    // Waits until nobody is inside the page that stands in a slot longest.
    pub(crate) fn wait_for_oldest<R: Wait>(&mut self, rt: &R, plane: &Plane)
        requires own { IsOwnPlane plane.now self.old }
        requires minds { MindsPages self.old }
        requires some { standing self.old < self.old.page.number }
        ensures own { IsOwnPlane plane.now self.new }
        ensures minds { MindsPages self.new }
        ensures keeps { KeepsStanding self.old self.new }
        ensures standing { standing self.new ≡ standing self.old }
        ensures quiet { IsQuiet (phase_with self.new.keeper.view.duties (standing self.new)) }
    {
        let page = PageNo {
            number: self.standing(),
        };
        settle_until_quiet(rt, plane, &mut self.keeper, page);
    }

    // Collects the page that stands in a slot longest. It must be quiet. Takes all memory before the page leaves its slot.
    pub(crate) fn collect_oldest(&mut self, alloc: Global, plane: &Plane) -> Result<(), NoMemory>
        requires own { IsOwnPlane plane.now self.old }
        requires minds { MindsPages self.old }
        requires some { standing self.old < self.old.page.number }
        requires quiet { IsQuiet (phase_with self.old.keeper.view.duties (standing self.old)) }
        ensures own { IsOwnPlane plane.now self.new }
        ensures minds { MindsPages self.new }
        ensures keeps { KeepsStanding self.old self.new }
        ensures one { OnOk result (standing self.new ≡ standing self.old + 1) }
        ensures out { out_of self.new ≡ out_of self.old }
        ensures free { OnOk result (1 ≤ free_count self.new.keeper.view.duties) }
    {
        let page = PageNo {
            number: self.standing(),
        };
        let family = hashes(alloc, &self.rules, self.router, page)?;
        self.closed.reserve(1)?;
        let bits = collect_page(alloc, plane, &mut self.keeper, page)?;
        self.closed.push_back_reserved(ClosedPage {
            place: Whereabouts::InMemory(Resident { family, page: bits }),
            covered: false,
        });
        Ok(())
    }

    // Collects the closed pages that stand in slots, the oldest first, up to one in which somebody is inside. With no pass out
    // these are all.
    pub(crate) fn collect_quiet(&mut self, alloc: Global, plane: &Plane) -> Result<(), NoMemory>
        requires own { IsOwnPlane plane.now self.old }
        requires minds { MindsPages self.old }
        ensures own { IsOwnPlane plane.now self.new }
        ensures minds { MindsPages self.new }
        ensures keeps { KeepsStanding self.old self.new }
        ensures ends { OnOk result (AreTaken self.new ⊎ CountedSomebody self.new) }
        ensures alone { OnOk result ((out_of self.old ≡ 0) → AreTaken self.new) }
    {
        let from = self.standing();
        'pages: for _ in from..self.page.number {
            if !self.is_oldest_quiet(plane) {
                return Ok(());
            }
            self.collect_oldest(alloc, plane)?;
        }
        Ok(())
    }
}
