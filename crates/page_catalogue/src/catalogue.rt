// The catalogue of one router's pages.
//
// Pages close in order, so a page's number is its place among the closing times, and these ascend. Expired pages
// are a prefix: one number says which they are. So a window is two binary searches, and a barrier's expiry looks
// only at pages that it expires and at the next one.
ghost use Rattle.std.specs.Prelude.{◌≡◌, ◌<◌, ◌≤◌, ◌+◌, ◌-◌, ◌^◌, ◌++◌, ◌∷◌, [], ◌↔◌, ℕ, OnOk, IfOk, MatchOption, length, slice_set, slice_index, is_ok, is_some, true, IsTrue};
ghost use Rattle.page_catalogue.specs.Pages.{is_due, is_in_window, AreAscending};
ghost use Rattle.page_catalogue.specs.Catalogues.{row_of, state_of, why_due, AreExpired, MayMark};
ghost use Rattle.page_catalogue.specs.Private.{IsOld};
ghost use Rattle.page_catalogue.specs.declared.states.PageState.TheVariants.{Sealed};

use crate::states::Place;
use crate::{PageRow, PageState, Why};
use spie_base::{NoMemory, PageNo, PageRange, Rules};
use std::alloc::Global;
use std::marker::Model;

/// The pages of one router, from page 0 on. One is open.
#[derive(Drop)]
pub struct Catalogue {
    rules: Rules,
    closings: Vec<u64>,
    places: Vec<Place>,
    gone: usize,
    clock: u64,
}

impl Model for Catalogue {
    ghost use Rattle.std.specs.Prelude.{◌-◌, length, min, map, vec_len, vec_capacity};
    ghost use Rattle.page_catalogue.specs.Catalogues.{Catalogued};
    ghost use Rattle.page_catalogue.specs.Private.{IsCatalogue, state_in};

    ghost Value = { Catalogued };

    ghost view = { λ c. record {
      rules = c.rules;
      closings = c.closings.items;
      places = map state_in c.places.items;
      gone = c.gone;
      clock = c.clock;
      room = min (vec_capacity c.closings - vec_len c.closings) (vec_capacity c.places - vec_len c.places);
    } };

    ghost invariant = { λ c. IsCatalogue c.rules c.closings.items (length c.places.items) c.gone c.clock };
}

// How many of the times are at most `most`.
fn count_up_to(times: &[u64], most: u64) -> usize
    requires ascend { AreAscending times.now }
    ensures within { result ≤ length times.now }
    ensures counted { (p : ℕ) → p < result → slice_index times.now p ≤ most }
    ensures others { (p : ℕ) → result ≤ p → p < length times.now → most < slice_index times.now p }
{
    times.partition_point(|at| *at <= most)
}

// How many of the times are below `bound`.
fn count_before(times: &[u64], bound: u64) -> usize
    requires ascend { AreAscending times.now }
    ensures within { result ≤ length times.now }
    ensures counted { (p : ℕ) → p < result → slice_index times.now p < bound }
    ensures others { (p : ℕ) → result ≤ p → p < length times.now → bound ≤ slice_index times.now p }
{
    times.partition_point(|at| *at < bound)
}

impl Catalogue {
    /// Page 0, open since 0. Takes no memory yet.
    pub fn start(alloc: Global, rules: &Rules) -> Result<Catalogue, NoMemory>
        ensures some { is_ok result ≡ true }
        ensures begins { IfOk result (λ c. c
            ≡ record { rules = rules.now; closings = []; places = []; gone = 0; clock = 0; room = c.room }) }
    {
        Ok(Catalogue {
            rules: *rules,
            closings: Vec::new(alloc),
            places: Vec::new(alloc),
            gone: 0,
            clock: 0,
        })
    }

    /// Makes room for so many closings. The only call that takes memory.
    pub fn reserve(&mut self, _alloc: Global, more: usize) -> Result<(), NoMemory>
        ensures same { self.new ≡ record self.old { room = self.new.room } }
        ensures grown { self.old.room ≤ self.new.room }
        ensures room { OnOk result (more ≤ self.new.room) }
    {
        self.closings.reserve(more)?;
        self.places.reserve(more)?;
        Ok(())
    }

    /// Closes the open page at this clock, in the trace's unit of time, and opens the next, whose number is the answer.
    /// There must be room for one closing, and the clock may not go back.
    pub fn turn(&mut self, clock: u64) -> PageNo
        requires room { 1 ≤ self.old.room }
        requires fits { length self.old.closings + 1 < 2 ^ 32 - 1 }
        requires later { self.old.clock ≤ clock }
        ensures page { result.number ≡ length self.old.closings + 1 }
        ensures turned { self.new ≡ record self.old {
          closings = self.old.closings ++ clock ∷ [];
          places = self.old.places ++ Sealed ∷ [];
          clock = clock;
          room = self.new.room;
        } }
        ensures room { self.old.room ≤ self.new.room + 1 }
    {
        let (Ok(()), Ok(())) = (self.closings.push(clock), self.places.push(Place::Sealed)) else {
            unreachable!()
        };
        self.clock = clock;
        PageNo {
            number: self.closings.len() as u32,
        }
    }

    /// Why a tick of this time closes the open page, of which `fill` bits are set, if it does. Costs two compares.
    #[tactic(auto, unfolding(crate::specs::Pages::is_due))]
    pub fn due(&self, clock: u64, fill: u32) -> Option<Why>
        requires { self.now.clock ≤ clock }
        ensures why { result ≡ why_due self.now clock fill }
        ensures exact { is_some result ≡ is_due self.now.rules self.now.closings clock fill }
    {
        let opened = match self.closings.last() {
            Some(at) => *at,
            None => 0,
        };
        if clock - opened >= self.rules.span {
            Some(Why::Span)
        } else if fill >= self.rules.limit {
            Some(Why::Limit)
        } else {
            None
        }
    }

    /// When a page opened and closed, and where it is. The page must exist.
    pub fn row(&self, page: PageNo) -> PageRow
        requires { page.number ≤ length self.now.closings }
        ensures { result ≡ row_of self.now page.number }
    {
        let at = page.number as usize;
        PageRow {
            opened: if at == 0 { 0 } else { self.closings[at - 1] },
            closed: self.closings.get(at).copied(),
            state: if at < self.gone {
                PageState::Expired
            } else if at < self.closings.len() {
                self.places[at].state()
            } else {
                PageState::Open
            },
        }
    }

    /// The first and the last page of the window of a time: all between them are in it too. Costs two binary searches.
    pub fn window(&self, time: u64) -> PageRange
        ensures some { result.first.number ≤ result.last.number }
        ensures exists { result.last.number ≤ length self.now.closings }
        ensures exact { (p : ℕ) → (result.first.number ≤ p) × (p ≤ result.last.number)
            ↔ IsTrue (is_in_window self.now.rules self.now.closings time p) }
    {
        let from = time.saturating_sub(self.rules.width);
        let first = count_before(&self.closings, from);
        let last = count_up_to(&self.closings, time);
        PageRange {
            first: PageNo {
                number: first as u32,
            },
            last: PageNo {
                number: last as u32,
            },
        }
    }

    /// Notes that a sealed page was drained, or that a resident one was put on the shelf.
    pub fn mark(&mut self, page: PageNo, state: PageState)
        requires { MayMark (state_of self.old page.number) state }
        ensures { self.new ≡ record self.old { places = slice_set self.old.places page.number state } }
    {
        self.places[page.number as usize] = Place::of(state);
    }

    /// How many pages have expired. They are the first ones, so it is also the number of the first page that has not.
    pub fn expired_count(&self) -> u32
        ensures { result ≡ self.now.gone }
    {
        self.gone as u32
    }

    /// The pages that expire at this clock and had not expired before, where there are any. Costs a few compares for each.
    pub fn expire(&mut self, clock: u64) -> Option<PageRange>
        requires { self.old.clock ≤ clock }
        ensures expired { self.new ≡ record self.old { gone = self.new.gone; clock = clock } }
        ensures exact { AreExpired self.old.rules self.old.closings clock self.new.gone }
        ensures within { self.new.gone ≤ length self.old.closings }
        ensures never_back { self.old.gone ≤ self.new.gone }
        ensures now { MatchOption result (self.new.gone ≡ self.old.gone) (λ r. (r.first.number ≡ self.old.gone)
            × (r.last.number + 1 ≡ self.new.gone) × (self.old.gone < self.new.gone)) }
    {
        let first = self.gone;
        let gone = self.gone_by(clock);
        self.gone = gone;
        self.clock = clock;
        if gone == first {
            return None;
        }
        Some(PageRange {
            first: PageNo {
                number: first as u32,
            },
            last: PageNo {
                number: (gone - 1) as u32,
            },
        })
    }

    // How many pages are expired at this clock.
    fn gone_by(&self, clock: u64) -> usize
        requires { self.now.clock ≤ clock }
        ensures exact { (page : ℕ) → (page < result) ↔ IsOld self.now.rules self.now.closings clock page }
        ensures within { result ≤ length self.now.closings }
        ensures grown { self.now.gone ≤ result }
    {
        let count = self.closings.len();
        let mut gone = self.gone;
        while gone < count
            && (count - (gone + 1) >= self.rules.keep as usize
                || clock - self.closings[gone] >= self.rules.age)
        {
            gone += 1;
        }
        gone
    }
}
