// The machine.
ghost use Rattle.std.specs.Prelude.{◌≡◌, ◌≤◌, ◌<◌, ◌↔◌, ◌⊎◌, ℕ, max, IfOk, OnOk, OnErr, IsSome, IfSome, length, slice_index};
ghost use Rattle.std.specs.List.{Contains};
ghost use Rattle.bloom_page.specs.Bits.{members_of};
ghost use Rattle.spie_base.specs.Shapes.{IsShape};
ghost use Rattle.gate_core.specs.Views.{slot_at, collected_of};
ghost use Rattle.gate_core.specs.Acts.{page_of, numbered, gate_place};
ghost use Rattle.gate_core.specs.Invariant.{PlaneInvariant, IsCollected};
ghost use Rattle.gate_core.specs.Core.{place_of, duties_of, IsLogged, CanStep, Stepped};
ghost use Rattle.gate_core.specs.Start.{start_of};
ghost use Rattle.gate_core.specs.PageWords.{page_words, phase_with, IsSetInside};
ghost use Rattle.hash_family.specs.Entries.{IsMarked};
ghost use Rattle.gate_core.specs.declared.limits.TheConstants.{MOST_PASSES, SLOTS};

use crate::core_data::CoreData;
use crate::initial::first_data;
use crate::{SlotPhase, Step, StepAnswer};
use spie_base::{Entry, NoMemory, PageNo, PageShape};
use std::alloc::Global;
use std::marker::Model;

/// The words of a router's four slots, the keeper and the passes, and what they did so far.
#[derive(Drop)]
pub struct CoreState {
    kept: CoreData,
}

impl Model for CoreState {
    ghost use Rattle.gate_core.specs.Core.{Core};

    ghost Value = { Core };

    ghost use Rattle.gate_core.specs.Kept.{core_of};
    ghost use Rattle.gate_core.specs.Sound.{IsSound};

    ghost view = { λ c. core_of c.kept };

    ghost invariant = { λ c. IsSound c.kept };
}

impl CoreState {
    /// The keeper and this many passes, all idle: slot 0 is current and open with page 0, and the other
    /// three are free. Allocates the words of the slots, and the lists of six pages.
    pub fn start(alloc: Global, shape: PageShape, passes: u32) -> Result<CoreState, NoMemory>
        requires shape { IsShape shape }
        requires some_pass { 1 ≤ passes }
        requires few_passes { passes ≤ MOST_PASSES }
        ensures { IfOk result (λ c. c ≡ start_of shape passes) }
    {
        Ok(CoreState {
            kept: first_data(alloc, shape, passes)?,
        })
    }

    /// Makes room for so many further steps, unless there is as much: places for what they may finish
    /// and note, and words for the pages that they may open. Takes about 80 bytes a step, and five pages; where a
    /// slot has few words, also a list for each so many steps, which is about 150 bytes a step for one word.
    pub fn reserve(&mut self, alloc: Global, steps: usize) -> Result<(), NoMemory>
        ensures ok { OnOk result (self.new ≡ record self.old { room = max self.old.room steps }) }
        ensures err { OnErr result (self.new ≡ self.old) }
    {
        self.kept.reserve(alloc, steps)
    }

    /// Does one act, if it is enabled. Takes no memory. Costs one operation on one word; an `Enter` at an
    /// unsealed gate also works out the k marks, with 7·k multiplications, and an `Open` the page's hash
    /// functions, from 8·k words of the generator.
    pub fn step(&mut self, step: &Step) -> StepAnswer
        requires room { 1 ≤ self.old.room }
        requires able { CanStep self.old step.now }
        ensures { Stepped self.old (place_of step.now.actor) step.now.act self.new result }
    {
        self.kept.act(step)
    }

    /// The finished entries, in the order in which they were finished.
    pub fn entries(&self) -> &[Entry]
        ensures { result.now ≡ self.now.entries }
    {
        self.kept.entries.items.as_slice()
    }

    /// The words of a page of which all are collected. Copies nothing.
    pub fn collected(&self, page: PageNo) -> Option<&[u64]>
        ensures whole { IsSome result ↔ IsCollected self.now.shape (duties_of self.now) page.number }
        ensures words { IfSome result
            (λ words. words.now ≡ collected_of (duties_of self.now) page.number) }

        // Its bits are the marks of its finished entries.
        ensures marks { IfSome result (λ words. (p : ℕ)
            → Contains (members_of words.now) p
            ↔ IsMarked self.now.shape self.now.entries page.number p) }
    {
        self.kept.collected(page)
    }

    /// Where the slot is in its life.
    pub fn phase(&self, slot: u8) -> SlotPhase
        requires { slot < SLOTS }
        ensures { result ≡ (slot_at (duties_of self.now) slot).phase }
    {
        self.kept.desk.slots[usize::from(slot)].phase
    }

    /// Where the page is in its life, while it stands in a slot. Costs a look at four slots.
    pub fn phase_of(&self, page: PageNo) -> Option<SlotPhase>
        ensures { result ≡ phase_with self.now page.number }
    {
        self.kept.phase_of(page)
    }

    /// The page in the slot's gate: the last that was opened there, or 0.
    pub fn slot_page(&self, slot: u8) -> PageNo
        requires { slot < SLOTS }
        ensures gate { result ≡ numbered (page_of (slice_index self.now.words (gate_place slot))) }
        ensures last { result ≡ numbered (slot_at (duties_of self.now) slot).page }
    {
        self.kept.gate_page(slot)
    }

    /// The page that is opened next.
    pub fn next_page(&self) -> PageNo
        ensures { result ≡ numbered (duties_of self.now).next }
    {
        PageNo {
            number: self.kept.desk.next,
        }
    }

    /// How many positions of the page are set, in its collected and its live words together. Costs one
    /// count of bits a word.
    pub fn bits_of(&self, page: PageNo) -> u32
        ensures count { result ≡ length (members_of (page_words self.now page.number)) }

        // They are the marks of its finished entries, and those that records inside have set so far.
        ensures marks { (p : ℕ)
            → Contains (members_of (page_words self.now page.number)) p
            ↔ (IsMarked self.now.shape self.now.entries page.number p
            ⊎ IsSetInside self.now.shape page.number self.now.views p) }
    {
        self.kept.bits_of(page)
    }

    /// The words and the views of every machine meet the plane invariant, and its finished entries are those of the views. It does
    /// nothing: a proof calls it for what it ensures.
    pub fn is_sound(&self)
        ensures invariant { PlaneInvariant self.now.shape self.now.words self.now.views }
        ensures logged { IsLogged self.now }
    {
        let _kept = &self.kept;
    }
}
