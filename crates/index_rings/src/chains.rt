ghost use Rattle.std.specs.Prelude.{◌≡◌, ◌≢◌, ℕ, ◌<◌, ◌≤◌, ◌+◌, List, [], ◌∷◌, ◌++◌, length, Option, Some, None, IfOk, OnOk, OnErr, slice_index};
ghost use Rattle.index_rings.specs.Rings.{next_of, Lacks, Distinct, without, first_or};
ghost use Rattle.index_rings.specs.Walk.{places_left};
ghost use Rattle.index_rings.specs.Orders.{first_of, AreChains, labelled, chains_in, places_in, first_in, Holds};

use crate::Places;
use crate::rings::Rings;
use std::alloc::{AllocError, Global};

/// Numbered chains, each with its first place. A place stands in one chain at most.
#[derive(Drop)]
pub struct Chains {
    pub(crate) rings: Rings,
    pub(crate) firsts: Vec<Option<usize>>,
}

impl Chains {
    /// No chains and no places.
    pub fn new(alloc: Global) -> Chains
        ensures chains { chains_in result ≡ 0 }
        ensures places { places_in result ≡ 0 }
        ensures holds { (label : ℕ → ℕ) → Holds result label [] }
    {
        Chains {
            rings: Rings::new(alloc),
            firsts: Vec::new(alloc),
        }
    }

    /// So many chains without a place.
    pub fn with_chains(alloc: Global, count: usize) -> Result<Chains, AllocError>
        ensures chains { IfOk result (λ made. chains_in made ≡ count) }
        ensures places { IfOk result (λ made. places_in made ≡ 0) }
        ensures holds { IfOk result (λ made. (label : ℕ → ℕ) → Holds made label []) }
    {
        let mut made = Chains::new(alloc);
        for _chain in 0..count {
            made.add_chain()?;
        }
        Ok(made)
    }

    /// How many chains there are.
    pub fn len(&self) -> usize
        ensures { result ≡ chains_in self.now }
    {
        self.firsts.len()
    }

    /// Adds an empty chain, whose number is the next one. After an `Err` nothing has changed.
    pub fn add_chain(&mut self) -> Result<(), AllocError>
        ensures more { OnOk result (chains_in self.new ≡ chains_in self.old + 1) }
        ensures places { places_in self.new ≡ places_in self.old }
        ensures kept { (label : ℕ → ℕ) → (order : List ℕ) → Holds self.old label order → Holds self.new label order }
        ensures same { OnErr result (chains_in self.new ≡ chains_in self.old) }
    {
        self.firsts.push(None)?;
        Ok(())
    }

    /// Adds empty chains, until there is this one. All chains stay, also where it fails.
    pub fn cover_chain(&mut self, chain: usize) -> Result<(), AllocError>
        ensures room { OnOk result (chain < chains_in self.new) }
        ensures places { places_in self.new ≡ places_in self.old }
        ensures more { chains_in self.old ≤ chains_in self.new }
        ensures kept { (label : ℕ → ℕ) → (order : List ℕ) → Holds self.old label order → Holds self.new label order }
    {
        while self.firsts.len() <= chain {
            self.add_chain()?;
        }
        Ok(())
    }

    /// Adds places that stand in no chain, until there is this one. All chains stay, also where it fails.
    pub fn cover_place(&mut self, place: usize) -> Result<(), AllocError>
        ensures room { OnOk result (place < places_in self.new) }
        ensures chains { chains_in self.new ≡ chains_in self.old }
        ensures firsts { (chain : ℕ) → first_in self.new chain ≡ first_in self.old chain }
        ensures longer { places_in self.old ≤ places_in self.new }
        ensures kept { (label : ℕ → ℕ) → (order : List ℕ) → Holds self.old label order → Holds self.new label order }
    {
        while self.rings.len() <= place {
            self.rings.add_place()?;
        }
        Ok(())
    }

    /// The first place of a chain.
    pub fn first(&self, chain: usize) -> Option<usize>
        requires { chain < chains_in self.now }
        ensures { result ≡ first_in self.now chain }
    {
        self.firsts[chain]
    }

    /// The places of a chain, in order, `most` of them at most.
    pub fn places(&self, chain: usize, most: usize) -> Places<'_>
        requires { chain < chains_in self.now }
        ensures all { (label : ℕ → ℕ) → (order : List ℕ) → Distinct order → length order ≤ most
            → Holds self.now label order → places_left result ≡ labelled label chain order }
    {
        let first = self.firsts[chain];
        Places {
            rings: &self.rings,
            first: place_or_zero(first),
            most,
            at: first,
        }
    }

    /// Links a place that stands in no chain at the end of one. Costs one write of three links.
    pub fn append(&mut self, chain: usize, place: usize)
        requires chain { chain < chains_in self.old }
        requires place { place < places_in self.old }
        requires free { (label : ℕ → ℕ) × (order : List ℕ) × Holds self.old label order × Lacks order place }
        ensures chains { chains_in self.new ≡ chains_in self.old }
        ensures places { places_in self.new ≡ places_in self.old }
        ensures appended { (label : ℕ → ℕ) → (order : List ℕ) → Distinct order → Lacks order place → label place ≡ chain
            → Holds self.old label order → Holds self.new label (order ++ place ∷ []) }
    {
        self.link(chain, place);
    }

    /// Takes a place out of its chain, so that it stands in none. Costs one write of three links.
    pub fn take_out(&mut self, chain: usize, place: usize)
        requires chain { chain < chains_in self.old }
        requires place { place < places_in self.old }
        ensures chains { chains_in self.new ≡ chains_in self.old }
        ensures places { places_in self.new ≡ places_in self.old }
        ensures taken { (label : ℕ → ℕ) → (order : List ℕ) → Distinct order → (Lacks order place → ⊥) → label place ≡ chain
            → Holds self.old label order → Holds self.new label (without place order) }
    {
        self.unlink(chain, place);
    }

    // Links a place at the end of a chain.
    fn link(&mut self, chain: usize, place: usize)
        requires chain { chain < length self.old.firsts.items }
        requires place { place < length self.old.rings.links.items }
        requires single { next_of self.old.rings.links.items place ≡ place }
        requires first { (f : ℕ) → first_of self.old.firsts.items chain ≡ Some f → (f < length self.old.rings.links.items) × (f ≢ place) }
        ensures chains { length self.new.firsts.items ≡ length self.old.firsts.items }
        ensures places { length self.new.rings.links.items ≡ length self.old.rings.links.items }
        ensures linked { (label : ℕ → ℕ) → (order : List ℕ) → Distinct order → Lacks order place → label place ≡ chain
            → AreChains (next_of self.old.rings.links.items) (first_of self.old.firsts.items) label order
            → AreChains (next_of self.new.rings.links.items) (first_of self.new.firsts.items) label (order ++ place ∷ []) }
        ensures alone { (x : ℕ) → x ≢ place → first_of self.old.firsts.items chain ≢ Some x → next_of self.old.rings.links.items x ≡ x
            → next_of self.new.rings.links.items x ≡ x }
    {
        let first = self.firsts[chain];
        let first = self.rings.link_last(first, place);
        self.firsts[chain] = Some(first);
    }

    // Takes a place out of its chain.
    fn unlink(&mut self, chain: usize, place: usize)
        requires chain { chain < length self.old.firsts.items }
        requires place { place < length self.old.rings.links.items }
        ensures chains { length self.new.firsts.items ≡ length self.old.firsts.items }
        ensures places { length self.new.rings.links.items ≡ length self.old.rings.links.items }
        ensures unlinked { (label : ℕ → ℕ) → (order : List ℕ) → Distinct order → label place ≡ chain
            → AreChains (next_of self.old.rings.links.items) (first_of self.old.firsts.items) label order
            → AreChains (next_of self.new.rings.links.items) (first_of self.new.firsts.items) label (without place order) }
        ensures alone { (x : ℕ) → next_of self.old.rings.links.items x ≡ x → next_of self.new.rings.links.items x ≡ x }
        ensures single { first_of self.old.firsts.items chain ≢ None → next_of self.new.rings.links.items place ≡ place }
    {
        let first = self.firsts[chain];
        match first {
            None => (),
            Some(first) => {
                let left = self.rings.unlink(first, place);
                self.firsts[chain] = left;
            }
        }
    }
}

// The place, or any where there is none.
fn place_or_zero(place: Option<usize>) -> usize
    ensures { (x : ℕ) → place ≡ Some x → result ≡ x }
{
    match place {
        None => 0,
        Some(x) => x,
    }
}
