// Chains of places, each place in one of them.
ghost use Rattle.std.specs.Prelude.{◌≡◌, ◌≢◌, ℕ, ◌<◌, ◌+◌, List, [], ◌∷◌, ◌++◌, length, Option, Some, None, OnOk, OnErr};
ghost use Rattle.index_rings.specs.Rings.{next_of, prev_of, Inverse, IsChain, Lacks, Distinct, without, first_or};

use crate::link::Link;
use crate::links::{cut, first_left, join_before};
use std::alloc::{AllocError, Global};

/// Places linked into chains: each place has a next one and a previous one, and stands in one chain.
#[derive(Drop)]
pub struct Rings {
    links: Vec<Link>,
    ghost turns: { Inverse (next_of links.items) (prev_of links.items) },
}

impl Rings {
    /// No places.
    pub fn new(alloc: Global) -> Rings
        ensures { result.links.items ≡ [] }
    {
        Rings {
            links: Vec::new(alloc),
        }
    }

    /// How many places there are.
    pub fn len(&self) -> usize
        ensures { result ≡ length self.now.links.items }
    {
        self.links.len()
    }

    /// Adds one place, which stands alone.
    pub fn add_place(&mut self) -> Result<(), AllocError>
        ensures more { OnOk result (length self.new.links.items ≡ length self.old.links.items + 1) }
        ensures less { OnErr result (length self.new.links.items ≡ length self.old.links.items) }
        ensures next { (x : ℕ) → next_of self.new.links.items x ≡ next_of self.old.links.items x }
    {
        let place = self.links.len();
        self.links.push(Link {
            next: place,
            prev: place,
        })?;
        Ok(())
    }

    /// The place behind this one, which is itself where it has no link.
    pub fn next(&self, place: usize) -> usize
        ensures { result ≡ next_of self.now.links.items place }
    {
        match self.links.get(place) {
            None => place,
            Some(link) => link.next,
        }
    }

    /// Links a place that stands alone in at the end of the chain that begins at `first`, and gives the
    /// chain's first place.
    pub fn link_last(&mut self, first: Option<usize>, place: usize) -> usize
        requires place { place < length self.old.links.items }
        requires single { next_of self.old.links.items place ≡ place }
        requires first { (f : ℕ) → first ≡ Some f → (f < length self.old.links.items) × (f ≢ place) }
        ensures len { length self.new.links.items ≡ length self.old.links.items }
        ensures chain { (xs : List ℕ) → Distinct xs → Lacks xs place → IsChain (next_of self.old.links.items) first xs
            → IsChain (next_of self.new.links.items) (Some result) (xs ++ place ∷ []) }
        ensures others { (other : Option ℕ) → (ys : List ℕ) → Lacks ys result → Lacks ys place → IsChain (next_of self.old.links.items) other ys
            → IsChain (next_of self.new.links.items) other ys }
        ensures alone { (x : ℕ) → x ≢ place → first ≢ Some x → next_of self.old.links.items x ≡ x → next_of self.new.links.items x ≡ x }
        ensures first { result ≡ first_or first place }
    {
        match first {
            None => place,
            Some(first) => {
                join_before(&mut self.links, first, place);
                first
            }
        }
    }

    /// Takes a place out of the chain that begins at `first`, and gives the first place of what is left of it.
    /// The place stands alone then.
    pub fn unlink(&mut self, first: usize, place: usize) -> Option<usize>
        requires { place < length self.old.links.items }
        ensures len { length self.new.links.items ≡ length self.old.links.items }
        ensures chain { (xs : List ℕ) → Distinct xs → IsChain (next_of self.old.links.items) (Some first) xs
            → IsChain (next_of self.new.links.items) result (without place xs) }
        ensures others { (other : Option ℕ) → (ys : List ℕ) → Lacks ys place → IsChain (next_of self.old.links.items) other ys
            → IsChain (next_of self.new.links.items) other ys }
        ensures alone { (x : ℕ) → next_of self.old.links.items x ≡ x → next_of self.new.links.items x ≡ x }
        ensures single { next_of self.new.links.items place ≡ place }
    {
        let next = cut(&mut self.links, place);
        first_left(first, place, next)
    }
}
