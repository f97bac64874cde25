ghost use Rattle.std.specs.Prelude.{◌≡◌, ◌≤◌, ◌<◌, ◌-◌, ◌^◌, ◌↔◌, ◌⊎◌, ℕ, [], All, IfOk, IsTrue, length, take, vec_len};
ghost use Rattle.std.specs.List.{Contains};
ghost use Rattle.std.specs.List.Sorted.{IsStrictlyIncreasing};
ghost use Rattle.bloom_page.specs.Bits.{members_of};
ghost use Rattle.bloom_page.specs.Sets.{are_in, united, words_of};

use crate::words::{are_set, gives_back, listed, ones_in, set_marks, zeros};
use spie_base::{K_MOST, Marks, N_LEAST, N_MOST, NoMemory};
use std::alloc::Global;
use std::marker::Model;

/// A set of positions below 2^n, for n from `N_LEAST` to `N_MOST`: one bit for each position, 8 KiB at n 16.
#[derive(Drop)]
pub struct Page {
    words: Vec<u64>,
    n: u8,
}

impl Model for Page {
    ghost use Rattle.bloom_page.specs.Bits.{members_of};
    ghost use Rattle.bloom_page.specs.Sets.{PageSet, HasWords};

    ghost Value = { PageSet };

    ghost view = { λ page. record { n = page.n; members = members_of page.words.items } };

    ghost invariant = { λ page. HasWords page.n page.words.items };
}

impl Page {
    /// No position is set. Allocates the 2^(n-6) words.
    pub fn empty(alloc: Global, n: u8) -> Result<Page, NoMemory>
        requires n_least { N_LEAST ≤ n }
        requires n_most { n ≤ N_MOST }
        ensures { IfOk result (λ page. page ≡ record { n = n; members = [] }) }
    {
        Ok(Page {
            words: zeros(alloc, n)?,
            n,
        })
    }

    /// The page that has these words. Copies nothing.
    pub fn from_words(words: Vec<u64>, n: u8) -> Page
        requires n_least { N_LEAST ≤ n }
        requires n_most { n ≤ N_MOST }
        requires count { vec_len words ≡ 2 ^ (n - 6) }
        ensures bits { result ≡ record { n = n; members = members_of words.items } }
        ensures words { words_of result ≡ words.items }
    {
        gives_back(&words, n);
        Page { words, n }
    }

    /// Adds the marks. Costs one word a mark.
    pub fn insert(&mut self, marks: &Marks)
        requires few { marks.now.count ≤ K_MOST }
        requires below { All (λ p. p < 2 ^ self.old.n) (take marks.now.count marks.now.at) }
        ensures exact { self.new ≡ united self.old (take marks.now.count marks.now.at) }
        ensures size { self.new.n ≡ self.old.n }
        ensures union { (p : ℕ) → Contains self.new.members p
            ↔ (Contains self.old.members p ⊎ Contains (take marks.now.count marks.now.at) p) }
    {
        set_marks(&mut self.words, marks);
    }

    /// Whether all the marks are members. Costs one word a mark at most.
    pub fn has(&self, marks: &Marks) -> bool
        requires few { marks.now.count ≤ K_MOST }
        requires below { All (λ p. p < 2 ^ self.now.n) (take marks.now.count marks.now.at) }
        ensures exact { result ≡ are_in self.now.members (take marks.now.count marks.now.at) }
        ensures inclusion { IsTrue result ↔ All (Contains self.now.members) (take marks.now.count marks.now.at) }
    {
        are_set(&self.words, listed(marks))
    }

    /// The number of bits of a position: there are 2^n positions.
    pub fn n(&self) -> u8
        ensures { result ≡ self.now.n }
    {
        self.n
    }

    /// How many positions are members. Costs one count of bits a word.
    pub fn fill(&self) -> u32
        ensures { result ≡ length self.now.members }
    {
        ones_in(&self.words)
    }

    /// The words, of which position p is bit p mod 64 of word p/64. Copies nothing.
    pub fn words(&self) -> &[u64]
        ensures exact { result.now ≡ words_of self.now }
        ensures count { length result.now ≡ 2 ^ (self.now.n - 6) }
        ensures bits { members_of result.now ≡ self.now.members }
        ensures ascending { IsStrictlyIncreasing self.now.members }
        ensures below { All (λ p. p < 2 ^ self.now.n) self.now.members }
    {
        gives_back(&self.words, self.n);
        &self.words
    }

    /// An equal page. Allocates and copies the words.
    pub fn copy(&self, alloc: Global) -> Result<Page, NoMemory>
        ensures { IfOk result (λ page. page ≡ self.now) }
    {
        Ok(Page {
            words: Vec::from_slice(alloc, &self.words)?,
            n: self.n,
        })
    }
}
