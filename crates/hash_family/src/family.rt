ghost use Rattle.std.specs.Prelude.{◌≡◌, ◌≤◌, ◌<◌, ◌^◌, ◌/◌, ◌-◌, All, map, take};
ghost use Rattle.std.specs.List.{range_with_len};
ghost use Rattle.hash_family.specs.Positions.{sig_word, positions_by, placed_by};
ghost use Rattle.hash_family.specs.Rows.{weighed};

use crate::seeds::next_row;
use rand_core::SeedableRng;
use rand_xoshiro::SplitMix64;
use spie_base::{K_MOST, Marks, N_LEAST, N_MOST, Sig};
use std::marker::Model;

/// The hash functions of a page: for each mark a row of eight coefficients. 528 bytes, whatever the
/// number of marks.
#[derive(Drop)]
pub struct Family {
    seed: u64,
    rows: [[u64; 8]; 8],
    k: u8,
    n: u8,
}

impl Model for Family {
    ghost use Rattle.hash_family.specs.Positions.{Drawn};
    ghost use Rattle.hash_family.specs.Rows.{IsDrawn};

    ghost Value = { Drawn };

    ghost view = { λ f. record { seed = f.seed; k = f.k; n = f.n } };

    ghost invariant = { λ f. IsDrawn f.seed f.k f.n f.rows };
}

impl Family {
    /// The hash functions that a page's seed gives, for `k` marks of `n` bits. Costs 8·k words of the
    /// generator, and takes no memory.
    pub fn of(seed: u64, k: u8, n: u8) -> Family
        requires k_least { 1 ≤ k }
        requires k_most { k ≤ K_MOST }
        requires n_least { N_LEAST ≤ n }
        requires n_most { n ≤ N_MOST }
        ensures { result ≡ record { seed = seed; k = k; n = n } }
    {
        let mut generator = SplitMix64::seed_from_u64(seed);
        let mut rows = [[0; 8]; 8];
        for i in 0..usize::from(k) {
            rows[i] = next_row(&mut generator);
        }
        Family { seed, rows, k, n }
    }

    /// The marks of a signature. Costs 7·k multiplications, and takes no memory.
    pub fn positions(&self, sig: &Sig) -> Marks
        ensures exact { result ≡ placed_by self.now sig.now }
        ensures count { result.count ≡ self.now.k }
        ensures few { result.count ≤ K_MOST }
        ensures marks { take result.count result.at ≡ positions_by self.now sig.now }
        ensures below { All (λ p. p < 2 ^ self.now.n) (take result.count result.at) }
    {
        let words = sig_words(sig);
        // The marks are put in place: a copy of numbers that were just written would wait for them.
        let mut marks = Marks {
            at: [0; 8],
            count: self.k,
        };
        for i in 0..usize::from(self.k) {
            marks.at[i] = top_bits(weighed(&self.rows[i], &words), self.n);
        }
        marks
    }
}

// The signature's seven words.
fn sig_words(sig: &Sig) -> [u32; 7]
    ensures { result ≡ map (sig_word sig.now) (range_with_len 1 7) }
{
    let mut words = [0; 7];
    for j in 0..7 {
        let at = 4 * j;
        words[j] = u32::from_be_bytes([
            sig.bytes[at],
            sig.bytes[at + 1],
            sig.bytes[at + 2],
            sig.bytes[at + 3],
        ]);
    }
    words
}

// The first coefficient, and each word times the next of them.
#[tactic(auto, unfolding(crate::specs::Rows::weighed))]
fn weighed(row: &[u64; 8], words: &[u32; 7]) -> u64
    ensures { result ≡ weighed row.now words.now }
{
    let mut sum = row[0];
    'terms: for j in 0..7 {
        sum = sum.wrapping_add(row[j + 1].wrapping_mul(u64::from(words[j])));
    }
    sum
}

// The top n bits of 64.
#[tactic(auto, using(crate::proofs::PositionFacts::top_below, crate::proofs::PositionFacts::top_fits))]
fn top_bits(sum: u64, n: u8) -> u32
    requires least { 1 ≤ n }
    requires most { n ≤ 32 }
    ensures value { result ≡ sum / 2 ^ (64 - n) }
    ensures below { result < 2 ^ n }
{
    (sum >> (64 - n)) as u32
}
