ghost use Rattle.std.specs.Prelude.{◌≡◌, ◌≤◌, ◌<◌, ◌-◌, ◌*◌, ◌^◌, All, IfOk, length, replicate, take};
ghost use Rattle.std.specs.List.{list_all};
ghost use Rattle.bloom_page.specs.Bits.{is_set, members_of, with_bits};
ghost use Rattle.bloom_page.specs.Sets.{PageSet, words_of};

use spie_base::{K_MOST, Marks, N_LEAST, N_MOST, NoMemory};
use std::alloc::Global;

/// Words of a page without members.
pub fn zeros(alloc: Global, n: u8) -> Result<Vec<u64>, NoMemory>
    requires least { N_LEAST ≤ n }
    requires most { n ≤ N_MOST }
    ensures { IfOk result (λ words. words.items ≡ replicate (2 ^ (n - 6)) 0) }
{
    Ok(vec![in alloc; 0; 1 << (n - 6)]?)
}

/// Each word has 64 bits, so the set of the words' bits gives them back. Does nothing.
pub fn gives_back(words: &[u64], n: u8)
    requires { length words.now ≡ 2 ^ (n - 6) }
    ensures { words_of record { n = n; members = members_of words.now } ≡ words.now }
{}

/// The marks in order.
pub fn listed(marks: &Marks) -> &[u32]
    requires { marks.now.count ≤ K_MOST }
    ensures { result.now ≡ take marks.now.count marks.now.at }
{
    &marks.at[..usize::from(marks.count)]
}

/// Sets the bits at the marks.
pub fn set_marks(words: &mut Vec<u64>, marks: &Marks)
    requires few { marks.now.count ≤ K_MOST }
    requires below { All (λ p. p < 64 * length words.old.items) (take marks.now.count marks.now.at) }
    ensures { words.new.items ≡ with_bits words.old.items (take marks.now.count marks.now.at) }
{
    set_bits(words, listed(marks));
}

// Sets the bits at these positions.
fn set_bits(words: &mut [u64], positions: &[u32])
    requires { All (λ p. p < 64 * length words.old) positions.now }
    ensures { words.new ≡ with_bits words.old positions.now }
{
    for position in positions {
        let at = (*position / 64) as usize;
        words[at] |= 1u64 << (*position % 64);
    }
}

/// Whether the bits at these positions are set.
pub fn are_set(words: &[u64], positions: &[u32]) -> bool
    requires { All (λ p. p < 64 * length words.now) positions.now }
    ensures { result ≡ list_all (is_set words.now) positions.now }
{
    for position in positions {
        if words[(*position / 64) as usize] >> (*position % 64) & 1 != 1 {
            return false;
        }
    }
    true
}

/// How many bits of these words are set. Costs one count of bits a word.
pub fn ones_in(words: &[u64]) -> u32
    requires { 64 * length words.now < 2 ^ 32 }
    ensures count { result ≡ length (members_of words.now) }
    ensures most { result ≤ 64 * length words.now }
{
    let mut ones = 0;
    for word in words {
        ones += word.count_ones();
    }
    ones
}
