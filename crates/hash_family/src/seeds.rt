// The words of the generator: seeds of pages, and rows of coefficients.
ghost use Rattle.std.specs.Prelude.{◌≡◌, map};
ghost use Rattle.std.specs.List.{range_with_len};
ghost use Rattle.hash_family.specs.Positions.{page_seed_of};
ghost use Rattle.hash_family.specs.SplitMix.{grown, mixed, word, state_after};

use rand_core::SeedableRng;
use rand_core::utils::NextWord;
use rand_xoshiro::SplitMix64;
use spie_base::{PageNo, RouterId};

/// The seed of a page of a router, from the trace's base. Costs one word of the generator.
#[tactic(auto, unfolding(crate::specs::Positions::page_seed_of, crate::specs::SplitMix::word))]
pub fn page_seed(base: u64, router: RouterId, page: PageNo) -> u64
    ensures { result ≡ page_seed_of base router.number page.number }
{
    let place = (u64::from(router.number) << 32) + u64::from(page.number);
    next_word(&mut SplitMix64::seed_from_u64(base ^ place))
}

/// The generator's next eight words.
pub fn next_row(generator: &mut SplitMix64) -> [u64; 8]
    ensures row { result ≡ map (word generator.old) (range_with_len 0 8) }
    ensures after { generator.new ≡ state_after generator.old 8 }
{
    let mut row = [0; 8];
    for j in 0..8 {
        row[j] = next_word(generator);
    }
    row
}

// The generator's next word.
#[tactic(auto, unfolding(crate::specs::SplitMix::mixed))]
fn next_word(generator: &mut SplitMix64) -> u64
    ensures word { result ≡ mixed (grown generator.old) }
    ensures after { generator.new ≡ grown generator.old }
{
    generator.next_word()
}
