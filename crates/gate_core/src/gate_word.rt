//! The values of a router's words: what a gate word says, where each word stands, and the bit of a position.
//!
//! Word 0 is the current slot, words 1 to 4 are the gates, and behind them stand the bit words, slot by slot. Bits 0 to 15 of
//! a gate word are the number inside, bit 16 says that the slot is sealed, and bits 32 to 63 are the page.
ghost use Rattle.std.specs.Prelude.{◌≡◌, ◌+◌, ◌*◌, ◌/◌, ◌%◌, ◌-◌, ◌^◌, ◌<◌, ◌≤◌, ◌==◌, ◌↔◌, IsTrue, bit_or};
ghost use Rattle.std.specs.Int.{bit_at};
ghost use Rattle.gate_core.specs.Acts.{bit_place, gate_place, inside_of, numbered, page_of, seal_of, reopening, reopened};
ghost use Rattle.gate_core.specs.Marks.{width};
ghost use Rattle.gate_core.specs.declared.limits.TheConstants.{SLOTS};
ghost use Rattle.spie_base.specs.Shapes.{most_words};
ghost use Rattle.spie_base.specs.declared.types.TheConstants.{N_LEAST, N_MOST};

use spie_base::{N_LEAST, N_MOST, PageNo, PageShape};

/// What a gate word has where the slot is sealed.
pub const SEAL: u64 = 1 << 16;

/// The first bit word. The gates stand before it, behind the current slot.
pub const FIRST_BITS: usize = 5;

const PAGE_SHIFT: u32 = 32;

const FIRST_GATE: usize = 1;

/// How many are inside, visitors counted.
pub fn inside(gate: u64) -> u16
    ensures { result ≡ inside_of gate }
{
    (gate % SEAL) as u16
}

/// Whether the slot is sealed.
#[tactic(auto, using(crate::proofs::Gates::seal_masked))]
pub fn is_sealed(gate: u64) -> bool
    ensures { IsTrue result ↔ (seal_of gate ≡ 1) }
{
    gate & SEAL != 0
}

/// The slot's page.
pub fn page(gate: u64) -> PageNo
    ensures { result ≡ numbered (page_of gate) }
{
    PageNo {
        number: (gate >> PAGE_SHIFT) as u32,
    }
}

/// Where the slot's gate word stands.
pub fn gate_at(slot: u8) -> usize
    ensures { result ≡ gate_place slot }
{
    FIRST_GATE + usize::from(slot)
}

/// How many words the bits of a slot fill, 1 to 2^(`N_MOST` - `N_LEAST`).
pub fn width(shape: &PageShape) -> u32
    requires n_least { N_LEAST ≤ shape.now.n }
    requires n_most { shape.now.n ≤ N_MOST }
    ensures exact { result ≡ width shape.now }
    ensures some { 1 ≤ result }
    ensures most { result ≤ most_words }
{
    1 << (shape.n - N_LEAST)
}

/// Where word `i` of a slot's bits stands.
pub fn bits_at(shape: &PageShape, slot: u8, i: u32) -> usize
    requires n_least { N_LEAST ≤ shape.now.n }
    requires n_most { shape.now.n ≤ N_MOST }
    requires slot { slot < SLOTS }
    ensures { result ≡ bit_place shape.now slot i }
{
    FIRST_BITS + usize::from(slot) * width(shape) as usize + i as usize
}

/// The bit of a position, in its word.
pub fn bit_of(position: u32) -> u64
    ensures { result ≡ 2 ^ (position % 64) }
{
    1 << (position % 64)
}

/// Whether the bit of a position is set in its word.
pub fn is_set(word: u64, position: u32) -> bool
    ensures { result ≡ (bit_at word (position % 64) == 1) }
{
    word >> (position % 64) & 1 == 1
}

/// The gate of a slot once it is sealed.
pub fn sealed(gate: u64) -> u64
    ensures { result ≡ bit_or gate 65536 }
{
    gate | SEAL
}

/// What is added to the gate of a slot whose page was `old`, so that it is `new` and unsealed, with as many inside.
pub fn reopening(old: u32, new: u32) -> u64
    ensures { result ≡ reopening old new }
{
    let old = u64::from(old) << PAGE_SHIFT;
    let new = u64::from(new) << PAGE_SHIFT;
    new.wrapping_sub(old).wrapping_sub(SEAL)
}

/// The gate of a slot whose page was `old` and becomes `new`: those inside stay counted, and the seal goes.
pub fn reopened(gate: u64, old: u32, new: u32) -> u64
    ensures { result ≡ reopened gate old new }
{
    gate.wrapping_add(reopening(old, new))
}
