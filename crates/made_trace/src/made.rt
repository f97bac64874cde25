// The whole text.
ghost use Rattle.std.specs.Prelude.{◌≡◌, ◌++◌, ◌≤◌, ◌<◌, IfOk, OnOk};
ghost use Rattle.made_trace.specs.Lines.{lines_text};
ghost use Rattle.made_trace.specs.Made as made;

use crate::body::push_lines;
use crate::draws::draw_next;
use crate::packets::push_word;
use line_text::push;
use rand_core::SeedableRng;
use rand_xoshiro::SplitMix64;
use spie_base::NoMemory;
use std::alloc::Global;

/// The most packets that are made: as many packet lines as a trace may have, where each has two.
pub const MOST_MADE: u32 = 32_768;

const FRONT: &[u8] = b"spie-trace 1\nshape 3 16 4096 500 2 1500 300 ";

const NETWORK: &[u8] =
    b"\nrouter r0 east\nrouter r1 east\nrouter r2 east\nrouter r3 east\nrouter r4 north\nrouter r5 north\nrouter r6 north\nrouter r7 north\nrouter r8 west\nrouter r9 west\nrouter r10 west\nrouter r11 west\nlink r0 r1\nlink r1 r2\nlink r2 r3\nlink r3 r4\nlink r4 r5\nlink r5 r6\nlink r6 r7\nlink r7 r8\nlink r8 r9\nlink r9 r10\nlink r10 r11\nlink r11 r0\nlink r0 r6\nlink r1 r7\nlink r2 r8\nlink r3 r9\nlink r4 r10\nlink r5 r11\nbegin\n";

// The lines before the packets.
fn push_head(out: &mut Vec<u8>, seed: u64) -> Result<(), NoMemory>
    ensures { OnOk result (out.new.items ≡ out.old.items ++ lines_text (made.head seed)) }
{
    push(out, FRONT)?;
    push_word(out, seed)?;
    push(out, NETWORK)?;
    Ok(())
}

// The lines of all packets.
fn push_body(out: &mut Vec<u8>, seed: u64, packets: u32) -> Result<(), NoMemory>
    requires { packets ≤ MOST_MADE }
    ensures { OnOk result (out.new.items ≡ out.old.items ++ lines_text (made.body seed packets)) }
{
    let mut generator = SplitMix64::seed_from_u64(seed);
    let mut number = 0;
    for i in 0..packets {
        let drawn = draw_next(&mut generator);
        number += push_lines(out, i, number, &drawn)?;
    }
    Ok(())
}

/// The text of the trace that `make SEED PACKETS` writes. Costs three words of the generator and some 120 bytes a packet.
pub fn make_trace(alloc: Global, seed: u64, packets: u32) -> Result<Vec<u8>, NoMemory>
    requires least { 1 ≤ packets }
    requires most { packets ≤ MOST_MADE }
    ensures text { IfOk result (λ text. text.items ≡ made.made_text seed packets) }
{
    let mut out = Vec::new(alloc);
    push_head(&mut out, seed)?;
    push_body(&mut out, seed, packets)?;
    push(&mut out, b"end\n")?;
    Ok(out)
}
