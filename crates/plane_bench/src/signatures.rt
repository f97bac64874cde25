// Signatures that differ, without a pattern.
use spie_base::Sig;
use std::sync::atomic::AtomicU64;

/// So many there are, over and over.
const DIFFERENT: u32 = 256;

type Signatures = [Sig; 256];

/// What each thread records, and how many records entered.
#[derive(Drop)]
pub struct Course {
    pub sigs: Signatures,
    pub records: u32,
    pub entered: AtomicU64,
}

fn next_sig(state: &mut u64) -> Sig {
    let mut bytes = [0; 28];
    for i in 0..28 {
        *state = state
            .wrapping_mul(6_364_136_223_846_793_005)
            .wrapping_add(1_442_695_040_888_963_407);
        bytes[i] = (*state >> 56) as u8;
    }
    Sig { bytes }
}

pub fn course_of(records: u32) -> Course {
    let mut sigs = [Sig { bytes: [0; 28] }; 256];
    let mut state = 1u64;
    for i in 0..256 {
        sigs[i] = next_sig(&mut state);
    }
    Course {
        sigs,
        records,
        entered: AtomicU64::new(0),
    }
}

/// The signature of this number.
pub fn at(sigs: &Signatures, number: u32) -> &Sig {
    &sigs[(number % DIFFERENT) as usize]
}
