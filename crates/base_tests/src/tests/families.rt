use hash_family::{Family, page_seed};
use spie_base::{Marks, PageNo, RouterId, Sig};

const ZEROS: Sig = Sig { bytes: [0; 28] };

// Zeros, but for byte 3.
const OTHER: Sig = Sig {
    bytes: [
        0, 0, 0, 1, 0, 0, 0, 0, 0, 0, 0, 0, 0, 0, 0, 0, 0, 0, 0, 0, 0, 0, 0, 0, 0, 0, 0, 0,
    ],
};

// The one position of a signature for the first seed, by n.
const FIRST: [(u8, Sig, u32); 3] = [(16, ZEROS, 57888), (16, OTHER, 20633), (20, ZEROS, 926218)];

// The bytes 1 to 28.
const COUNTED: Sig = Sig {
    bytes: [
        1, 2, 3, 4, 5, 6, 7, 8, 9, 10, 11, 12, 13, 14, 15, 16, 17, 18, 19, 20, 21, 22, 23, 24, 25,
        26, 27, 28,
    ],
};

// The positions of `COUNTED` for one seed, by k and n. The last two of six bits are equal, where those of sixteen
// bits differ.
const POSITIONS: [(u8, u8, [u32; 8]); 4] = [
    (1, 6, [11, 0, 0, 0, 0, 0, 0, 0]),
    (8, 6, [11, 49, 43, 61, 40, 48, 22, 22]),
    (1, 16, [11311, 0, 0, 0, 0, 0, 0, 0]),
    (
        8,
        16,
        [11311, 51035, 44833, 62876, 41655, 49966, 22564, 22896],
    ),
];

// The first word of the published algorithm from the state 1234567.
const PUBLISHED: u64 = 6457827717110365317;

// The marks of a signature for a seed, with k and n brought into their ranges. It has no clause, so that nothing of
// the formula is computed where the tests are proved.
fn marks(seed: u64, k: u8, n: u8, sig: &Sig) -> Marks {
    Family::of(seed, k.max(1).min(8), n.max(6).min(20)).positions(sig)
}

fn seed_of(base: u64, router: u32, page: u32) -> u64 {
    page_seed(base, RouterId { number: router }, PageNo { number: page })
}

#[test]
fn seed_and_positions(rt: HostRuntime) {
    assert_eq!(rt; seed_of(0, 0, 0), 0xe220a8397b1dcdaf);
    for (n, sig, position) in FIRST {
        let marks = marks(0, 1, n, &sig);
        assert_eq!(rt; marks.at, [position, 0, 0, 0, 0, 0, 0, 0]);
        assert_eq!(rt; marks.count, 1);
    }
}

#[test]
fn seeds_by_router_and_page(rt: HostRuntime) {
    assert_eq!(rt; seed_of(1234567, 0, 0), PUBLISHED);
    assert_eq!(rt; seed_of(1234567 ^ (3 << 32) ^ 5, 3, 5), PUBLISHED);
    assert_ne!(rt; seed_of(1234567, 0, 1), PUBLISHED);
    assert_ne!(rt; seed_of(1234567, 1, 0), PUBLISHED);
}

#[test]
fn positions_of_each_shape(rt: HostRuntime) {
    let seed = seed_of(7, 2, 9);
    assert_eq!(rt; seed, 0x30c2449c5d733182);
    for (k, n, at) in POSITIONS {
        let marks = marks(seed, k, n, &COUNTED);
        assert_eq!(rt; marks.at, at, "k {k}, n {n}");
        assert_eq!(rt; marks.count, k, "k {k}, n {n}");
    }
}
