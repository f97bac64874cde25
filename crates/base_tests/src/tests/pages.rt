ghost use Rattle.std.specs.Prelude.{◌≤◌, ◌<◌, ◌^◌, All, take};

use bloom_page::{Page, ones_in};
use spie_base::Marks;
use std::test::Fail;

// Marks at both ends of a word and of the page, for 6 and for 16 bits: n, marks and how many of them count, then the
// number of a word, its bits, and how many members there are.
const INSERTED: [(u8, [u32; 8], u8, usize, u64, u32); 5] = [
    (6, [63, 0, 0, 0, 0, 0, 0, 0], 1, 0, 1 << 63, 1),
    (6, [0, 1, 2, 3, 60, 61, 62, 63], 8, 0, 0xf00000000000000f, 8),
    (16, [65535, 0, 0, 0, 0, 0, 0, 0], 1, 1023, 1 << 63, 1),
    (
        16,
        [64, 65, 66, 67, 127, 126, 125, 124],
        8,
        1,
        0xf00000000000000f,
        8,
    ),
    // Equal marks are one member.
    (16, [77, 77, 77, 64, 64, 77, 77, 77], 8, 1, (1 << 13) | 1, 2),
];

// Marks that are asked of a page with the members 3 and 5.
const ASKED: [([u32; 8], u8, bool); 5] = [
    ([3, 5, 0, 0, 0, 0, 0, 0], 2, true),
    ([5, 3, 5, 0, 0, 0, 0, 0], 3, true),
    ([3, 4, 0, 0, 0, 0, 0, 0], 2, false),
    ([4, 3, 5, 0, 0, 0, 0, 0], 3, false),
    ([4, 0, 0, 0, 0, 0, 0, 0], 0, true),
];

const WORDS: [u64; 4] = [0, 1, 0x8000000000000000, 0xffffffffffffffff];

// The first `count` of these, each reduced to n bits.
fn marks(n: u8, at: [u32; 8], count: u8) -> Marks
    requires { n ≤ 16 }
    ensures few { result.count ≤ 8 }
    ensures below { All (λ p. p < 2 ^ n) (take result.count result.at) }
{
    let mut kept = [0; 8];
    for i in 0..8 {
        kept[i] = at[i] % (1 << n);
    }
    Marks {
        at: kept,
        count: count.min(8),
    }
}

#[test]
fn marks_are_bits_of_words(rt: HostRuntime) -> Result<(), Fail> {
    let alloc = rt.alloc();
    for (size, at, count, word, bits, fill) in INSERTED {
        let n = size.max(6).min(16);
        let added = marks(n, at, count);
        let mut page = Page::empty(alloc, n)?;
        assert_eq!(rt; page.fill(), 0);
        assert!(rt; !page.has(&added));
        page.insert(&added);
        page.insert(&added);
        assert!(rt; page.has(&added));
        assert_eq!(rt; page.fill(), fill, "n {n}");
        assert_eq!(rt; page.words().len(), 1 << (n - 6), "n {n}");
        assert_eq!(rt; page.words().get(word), Some(&bits), "n {n}");
    }
    Ok(())
}

#[test]
fn has_asks_for_each_mark(rt: HostRuntime) -> Result<(), Fail> {
    let alloc = rt.alloc();
    let mut page = Page::empty(alloc, 6)?;
    page.insert(&marks(6, [3, 5, 0, 0, 0, 0, 0, 0], 2));
    for (at, count, has) in ASKED {
        assert_eq!(rt; page.has(&marks(6, at, count)), has, "{at:?}, {count}");
    }
    Ok(())
}

// Threads may share pages and hand them on.
fn crosses<T: Send + Sync>(_page: &T) {}

#[test]
fn words_and_copies(rt: HostRuntime) -> Result<(), Fail> {
    let alloc = rt.alloc();
    let mut page = Page::from_words(Vec::from_slice(alloc, &WORDS)?, 8);
    assert_eq!(rt; page.words(), WORDS.as_slice());
    assert_eq!(rt; page.fill(), 66);
    assert_eq!(rt; ones_in(&WORDS), 66);
    assert!(rt; page.has(&marks(8, [64, 191, 192, 255, 0, 0, 0, 0], 4)));
    assert!(rt; !page.has(&marks(8, [65, 0, 0, 0, 0, 0, 0, 0], 1)));
    let copy = page.copy(alloc)?;
    crosses(&copy);
    page.insert(&marks(8, [0, 0, 0, 0, 0, 0, 0, 0], 1));
    assert_eq!(rt; copy.words(), WORDS.as_slice());
    assert_eq!(rt; page.words()[0], 1);
    Ok(())
}
