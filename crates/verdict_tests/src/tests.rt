// In the texts, Z stands for a signature of 56 digits `0`, Y for one of 56 digits `f`, and K for the key of Z, the first
// eight bytes of the SHA-256 of 28 bytes 0. No certificate has a letter in upper case.
use evidence_check::{Verdict, judge};
use evidence_text::read_certificate;
use std::alloc::{AllocError, Global};
use std::test::Fail;

mod hostile;

const Z: &str = "00000000000000000000000000000000000000000000000000000000";

const Y: &str = "ffffffffffffffffffffffffffffffffffffffffffffffffffffffff";

const K: &str = "3addfb141cd7c9c4";

// One router, whose page has no bit set.
const BLANK: &str =
    "spie-certificate 1\nrouters 1\nstart 0 Z\nrouter 0 1 6 0000000000000000 0\npage 0 0000000000000000\n";

// The same with all bits set.
const WHOLE: &str =
    "spie-certificate 1\nrouters 1\nstart 0 Z\nrouter 0 1 6 0000000000000000 0\npage 0 ffffffffffffffff\n";

// Two linked routers with such pages; the page of the first has a transform of Y into Z.
const PAIR: &str =
    "spie-certificate 1\nrouters 2\nlink 0 1\nstart 0 Z\nrouter 0 1 6 0000000000000000 0\npage 4294967295 ffffffffffffffff\nrow K nat indirect Y\nrouter 1 8 6 0123456789abcdef 0\npage 0 ffffffffffffffff\n";

// Two linked routers, of which the second misses pages and has none.
const LOST: &str =
    "spie-certificate 1\nrouters 2\nlink 0 1\nstart 0 Z\nrouter 0 1 6 0000000000000000 0\npage 0 ffffffffffffffff\nrouter 1 1 6 0000000000000000 1\n";

// One router alone.
const ALONE: [(&str, &str, Verdict); 9] = [
    (
        BLANK,
        "clear 0 Z\nend\n",
        Verdict::Yes {
            nodes: 0,
            edges: 0,
            unknown: 0,
            clear: 1,
        },
    ),
    (BLANK, "unknown 0 Z\nend\n", Verdict::No { line: 6 }),
    (BLANK, "node 0 Z -\nend\n", Verdict::No { line: 6 }),
    (BLANK, "end\n", Verdict::No { line: 6 }),
    (
        BLANK,
        "clear 0 Z\nclear 0 Z\nend\n",
        Verdict::No { line: 7 },
    ),
    (WHOLE, "clear 0 Z\nend\n", Verdict::No { line: 6 }),
    (
        WHOLE,
        "node 0 Z -\nend\n",
        Verdict::Yes {
            nodes: 1,
            edges: 0,
            unknown: 0,
            clear: 0,
        },
    ),
    (WHOLE, "node 0 Y -\nend\n", Verdict::No { line: 6 }),
    (
        WHOLE,
        "node 0 Z -\nnode 0 Z 0\nend\n",
        Verdict::No { line: 7 },
    ),
];

// Two routers, and a transform.
const TWO: [(&str, &str, Verdict); 8] = [
    (
        PAIR,
        "node 0 Z -\nnode 1 Z 0\nnode 1 Y 0\nnode 0 Y 2\nedge 0 Z 1 Z\nedge 0 Z 1 Y\nedge 0 Y 1 Y\nedge 1 Z 0 Z\nedge 1 Y 0 Y\nend\n",
        Verdict::Yes {
            nodes: 4,
            edges: 5,
            unknown: 0,
            clear: 0,
        },
    ),
    (
        PAIR,
        "node 0 Z -\nnode 1 Z 0\nnode 1 Y 3\nnode 0 Y 2\nend\n",
        Verdict::No { line: 12 },
    ),
    (
        PAIR,
        "node 0 Z -\nnode 1 Z 0\nnode 1 Y 0\nnode 0 Y 1\nend\n",
        Verdict::No { line: 13 },
    ),
    (
        PAIR,
        "node 0 Z -\nnode 1 Z 0\nnode 1 Y 0\nnode 0 Y 2\nedge 0 Z 0 Y\nend\n",
        Verdict::No { line: 14 },
    ),
    (
        PAIR,
        "node 0 Z -\nnode 1 Z 0\nnode 1 Y 0\nnode 0 Y 2\nedge 0 Z 1 Z\nedge 0 Z 1 Y\nedge 1 Z 0 Z\nedge 1 Y 0 Y\nend\n",
        Verdict::No { line: 18 },
    ),
    (
        PAIR,
        "node 0 Z -\nnode 1 Z 0\nnode 1 Y 0\nedge 0 Z 1 Z\nedge 0 Z 1 Y\nedge 1 Z 0 Z\nend\n",
        Verdict::No { line: 16 },
    ),
    (
        LOST,
        "node 0 Z -\nunknown 1 Z\nend\n",
        Verdict::Yes {
            nodes: 1,
            edges: 0,
            unknown: 1,
            clear: 0,
        },
    ),
    (
        LOST,
        "node 0 Z -\nclear 1 Z\nend\n",
        Verdict::No { line: 9 },
    ),
];

// Puts the signatures and the key in place of their letters.
fn written(alloc: Global, letters: &[u8]) -> Result<Vec<u8>, AllocError> {
    let mut text = Vec::new(alloc);
    for byte in letters {
        match *byte {
            b'Z' => text.extend_from_slice(Z.as_bytes())?,
            b'Y' => text.extend_from_slice(Y.as_bytes())?,
            b'K' => text.extend_from_slice(K.as_bytes())?,
            other => text.push(other)?,
        }
    }
    Ok(text)
}

// Whether a text is a certificate that is worth this.
fn is_worth(alloc: Global, text: &[u8], verdict: Verdict) -> bool {
    let Ok(certificate) = read_certificate(alloc, text) else {
        return false;
    };
    judge(alloc, &certificate) == Ok(verdict)
}

fn are_worth(alloc: Global, cases: &[(&str, &str, Verdict)]) -> Result<bool, Fail> {
    for (first, answer, verdict) in cases {
        let mut letters = Vec::from_slice(alloc, first.as_bytes())?;
        letters.extend_from_slice(answer.as_bytes())?;
        let text = written(alloc, &letters)?;
        if !is_worth(alloc, &text, *verdict) {
            return Ok(false);
        }
    }
    Ok(true)
}

#[test]
fn each_certificate_has_its_verdict(rt: HostRuntime) -> Result<(), Fail> {
    assert!(rt; are_worth(rt.alloc(), &ALONE)?);
    assert!(rt; are_worth(rt.alloc(), &TWO)?);
    Ok(())
}
