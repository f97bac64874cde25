// Texts with a first fault: its line, and the rule that this line breaks.
use super::{Y, Z, joined};
use evidence_text::{CheckFault, CheckRefused, CheckWhy, MOST_CERTIFICATE_BYTES, read_certificate};
use std::alloc::Global;
use std::test::Fail;

// The first lines.
const FIRST: [(&[&str], u64, CheckWhy); 15] = [
    (&[""], 1, CheckWhy::Ending),
    (&["spie-certificate 1"], 1, CheckWhy::Ending),
    (&["spie-certificate 1\n"], 2, CheckWhy::Ending),
    (&["\n"], 1, CheckWhy::Word),
    (&["certificate 1\n"], 1, CheckWhy::Word),
    (&["spie-certificate\n"], 1, CheckWhy::Fields),
    (&["spie-certificate 1 \n"], 1, CheckWhy::Fields),
    (&["spie-certificate 2\n"], 1, CheckWhy::Field),
    (&["routers 1\n"], 1, CheckWhy::Order),
    (
        &["spie-certificate 1\nspie-certificate 1\n"],
        2,
        CheckWhy::Order,
    ),
    (&["spie-certificate 1\nrouters 0\n"], 2, CheckWhy::Field),
    (&["spie-certificate 1\nrouters 65\n"], 2, CheckWhy::Field),
    (&["spie-certificate 1\nrouters 01\n"], 2, CheckWhy::Field),
    (&["spie-certificate 1\nrouters 64\n"], 3, CheckWhy::Ending),
    (
        &["spie-certificate 1\nrouters 1\nrouters 1\n"],
        3,
        CheckWhy::Order,
    ),
];

// Lines before it is known how many routers there are: a number may have any size.
const EARLY: [(&[&str], u64, CheckWhy); 28] = [
    (
        &["spie-certificate 1\nlink 99999999999999999999999 100000000000000000000000\n"],
        2,
        CheckWhy::Order,
    ),
    (
        &["spie-certificate 1\nlink 100000000000000000000000 99999999999999999999999\n"],
        2,
        CheckWhy::Field,
    ),
    (&["spie-certificate 1\nlink 9 10\n"], 2, CheckWhy::Order),
    (&["spie-certificate 1\nlink 10 9\n"], 2, CheckWhy::Field),
    (&["spie-certificate 1\nlink 1 1\n"], 2, CheckWhy::Field),
    (&["spie-certificate 1\nlink 0 01\n"], 2, CheckWhy::Field),
    (&["spie-certificate 1\nlink 1\n"], 2, CheckWhy::Fields),
    (
        &["spie-certificate 1\nstart 7 ", Z, "\n"],
        2,
        CheckWhy::Order,
    ),
    (
        &["spie-certificate 1\nstart 07 ", Z, "\n"],
        2,
        CheckWhy::Field,
    ),
    (
        &["spie-certificate 1\nstart 7 0", Z, "\n"],
        2,
        CheckWhy::Field,
    ),
    (
        &["spie-certificate 1\nrouter 99999999999999999999 8 20 0123456789abcdef 1\n"],
        2,
        CheckWhy::Order,
    ),
    (
        &["spie-certificate 1\nrouter 0 8 21 0123456789abcdef 1\n"],
        2,
        CheckWhy::Field,
    ),
    (
        &["spie-certificate 1\nrouter 0 8 20 0123456789abcdeF 1\n"],
        2,
        CheckWhy::Field,
    ),
    (&["spie-certificate 1\npage 0 \n"], 2, CheckWhy::Order),
    (
        &["spie-certificate 1\npage 4294967295 abc\n"],
        2,
        CheckWhy::Order,
    ),
    (
        &["spie-certificate 1\npage 4294967296 abc\n"],
        2,
        CheckWhy::Field,
    ),
    (&["spie-certificate 1\npage 0 ABC\n"], 2, CheckWhy::Field),
    (&["spie-certificate 1\npage 0\n"], 2, CheckWhy::Fields),
    (
        &["spie-certificate 1\nrow 0000000000000000 frag direct 00000000\n"],
        2,
        CheckWhy::Order,
    ),
    (
        &["spie-certificate 1\nrow 0000000000000000 nat direct 00000000\n"],
        2,
        CheckWhy::Field,
    ),
    (
        &[
            "spie-certificate 1\nnode 18446744073709551616 ",
            Z,
            " 4294967295\n",
        ],
        2,
        CheckWhy::Order,
    ),
    (
        &["spie-certificate 1\nnode 0 ", Z, " 4294967296\n"],
        2,
        CheckWhy::Field,
    ),
    (
        &[
            "spie-certificate 1\nedge 0 ",
            Z,
            " 18446744073709551616 ",
            Y,
            "\n",
        ],
        2,
        CheckWhy::Order,
    ),
    (
        &["spie-certificate 1\nunknown x ", Z, "\n"],
        2,
        CheckWhy::Field,
    ),
    (
        &["spie-certificate 1\nclear 5 ", Z, "\n"],
        2,
        CheckWhy::Order,
    ),
    (&["spie-certificate 1\nend\n"], 2, CheckWhy::Order),
    (&["spie-certificate 1\nend x\n"], 2, CheckWhy::Fields),
    (&["spie-certificate 1\nend\r\n"], 2, CheckWhy::Word),
];

// Later lines.
const LATER: [(&[&str], u64, CheckWhy); 32] = [
    (
        &["spie-certificate 1\nrouters 1\nstart 1 ", Z, "\n"],
        3,
        CheckWhy::Field,
    ),
    (
        &["spie-certificate 1\nrouters 1\nlink 0 1\n"],
        3,
        CheckWhy::Field,
    ),
    (
        &["spie-certificate 1\nrouters 3\nlink 1 0\n"],
        3,
        CheckWhy::Field,
    ),
    (
        &["spie-certificate 1\nrouters 3\nlink 0 2\nlink 0 1\n"],
        4,
        CheckWhy::Order,
    ),
    (
        &["spie-certificate 1\nrouters 3\nlink 0 1\nlink 0 1\n"],
        4,
        CheckWhy::Order,
    ),
    (
        &["spie-certificate 1\nrouters 3\nlink 0 1\nlink 1 2\n"],
        5,
        CheckWhy::Ending,
    ),
    (
        &["spie-certificate 1\nrouters 1\nstart 0 ", Z, "\nlink 0 1\n"],
        4,
        CheckWhy::Field,
    ),
    (
        &[
            "spie-certificate 1\nrouters 1\nstart 0 ",
            Z,
            "\nstart 0 ",
            Z,
            "\n",
        ],
        4,
        CheckWhy::Order,
    ),
    (
        &["spie-certificate 1\nrouters 1\nstart 0 ", Z, "\npage 0 0\n"],
        4,
        CheckWhy::Order,
    ),
    (
        &["spie-certificate 1\nrouters 1\nstart 0 ", Z, "\nend\n"],
        4,
        CheckWhy::Order,
    ),
    (
        &[
            "spie-certificate 1\nrouters 1\nstart 0 ",
            Z,
            "\nrouter 1 1 6 0000000000000000 0\n",
        ],
        4,
        CheckWhy::Field,
    ),
    (
        &[
            "spie-certificate 1\nrouters 1\nstart 0 ",
            Z,
            "\nrouter 0 0 6 0000000000000000 0\n",
        ],
        4,
        CheckWhy::Field,
    ),
    (
        &[
            "spie-certificate 1\nrouters 1\nstart 0 ",
            Z,
            "\nrouter 0 9 6 0000000000000000 0\n",
        ],
        4,
        CheckWhy::Field,
    ),
    (
        &[
            "spie-certificate 1\nrouters 1\nstart 0 ",
            Z,
            "\nrouter 0 1 5 0000000000000000 0\n",
        ],
        4,
        CheckWhy::Field,
    ),
    (
        &[
            "spie-certificate 1\nrouters 1\nstart 0 ",
            Z,
            "\nrouter 0 1 6 0000000000000000 2\n",
        ],
        4,
        CheckWhy::Field,
    ),
    (
        &[
            "spie-certificate 1\nrouters 1\nstart 0 ",
            Z,
            "\nrouter 0 1 6 0000000000000000 0\nrouter 0 1 6 0000000000000000 0\n",
        ],
        5,
        CheckWhy::Order,
    ),
    (
        &[
            "spie-certificate 1\nrouters 1\nstart 0 ",
            Z,
            "\nrouter 0 1 6 0000000000000000 0\npage 0 000000000000000\n",
        ],
        5,
        CheckWhy::Field,
    ),
    (
        &[
            "spie-certificate 1\nrouters 1\nstart 0 ",
            Z,
            "\nrouter 0 1 6 0000000000000000 0\npage 0 000000000000000A\n",
        ],
        5,
        CheckWhy::Field,
    ),
    (
        &[
            "spie-certificate 1\nrouters 1\nstart 0 ",
            Z,
            "\nrouter 0 1 6 0000000000000000 0\npage 0 0000000000000000\npage 0 0000000000000000\n",
        ],
        6,
        CheckWhy::Order,
    ),
    (
        &[
            "spie-certificate 1\nrouters 1\nstart 0 ",
            Z,
            "\nrouter 0 1 6 0000000000000000 0\nrow 0000000000000000 frag direct 00000000\n",
        ],
        5,
        CheckWhy::Order,
    ),
    (
        &[
            "spie-certificate 1\nrouters 1\nstart 0 ",
            Z,
            "\nrouter 0 1 6 0000000000000000 0\npage 0 0000000000000000\nrow 0000000000000000 frag direct 0000000\n",
        ],
        6,
        CheckWhy::Field,
    ),
    (
        &[
            "spie-certificate 1\nrouters 1\nstart 0 ",
            Z,
            "\nrouter 0 1 6 0000000000000000 0\npage 0 0000000000000000\nrow 0000000000000000 frag indirect 00000000\n",
        ],
        6,
        CheckWhy::Field,
    ),
    (
        &[
            "spie-certificate 1\nrouters 1\nstart 0 ",
            Z,
            "\nrouter 0 1 6 0000000000000000 0\npage 0 0000000000000000\nnode 0 ",
            Z,
            " -\npage 0 0000000000000000\n",
        ],
        7,
        CheckWhy::Order,
    ),
    (
        &[
            "spie-certificate 1\nrouters 1\nstart 0 ",
            Z,
            "\nrouter 0 1 6 0000000000000000 0\npage 0 0000000000000000\nnode 0 ",
            Z,
            " -\npage 1 00\n",
        ],
        7,
        CheckWhy::Field,
    ),
    (
        &[
            "spie-certificate 1\nrouters 1\nstart 0 ",
            Z,
            "\nrouter 0 1 6 0000000000000000 0\npage 0 0000000000000000\nclear 0 ",
            Z,
            "\nunknown 0 ",
            Z,
            "\n",
        ],
        7,
        CheckWhy::Order,
    ),
    (
        &[
            "spie-certificate 1\nrouters 1\nstart 0 ",
            Z,
            "\nrouter 0 1 6 0000000000000000 0\npage 0 0000000000000000\nedge 0 ",
            Z,
            " 0 ",
            Z,
            "\nnode 0 ",
            Z,
            " -\n",
        ],
        7,
        CheckWhy::Order,
    ),
    (
        &[
            "spie-certificate 1\nrouters 3\nstart 0 ",
            Z,
            "\nrouter 0 1 6 0000000000000000 0\nrouter 2 1 6 0000000000000000 0\n",
        ],
        5,
        CheckWhy::Order,
    ),
    (
        &[
            "spie-certificate 1\nrouters 3\nstart 0 ",
            Z,
            "\nrouter 0 1 6 0000000000000000 0\nend\n",
        ],
        5,
        CheckWhy::Order,
    ),
    (
        &[
            "spie-certificate 1\nrouters 1\nstart 0 ",
            Z,
            "\nrouter 0 1 6 0000000000000000 0\nend\nx",
        ],
        6,
        CheckWhy::After,
    ),
    (
        &[
            "spie-certificate 1\nrouters 1\nstart 0 ",
            Z,
            "\nrouter 0 1 6 0000000000000000 0\nend\n\n",
        ],
        6,
        CheckWhy::After,
    ),
    (
        &[
            "spie-certificate 1\nrouters 1\nstart 0 ",
            Z,
            "\nrouter 0 1 6 0000000000000000 0\nend",
        ],
        5,
        CheckWhy::Ending,
    ),
    (
        &[
            "spie-certificate 1\nrouters 1\nstart 0 ",
            Z,
            "\nrouter 0 1 6 0000000000000000 0\nnode 0 ",
            Z,
            " 7\nclear 0 ",
            Z,
            "\npage 0 0000000000000000\n",
        ],
        7,
        CheckWhy::Order,
    ),
];

fn is_refused(alloc: Global, text: &[u8], line: u64, why: CheckWhy) -> bool {
    match read_certificate(alloc, text) {
        Err(refused) => refused == CheckRefused::Refused(CheckFault { line, why }),
        Ok(_) => false,
    }
}

#[test]
fn first_lines(rt: HostRuntime) -> Result<(), Fail> {
    let alloc = rt.alloc();
    for (at, (pieces, line, why)) in FIRST.iter().enumerate() {
        let text = joined(alloc, pieces)?;
        assert!(rt; is_refused(alloc, &text, *line, *why), "{at}");
    }
    Ok(())
}

#[test]
fn early_lines(rt: HostRuntime) -> Result<(), Fail> {
    let alloc = rt.alloc();
    for (at, (pieces, line, why)) in EARLY.iter().enumerate() {
        let text = joined(alloc, pieces)?;
        assert!(rt; is_refused(alloc, &text, *line, *why), "{at}");
    }
    Ok(())
}

#[test]
fn later_lines(rt: HostRuntime) -> Result<(), Fail> {
    let alloc = rt.alloc();
    for (at, (pieces, line, why)) in LATER.iter().enumerate() {
        let text = joined(alloc, pieces)?;
        assert!(rt; is_refused(alloc, &text, *line, *why), "{at}");
    }
    Ok(())
}

#[test]
fn too_long(rt: HostRuntime) -> Result<(), Fail> {
    let alloc = rt.alloc();
    let text = vec![in alloc; b'a'; MOST_CERTIFICATE_BYTES + 1]?;
    assert!(rt; is_refused(alloc, &text, 0, CheckWhy::TooLong));
    let text = vec![in alloc; b'a'; MOST_CERTIFICATE_BYTES]?;
    assert!(rt; is_refused(alloc, &text, 1, CheckWhy::Ending));
    Ok(())
}
