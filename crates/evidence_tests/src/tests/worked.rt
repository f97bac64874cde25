// Certificates that are read, and written again.
use super::{Y, Z, joined};
use evidence_text::{
    Certificate, PageEvidence, RouterPages, certificate_text, push_certificate, read_certificate,
};
use packet_signature::{Kind, RowData};
use std::alloc::Global;
use std::test::Fail;

// One router, and a page with no position set.
const SMALL: [&str; 7] = [
    "spie-certificate 1\nrouters 1\nstart 0 ",
    Z,
    "\nrouter 0 1 6 0000000000000000 0\npage 0 0000000000000000\n",
    "clear 0 ",
    Z,
    "\nend\n",
    "",
];

// Each kind of line.
const FULL: [&str; 22] = [
    "spie-certificate 1\nrouters 2\nlink 0 1\nstart 0 ",
    Z,
    "\nrouter 0 1 6 00000000000000ff 0\npage 3 8000000000000001\n",
    "row 0000000000000001 frag direct 010203ff\n",
    "row 0000000000000001 nat indirect ",
    Y,
    "\npage 7 0000000000000000\nrouter 1 8 7 0123456789abcdef 1\n",
    "page 4294967295 00000000000000000000000000000001\nnode 0 ",
    Z,
    " -\nnode 1 ",
    Z,
    " 0\nedge 0 ",
    Z,
    " 1 ",
    Z,
    "\nedge 1 ",
    Z,
    " 0 ",
    Z,
    "\nunknown 1 ",
    Y,
    "\nend\n",
];

// Whether a text is read, and written again byte for byte.
fn is_written_again(alloc: Global, text: &[u8]) -> Result<bool, Fail> {
    let Ok(certificate) = read_certificate(alloc, text) else {
        return Ok(false);
    };
    let Ok(again) = certificate_text(alloc, &certificate) else {
        return Ok(false);
    };
    let mut behind = Vec::from_slice(alloc, b"x")?;
    let is_pushed = push_certificate(&mut behind, &certificate).is_ok();
    Ok(again.as_slice() == text && is_pushed && behind.len() == text.len() + 1)
}

// Whether it is the signature of 56 digits `f`.
fn is_highest(old: &RowData) -> bool {
    match old {
        RowData::Indirect(sig) => sig.bytes == [255; 28],
        RowData::Direct(_) => false,
    }
}

fn is_first_page(e: &PageEvidence) -> bool {
    let [fragment, changed] = e.rows.items() else {
        return false;
    };
    e.page.number == 3
        && e.bits.words() == [0x8000_0000_0000_0001].as_slice()
        && fragment.key == 1
        && fragment.kind == Kind::Frag
        && fragment.old == RowData::Direct([1, 2, 3, 255])
        && changed.kind == Kind::Nat
        && is_highest(&changed.old)
}

fn is_first_router(r: &RouterPages) -> bool {
    let [first, second] = r.pages.items() else {
        return false;
    };
    let is_shaped = r.shape.k == 1 && r.shape.n == 6 && r.shape.base == 255 && !r.missing;
    is_shaped && is_first_page(first) && second.page.number == 7 && second.bits.fill() == 0
}

fn is_second_router(r: &RouterPages) -> bool {
    let [only] = r.pages.items() else {
        return false;
    };
    r.shape.router.number == 1
        && r.shape.n == 7
        && r.missing
        && only.page.number == u32::MAX
        && only.bits.words() == [0, 1].as_slice()
}

fn is_answered(c: &Certificate) -> bool {
    let [start, next] = c.nodes.items() else {
        return false;
    };
    let [there, back] = c.edges.items() else {
        return false;
    };
    let [unknown] = c.unknown.items() else {
        return false;
    };
    start.from.is_none()
        && next.from == Some(0)
        && there.down == start.node
        && there.up == next.node
        && back.up == start.node
        && unknown.router.number == 1
        && c.clear.items().is_empty()
}

fn is_full(c: &Certificate) -> bool {
    let [first, second] = c.routers.items() else {
        return false;
    };
    let [link] = c.links.items() else {
        return false;
    };
    is_first_router(first)
        && is_second_router(second)
        && is_answered(c)
        && link.low.number == 0
        && link.high.number == 1
        && c.start.sig.bytes == [0; 28]
}

#[test]
fn a_text_is_written_again(rt: HostRuntime) -> Result<(), Fail> {
    let alloc = rt.alloc();
    let small = joined(alloc, &SMALL)?;
    assert!(rt; is_written_again(alloc, &small)?);
    let full = joined(alloc, &FULL)?;
    assert!(rt; is_written_again(alloc, &full)?);
    Ok(())
}

#[test]
fn each_kind_of_line_is_read(rt: HostRuntime) -> Result<(), Fail> {
    let alloc = rt.alloc();
    let full = joined(alloc, &FULL)?;
    match read_certificate(alloc, &full) {
        Ok(certificate) => assert!(rt; is_full(&certificate)),
        Err(_) => assert!(rt; false),
    }
    Ok(())
}
