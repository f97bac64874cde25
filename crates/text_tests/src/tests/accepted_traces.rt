// Texts that are traces, and what is read from them.
use packet_signature::Kind;
use spie_base::{RouterId, Rules};
use std::rt::HostRuntime;
use std::test::Fail;
use trace_format::{What, read_trace};

const A: RouterId = RouterId { number: 0 };

const B: RouterId = RouterId { number: 1 };

const C: RouterId = RouterId { number: 2 };

// Three routers in a line, no packet and no record.
const EMPTY: &[u8] =
    b"spie-trace 1\nshape 3 16 60000 1000 8 5000 100 0123456789abcdef\nrouter a east\nrouter b east\nrouter c west\nlink a b\nlink b c\nbegin\nend\n";

// Packets of protocol 17, 1 and 4, and each line that may stand behind them.
const EACH_LINE: &[u8] =
    b"spie-trace 1\nshape 3 16 60000 1000 8 5000 100 0123456789abcdef\nrouter a east\nrouter b east\nrouter c west\nlink a b\nlink b c\nbegin\npacket 4500001c00010000401166ce0a0000010a0000020102030405060708\npacket 4500001c00010000400100000a0000010a0000020102030405060708\npacket 450000300005000040040000c6336401c63364024500001c00010000\nxf b frag 0 0\nxf b nat 0 1\nxf c icmp 0 1\nxf c ipip 0 2\nxf a decap 2 0\nrotate a\narchive b\nwatch c 2\ntick 281474976710655\nquery b 1 281474976710655\nfwd c 2\nend\n";

// What `EACH_LINE` asks for from its line 12 on.
const ASKED: [What; 12] = [
    What::Xf {
        router: B,
        kind: Kind::Frag,
        old: 0,
        new: 0,
    },
    What::Xf {
        router: B,
        kind: Kind::Nat,
        old: 0,
        new: 1,
    },
    What::Xf {
        router: C,
        kind: Kind::Icmp,
        old: 0,
        new: 1,
    },
    What::Xf {
        router: C,
        kind: Kind::Ipip,
        old: 0,
        new: 2,
    },
    What::Xf {
        router: A,
        kind: Kind::Decap,
        old: 2,
        new: 0,
    },
    What::Rotate { router: A },
    What::Archive { router: B },
    What::Watch {
        router: C,
        packet: 2,
    },
    What::Tick {
        time: 281_474_976_710_655,
    },
    What::Query {
        router: B,
        packet: 1,
        time: 281_474_976_710_655,
    },
    What::Fwd {
        router: C,
        packet: 2,
    },
    What::End,
];

const RULES: Rules = Rules {
    k: 3,
    n: 16,
    limit: 60000,
    span: 1000,
    keep: 8,
    age: 5000,
    width: 100,
    base: 0x0123_4567_89ab_cdef,
};

#[test]
fn each_line(rt: HostRuntime) -> Result<(), Fail> {
    let alloc = rt.alloc();
    let trace = read_trace(alloc, EACH_LINE).ok().ok_or("refused")?;
    assert_eq!(rt; trace.lines.items().len(), 12);
    let mut number = 12;
    for (line, asked) in trace.lines.items().iter().zip(&ASKED) {
        assert_eq!(rt; line.what, *asked);
        assert_eq!(rt; line.number, number);
        number = line.number.wrapping_add(1);
    }
    let protocols = trace.sigs.items().iter().map(|sig| sig.bytes[9]);
    assert_eq!(rt; protocols.eq([17, 1, 4]), true);
    Ok(())
}

#[test]
fn empty_trace(rt: HostRuntime) -> Result<(), Fail> {
    let alloc = rt.alloc();
    let trace = read_trace(alloc, EMPTY).ok().ok_or("refused")?;
    assert_eq!(rt; trace.rules, RULES);
    assert_eq!(rt; trace.topology.routers(), 3);
    assert_eq!(rt; trace.topology.regions(), 2);
    assert_eq!(rt; trace.topology.find(b"c"), Some(C));
    assert!(rt; trace.sigs.items().is_empty());
    assert_eq!(rt; trace.lines.items().len(), 1);
    assert_eq!(rt;
        trace.lines.items().first().map(|line| line.number),
        Some(9)
    );
    Ok(())
}

// The rules of a router that has pages of its own.
const OWN: Rules = Rules {
    k: 1,
    n: 20,
    limit: 1_048_576,
    span: 1000,
    keep: 8,
    age: 5000,
    width: 100,
    base: 0x0123_4567_89ab_cdef,
};

// A trace of each version, with the rules of its second router and the delay of its link.
const VERSIONS: [(&[u8], Rules, u32); 3] = [
    (
        b"spie-trace 1\nshape 3 16 60000 1000 8 5000 100 0123456789abcdef\nrouter a east\nrouter b east\nlink a b\nbegin\nend\n",
        RULES,
        0,
    ),
    (
        b"spie-trace 2\nshape 3 16 60000 1000 8 5000 100 0123456789abcdef\nrouter a east\nrouter b east\nlink a b\npages b 1 20 1048576\nbegin\nend\n",
        OWN,
        0,
    ),
    (
        b"spie-trace 3\nshape 3 16 60000 1000 8 5000 100 0123456789abcdef\nrouter a east\nrouter b east\npages b 1 20 1048576\nlink b a 4294967295\nbegin\nend\n",
        OWN,
        u32::MAX,
    ),
];

#[test]
fn each_version(rt: HostRuntime) -> Result<(), Fail> {
    for (text, rules, delay) in &VERSIONS {
        let trace = read_trace(rt.alloc(), text).ok().ok_or("refused")?;
        assert_eq!(rt; trace.shapes.items(), [RULES, *rules].as_slice());
        let one = trace.topology.find(b"a").ok_or("a")?;
        let other = trace.topology.find(b"b").ok_or("b")?;
        assert_eq!(rt; trace.topology.delay(one, other), Some(*delay));
    }
    Ok(())
}
