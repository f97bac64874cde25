// Workers whose lines are held until others have passed, and an operator beside them.
use page_gate::Pass;
use page_shelf::MemShelf;
use spie_base::{Entry, PageNo, Sig};
use std::rt::HostRuntime;
use std::sync::Wait;
use std::sync::atomic::{AtomicU64, Ordering};
use std::test::Fail;
use std::thread;
use std::thread::Threads;
use trace_format::read_trace;
use trace_replay::{Free, Turnstile, Yard, replay, replay_alone};

// How often a held line looks whether it may go on.
const TURNS: u64 = 100_000_000;

// Waits until this is set, and not for ever.
fn comes(passed: &AtomicU64) -> bool {
    for _ in 0..TURNS {
        if passed.load(Ordering::SeqCst) == 1 {
            return true;
        }
        thread::yield_now();
    }
    false
}

// A packet that is sent in fragments at the second router.
const FRAGMENTS: &[u8] =
    b"spie-trace 1\nshape 3 16 60000 1000 8 5000 100 0123456789abcdef\nrouter a east\nrouter b east\nrouter c west\nlink a b\nlink b c\nbegin\npacket 450005dc00040000401100000a0000010a0000020102030405060708\npacket 4500023c00042000401100000a0000010a0000020102030405060708\npacket 4500023c00042045401100000a0000010a000002a1a2a3a4a5a6a7a8\nfwd a 0\nxf b frag 0 1\nxf b frag 0 2\nfwd c 1\nfwd c 2\nquery c 2 0\nquery c 1 0\nend\n";

// The signatures of the packet and of its fragments.
const WHOLE: Sig = Sig {
    bytes: [
        0x45, 0x00, 0x05, 0xdc, 0x00, 0x04, 0x00, 0x00, 0x00, 0x11, 0x00, 0x00, 0x0a, 0x00, 0x00,
        0x01, 0x0a, 0x00, 0x00, 0x02, 0x01, 0x02, 0x03, 0x04, 0x05, 0x06, 0x07, 0x08,
    ],
};

const FIRST: Sig = Sig {
    bytes: [
        0x45, 0x00, 0x02, 0x3c, 0x00, 0x04, 0x20, 0x00, 0x00, 0x11, 0x00, 0x00, 0x0a, 0x00, 0x00,
        0x01, 0x0a, 0x00, 0x00, 0x02, 0x01, 0x02, 0x03, 0x04, 0x05, 0x06, 0x07, 0x08,
    ],
};

const SECOND: Sig = Sig {
    bytes: [
        0x45, 0x00, 0x02, 0x3c, 0x00, 0x04, 0x20, 0x45, 0x00, 0x11, 0x00, 0x00, 0x0a, 0x00, 0x00,
        0x01, 0x0a, 0x00, 0x00, 0x02, 0xa1, 0xa2, 0xa3, 0xa4, 0xa5, 0xa6, 0xa7, 0xa8,
    ],
};

// Holds line 12 until line 13 has passed, which another worker does, and looks at the entry of each record line.
#[derive(Drop)]
struct HeldRecord {
    passed: AtomicU64,
    held_in_vain: AtomicU64,
    right: AtomicU64,
}

// The signature that a line records.
fn recorded_at(line: u64) -> Option<Sig> {
    match line {
        12 => Some(WHOLE),
        13 | 15 => Some(FIRST),
        14 | 16 => Some(SECOND),
        _ => None,
    }
}

impl Turnstile for HeldRecord {
    fn before<R: Threads + Wait + Sync>(&self, _rt: &R, line: u64) {
        if line == 12 && !comes(&self.passed) {
            self.held_in_vain.store(1, Ordering::SeqCst);
        }
    }

    fn after<R: Threads + Wait + Sync>(&self, _rt: &R, line: u64, pass: Option<&Pass>) {
        if line == 13 {
            self.passed.store(1, Ordering::SeqCst);
        }
        let Some(sig) = recorded_at(line) else {
            return;
        };
        let entry = Entry {
            page: PageNo { number: 0 },
            sig,
        };
        if pass.and_then(|pass| pass.last()) == Some(entry) {
            self.right.fetch_add(1, Ordering::SeqCst);
        }
    }
}

#[test]
fn overlap(rt: HostRuntime) -> Result<(), Fail> {
    let alloc = rt.alloc();
    let Ok(trace) = read_trace(alloc, FRAGMENTS) else {
        return Err(Fail::from("refused"));
    };
    let mut shelf = MemShelf::new(alloc, &[])?;
    let mut yard = Yard::new(alloc)?;
    let turnstile = HeldRecord {
        passed: AtomicU64::new(0),
        held_in_vain: AtomicU64::new(0),
        right: AtomicU64::new(0),
    };
    let replayed = replay(
        &rt,
        alloc,
        &trace,
        &mut shelf,
        &mut yard,
        2,
        &turnstile,
        Vec::new(alloc),
    )?;
    assert_eq!(rt; turnstile.held_in_vain.load(Ordering::SeqCst), 0);
    assert_eq!(rt; turnstile.right.load(Ordering::SeqCst), 5);
    assert_eq!(rt; yard.routers(), 3);
    assert_eq!(rt; replayed.totals.nodes, 6);
    assert_eq!(rt; replayed.totals.edges, 6);
    assert_eq!(rt; replayed.totals.clear, 6);
    let report = replayed.report.items();
    assert!(rt;
        report.starts_with(
            b"spie-report 1\n12 in 0\n13 in 0\n14 in 0\n15 in 0\n16 in 0\n17 query\n".as_slice()
        )
    );
    Ok(())
}

// A record among four rotations of its router.
const ROTATIONS: &[u8] =
    b"spie-trace 1\nshape 3 16 60000 1000 8 5000 100 0123456789abcdef\nrouter a east\nrouter b east\nrouter c west\nlink a b\nlink b c\nbegin\npacket 4500001c00010000401166ce0a0000010a0000020102030405060708\nfwd a 0\nrotate a\nrotate a\nrotate a\nrotate a\nwatch a 0\nend\n";

// Holds line 10, a record, until line 11 has passed, a rotation; and line 12, a rotation, until line 10 has passed.
#[derive(Drop)]
struct HeldTurns {
    rotated: AtomicU64,
    recorded: AtomicU64,
    held_in_vain: AtomicU64,
}

impl Turnstile for HeldTurns {
    fn before<R: Threads + Wait + Sync>(&self, _rt: &R, line: u64) {
        let gone_on = match line {
            10 => comes(&self.rotated),
            12 => comes(&self.recorded),
            _ => true,
        };
        if !gone_on {
            self.held_in_vain.store(1, Ordering::SeqCst);
        }
    }

    fn after<R: Threads + Wait + Sync>(&self, _rt: &R, line: u64, pass: Option<&Pass>) {
        if line == 10 && pass.is_some() {
            self.recorded.store(1, Ordering::SeqCst);
        }
        if line == 11 && pass.is_none() {
            self.rotated.store(1, Ordering::SeqCst);
        }
    }
}

// The fourth rotation has no free slot, and the watch sees a record of its own segment.
#[test]
fn beside(rt: HostRuntime) -> Result<(), Fail> {
    let alloc = rt.alloc();
    let Ok(trace) = read_trace(alloc, ROTATIONS) else {
        return Err(Fail::from("refused"));
    };
    let mut shelf = MemShelf::new(alloc, &[])?;
    let mut yard = Yard::new(alloc)?;
    let turnstile = HeldTurns {
        rotated: AtomicU64::new(0),
        recorded: AtomicU64::new(0),
        held_in_vain: AtomicU64::new(0),
    };
    let replayed = replay(
        &rt,
        alloc,
        &trace,
        &mut shelf,
        &mut yard,
        2,
        &turnstile,
        Vec::new(alloc),
    )?;
    assert_eq!(rt; turnstile.held_in_vain.load(Ordering::SeqCst), 0);
    assert_eq!(rt;
        *replayed.report.items(),
        *b"spie-report 1\n10 in 1\n11 opened 1\n12 opened 2\n13 opened 3\n14 opened 4\n15 seen\n16 end\n".as_slice()
    );
    Ok(())
}

// With one worker a replay is that of one thread.
#[test]
fn one_worker(rt: HostRuntime) -> Result<(), Fail> {
    let alloc = rt.alloc();
    let Ok(trace) = read_trace(alloc, FRAGMENTS) else {
        return Err(Fail::from("refused"));
    };
    let mut shelf = MemShelf::new(alloc, &[])?;
    let mut yard = Yard::new(alloc)?;
    let mut other = Yard::new(alloc)?;
    let replayed = replay(
        &rt,
        alloc,
        &trace,
        &mut shelf,
        &mut yard,
        1,
        &Free,
        Vec::new(alloc),
    )?;
    let alone = replay_alone(alloc, &trace, &mut shelf, &mut other, Vec::new(alloc))?;
    assert_eq!(rt; replayed, alone);
    Ok(())
}
