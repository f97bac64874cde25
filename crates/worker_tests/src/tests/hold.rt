// A turnstile that puts three lines into an order.
use page_gate::Pass;
use std::sync::Wait;
use std::sync::atomic::{AtomicU64, Ordering};
use std::thread::{Threads, yield_now};
use trace_workers::Turnstile;

// A wait for another thread is given up after so many turns.
const TURNS: u64 = 100_000_000;

/// Holds the second of three lines until the first has passed, and the third until the second has. It adds 10 and the page
/// of each record line that it is told of.
#[derive(Drop)]
pub struct Hold {
    first: u64,
    second: u64,
    third: u64,
    passed: AtomicU64,
    gave_up: AtomicU64,
    told: AtomicU64,
}

impl Hold {
    pub fn new(first: u64, second: u64, third: u64) -> Hold {
        Hold {
            first,
            second,
            third,
            passed: AtomicU64::new(0),
            gave_up: AtomicU64::new(0),
            told: AtomicU64::new(0),
        }
    }

    /// Whether a line did not come.
    pub fn gave_up(&self) -> bool {
        self.gave_up.load(Ordering::SeqCst) != 0
    }

    /// The sum of 10 and the page of each record line.
    pub fn told(&self) -> u64 {
        self.told.load(Ordering::SeqCst)
    }

    fn wait_for(&self, passed: u64) {
        for _ in 0..TURNS {
            if passed <= self.passed.load(Ordering::SeqCst) {
                return;
            }
            yield_now();
        }
        self.gave_up.store(1, Ordering::SeqCst);
    }
}

impl Turnstile for Hold {
    fn before<R: Threads + Wait + Sync>(&self, _rt: &R, line: u64) {
        if line == self.second {
            self.wait_for(1);
        }
        if line == self.third {
            self.wait_for(2);
        }
    }

    fn after<R: Threads + Wait + Sync>(&self, _rt: &R, line: u64, pass: Option<&Pass>) {
        if let Some(entry) = pass.and_then(|p| p.last()) {
            self.told
                .fetch_add(10 + u64::from(entry.page.number), Ordering::SeqCst);
        }
        if line == self.first {
            self.passed.store(1, Ordering::SeqCst);
        }
        if line == self.second {
            self.passed.store(2, Ordering::SeqCst);
        }
    }
}
