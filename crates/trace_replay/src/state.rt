// What a replay keeps between two lines, beside the agents.
use router_account::Watch;
use spie_base::{PageNo, RouterId};
use trace_history::Totals;

/// What a line was answered, but for how an archival splits its pages.
#[derive(Clone, Copy, PartialEq, Eq, Debug)]
pub enum Answer {
    /// A record entered this page.
    Entered(PageNo),
    /// A rotation opened this page.
    Opened(PageNo),
    /// A router's closed pages are archived. Which of them were put is known at the barrier.
    Archived(RouterId),
    Watched(Watch),
}

/// The clock, the answers that are not printed yet, and the report up to them with its totals.
#[derive(Drop)]
pub struct State {
    /// The time of the last tick, or 0.
    pub clock: u64,
    /// The place of the first line whose answer is not printed, from 0.
    pub first: usize,
    /// What the lines from there on were answered, up to the next barrier. With one worker the first is an archival.
    pub answers: Vec<Answer>,
    pub report: Vec<u8>,
    pub totals: Totals,
}
