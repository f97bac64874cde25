// Laws over every agent. The functions do nothing: their contracts are the laws.
ghost use Rattle.data_agent.specs.Laws.{EntriesAre, EntriesExist, StandsBesideNone};

use crate::Sight;
use std::marker::Sync;

/// The keeper of an agent has the entries of each ledger for which the agent stands, in any order.
pub fn entries_are()
    ensures { EntriesAre }
{}

/// Each entry of a ledger for which an agent stands is in a page that was opened.
pub fn entries_exist()
    ensures { EntriesExist }
{}

/// An agent that stands for a ledger does so beside no pass, so what is called beside passes may be called with none out.
pub fn stands_beside_none()
    ensures { StandsBesideNone }
{}

// Takes what threads may share.
fn share<T: Sync>(_shared: &T) {}

/// Threads may share a sight: `Sight` is `Sync`.
pub fn sight_is_shared(sight: &Sight) {
    share(sight);
}
