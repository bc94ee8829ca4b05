//! The subscriptions that a hub keeps, as a list.
ghost use Rattle.std.specs.Prelude.{◌≡◌, ◌+◌, ◌≤◌, ◌<◌, ◌==◌, true, false, length, slice_index_or, IsTrue, MatchOption, Some, None};
ghost use Rattle.broadcast_hub.specs.Hubs.{live_in, here_in};
ghost use Rattle.broadcast_hub.specs.Sending.{IsAt};

use crate::subscription::Subscription;

// How many are live.
pub(crate) fn count_live(subs: &[Subscription]) -> usize
    ensures { result ≡ live_in subs.now }
{
    let mut count = 0;
    'subs: for sub in subs {
        if sub.is_live() {
            count += 1;
        }
    }
    count
}

// How many are live or leaving.
pub(crate) fn count_here(subs: &[Subscription]) -> usize
    ensures { result ≡ here_in subs.now }
{
    let mut count = 0;
    'subs: for sub in subs {
        if sub.is_here() {
            count += 1;
        }
    }
    count
}

// The place of the subscription with this id.
pub(crate) fn find(subs: &[Subscription], id: u64) -> Option<usize>
    ensures { IsAt id subs.now result }
{
    'subs: for i in 0..subs.len() {
        if subs[i].id() == id {
            return Some(i);
        }
    }
    None
}
