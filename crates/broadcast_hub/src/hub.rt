//! The hub, who comes to it, and what it tells of itself.
ghost use Rattle.std.specs.Prelude.{◌≡◌, ◌+◌, ◌<◌, ◌≤◌, [], true, MatchResult, OnOk, None, is_some, vec_len, vec_capacity};
ghost use Rattle.broadcast_hub.specs.Hubs.{Hubbed, new_hub, live_in, here_in, most_here, feed_of, joined};
ghost use Rattle.broadcast_hub.specs.Joining.{IsTurnedAway};

use crate::answers::{Sub, SubFault};
use crate::members::{count_here, count_live, find};
use crate::subscription::Subscription;
use frame_batch::Batch;
use std::alloc::{AllocError, Global};
use std::marker::Model;
use sub_queue::{End, Feed};

const MOST_HERE: usize = 256;

/// A hub. Contracts see how many frames it published, the end with which it was closed, the id of the next
/// subscription, and the subscriptions that it keeps, with their feeds, in the order of their ids.
///
/// A feed is kept until its end was sent and its tap took that (`waiting`). Up to 256 subscriptions are live or
/// leaving; one that is gone doesn't count.
#[derive(Drop)]
pub struct Hub {
    pub(crate) subs: Vec<Subscription>,
    // The batches of a publication, between their making and their sending.
    pub(crate) batches: Vec<Batch>,
    pub(crate) next: u64,
    pub(crate) published: u64,
    pub(crate) closed: Option<End>,
}

impl Model for Hub {
    ghost use Rattle.std.specs.Prelude.{◌≡◌, ◌≤◌, [], vec_len, vec_capacity};
    ghost use Rattle.broadcast_hub.specs.Hubs.{Hubbed, AreKept};

    ghost Value = { Hubbed };

    ghost view = { λ h. record { published = h.published; closed = h.closed; next = h.next; kept = h.subs.items } };

    ghost invariant = { λ h. AreKept h.next h.subs.items × (h.batches.items ≡ [])
        × (vec_len h.subs ≤ vec_capacity h.batches) };
}

impl Hub {
    /// Nobody has subscribed, and nothing is published. It takes no memory.
    pub fn new(alloc: Global) -> Hub
        ensures { result ≡ new_hub }
    {
        Hub {
            subs: Vec::new(alloc),
            batches: Vec::new(alloc),
            next: 0,
            published: 0,
            closed: None,
        }
    }

    /// Takes a feed that has sent nothing yet. It is sent what is published from now on. Each refusal hands it back:
    /// `Closed` comes where the hub is closed, `Full256` where it is open and 256 are live or leaving, and `NoMemory`
    /// for want of memory alone, or where 2^64 - 1 have subscribed. O(kept).
    pub fn subscribe(&mut self, feed: Feed<Batch>) -> Result<Sub, SubFault>
        requires { (feed.sent ≡ []) × (1 ≤ feed.cap) }
        ensures { MatchResult result
            (λ s. (s.id ≡ self.old.next) × (s.first ≡ self.old.published) × (self.new ≡ joined feed self.old)
            × (self.old.closed ≡ None) × (here_in self.old.kept < most_here))
            (λ f. (self.new ≡ self.old) × IsTurnedAway feed self.old f) }
    {
        if let Some(end) = self.closed {
            return Err(SubFault::Closed(end, feed));
        }
        if count_here(&self.subs) >= MOST_HERE {
            return Err(SubFault::Full256(feed));
        }
        if self.next == u64::MAX || make_room(&mut self.subs, &mut self.batches).is_err() {
            return Err(SubFault::NoMemory(feed));
        }
        let sub = Sub {
            id: self.next,
            first: self.published,
        };
        self.subs
            .push_reserved(Subscription::new(sub.id, sub.first, feed));
        self.next += 1;
        Ok(sub)
    }

    /// How many subscriptions are live. O(kept).
    pub fn live(&self) -> usize
        ensures { result ≡ live_in self.now.kept }
    {
        count_live(&self.subs)
    }

    /// How many frames were published. O(1).
    pub fn published(&self) -> u64
        ensures { result ≡ self.now.published }
    {
        self.published
    }

    /// The end with which the hub was closed, if it was. O(1).
    pub fn closed(&self) -> Option<End>
        ensures { result ≡ self.now.closed }
    {
        self.closed
    }

    /// Whether the hub keeps the feed of this id: from its subscription on, until its tap took the end and met it
    /// (`waiting`). O(kept).
    pub fn holds(&self, id: u64) -> bool
        ensures { result ≡ is_some (feed_of id self.now.kept) }
    {
        find(&self.subs, id).is_some()
    }
}

// Makes room for one subscription more, and for as many batches as there are subscriptions then.
fn make_room(subs: &mut Vec<Subscription>, batches: &mut Vec<Batch>) -> Result<(), AllocError>
    requires { (batches.old.items ≡ []) × (vec_len subs.old ≤ vec_capacity batches.old) }
    ensures same { (subs.new.items ≡ subs.old.items) × (batches.new.items ≡ []) }
    ensures room { OnOk result
        (vec_len subs.new < vec_capacity subs.new × vec_len subs.new < vec_capacity batches.new) }
    ensures stays { vec_len subs.new ≤ vec_capacity batches.new }
{
    if subs.reserve(1).is_err() {
        return Err(AllocError);
    }
    if batches.reserve(subs.len() + 1).is_err() {
        return Err(AllocError);
    }
    Ok(())
}
