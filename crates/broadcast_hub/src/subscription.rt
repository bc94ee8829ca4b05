//! One subscription of a hub.
ghost use Rattle.std.specs.Prelude.{◌≡◌, ◌⊎◌, ◌+◌, ◌≤◌, ◌<◌, [], true, false, length, IsTrue, IsFalse};
ghost use Rattle.sub_queue.specs.declared.items.Item.TheVariants.{One};
ghost use Rattle.sub_queue.specs.Ends.{Tapped, end_of};
ghost use Rattle.sub_queue.specs.Sizes.{behind, HasRoom, KnowsSame, SentOne};
ghost use Rattle.frame_batch.specs.Batches.{room_of};
ghost use Rattle.broadcast_hub.specs.Hubs.{Kept, is_live, is_leaving, is_here, is_live_as, subscribed};
ghost use Rattle.broadcast_hub.specs.Leaving.{left, left_as, Flushes, Meets};
ghost use Rattle.broadcast_hub.specs.Publishing.{Looks};

use frame_batch::Batch;
use std::marker::Model;
use std::sync::Wait;
use sub_queue::{End, Feed, Tap, waiting};

/// How a subscription stands.
#[derive(Clone, Copy, Debug, PartialEq, Eq)]
pub enum Standing {
    /// It is sent what is published.
    Live,
    /// It left when so many frames were published, and this end is still to be sent.
    Leaving { stop: u64, end: End },
    /// The end was sent, too.
    Gone { stop: u64, end: End },
}

// A subscription that the hub keeps. Clauses see its id, how many frames were published when it came, how it stands,
// and its feed.
#[derive(Drop)]
pub(crate) struct Subscription {
    id: u64,
    first: u64,
    standing: Standing,
    feed: Feed<Batch>,
}

impl Model for Subscription {
    ghost use Rattle.broadcast_hub.specs.Hubs.{Kept, Suits};

    ghost Value = { Kept };

    ghost view = { λ s. record { id = s.id; first = s.first; standing = s.standing; feed = s.feed } };

    ghost invariant = { λ s. Suits s.standing s.feed };
}

impl Subscription {
    // A live one.
    pub(crate) fn new(id: u64, first: u64, feed: Feed<Batch>) -> Subscription
        requires { (feed.sent ≡ []) × (1 ≤ feed.cap) }
        ensures { result ≡ subscribed id first feed }
    {
        Subscription {
            id,
            first,
            standing: Standing::Live,
            feed,
        }
    }

    pub(crate) fn id(&self) -> u64
        ensures { result ≡ self.now.id }
    {
        self.id
    }

    pub(crate) fn is_live(&self) -> bool
        ensures { result ≡ is_live self.now.standing }
    {
        match self.standing {
            Standing::Live => true,
            Standing::Leaving { .. } | Standing::Gone { .. } => false,
        }
    }

    // Whether it is live or leaving.
    pub(crate) fn is_here(&self) -> bool
        ensures { result ≡ is_here self.now.standing }
    {
        match self.standing {
            Standing::Live | Standing::Leaving { .. } => true,
            Standing::Gone { .. } => false,
        }
    }

    // How many frames surely have room, by what is known.
    pub(crate) fn known_room(&self) -> usize
        ensures { behind room_of self.now.feed + result ≡ self.now.feed.cap }
    {
        self.feed.known_room()
    }

    // Looks at the queue, where it is live and isn't known to have room for so many frames.
    pub(crate) fn look<R: Wait>(&mut self, rt: &R, frames: usize)
        ensures looks { Looks self.old self.new }
        ensures none { frames ≡ 0 → self.new ≡ self.old }
    {
        if self.is_live() && self.feed.known_room() < frames {
            let _ = self.feed.room(rt);
        }
    }

    // Sends what is known to have room.
    pub(crate) fn send<R: Wait>(&mut self, rt: &R, batch: Batch)
        requires live { is_live self.old.standing ≡ true }
        requires room { HasRoom room_of (room_of batch) self.old.feed }
        ensures stays { self.new ≡ record self.old { feed = self.new.feed } }
        ensures sent { SentOne (One batch) self.old.feed self.new.feed × KnowsSame self.old.feed self.new.feed }
    {
        match self.feed.push(rt, batch) {
            Ok(()) => {}
            Err(_) => unreachable!(),
        }
    }

    // Leaves, if it is live.
    pub(crate) fn leave(&mut self, stop: u64, end: End)
        ensures { self.new ≡ left stop end self.old }
    {
        if self.is_live() {
            self.standing = Standing::Leaving { stop, end };
        }
    }

    // Leaves, if it is live and has this id. Answers whether it did.
    pub(crate) fn leave_as(&mut self, id: u64, stop: u64, end: End) -> bool
        ensures leaves { self.new ≡ left_as id stop end self.old }
        ensures did { result ≡ is_live_as id self.old }
    {
        if !self.is_live() || self.id != id {
            return false;
        }
        self.standing = Standing::Leaving { stop, end };
        true
    }

    // Sends the end that waits, if one does and there is room. Answers whether it still waits.
    pub(crate) fn flush<R: Wait>(&mut self, rt: &R) -> bool
        ensures flushes { Flushes self.old self.new }
        ensures waits { result ≡ is_leaving self.new.standing }
    {
        let Standing::Leaving { stop, end } = self.standing else {
            return false;
        };
        if self.feed.finish(rt, end).is_err() {
            return true;
        }
        self.standing = Standing::Gone { stop, end };
        false
    }

    // Meets the tap of its feed, and answers how many items that has still to take.
    pub(crate) fn meet(&mut self, tap: &mut Tap<Batch>) -> usize
        requires { self.old.feed.line ≡ tap.old.line }
        ensures stays { self.new ≡ record self.old { feed = self.new.feed } }
        ensures feed { self.new.feed ≡ record self.old.feed { known = length tap.old.taken } }
        ensures meets { Meets self.old.feed tap.old tap.new result }
    {
        waiting(&mut self.feed, tap)
    }
}
