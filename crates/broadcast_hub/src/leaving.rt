//! Subscriptions leave, and their ends are sent.
ghost use Rattle.std.specs.Prelude.{◌≡◌, ◌↔◌, true, false, if◌then◌else◌, length, map, IfSome, MatchResult, None, Some};
ghost use Rattle.std.specs.List.{AllZip};
ghost use Rattle.sub_queue.specs.Ends.{end_of};
ghost use Rattle.broadcast_hub.specs.Hubs.{Hubbed, feed_of, has_live, leaving_in, live_in};
ghost use Rattle.broadcast_hub.specs.Leaving.{kept_after, left, left_as, parted, shut, Flushes, IsTapOf, Meets};

use crate::answers::Unknown;
use crate::hub::Hub;
use crate::members::{count_live, find};
use crate::subscription::Subscription;
use frame_batch::Batch;
use std::sync::Wait;
use sub_queue::{End, Tap};

impl Hub {
    /// A live subscription leaves: it is sent nothing more but this end, which waits for `flush_ends`. Answers how many
    /// frames were published until now. `Unknown` comes exactly where no live subscription has the id, and then nothing
    /// changes. O(kept), and no memory.
    pub fn unsubscribe(&mut self, id: u64, end: End) -> Result<u64, Unknown>
        ensures { MatchResult result
            (λ n. (has_live id self.old.kept ≡ true) × (n ≡ self.old.published) × (self.new ≡ parted id end self.old))
            (λ u. (has_live id self.old.kept ≡ false) × (u.id ≡ id) × (self.new ≡ self.old)) }
    {
        if !leave_as(&mut self.subs, id, self.published, end) {
            return Err(Unknown { id });
        }
        Ok(self.published)
    }

    /// Closes the hub: each live subscription leaves with this end. Nothing more is published, and nobody subscribes.
    /// O(kept), and no memory.
    pub fn close(&mut self, end: End)
        requires { self.old.closed ≡ None }
        ensures { self.new ≡ shut end self.old }
    {
        self.closed = Some(end);
        leave_all(&mut self.subs, self.published, end);
    }

    /// Closes the hub with this end where it is open and nobody is live, and answers whether it did. Else nothing
    /// changes. O(kept), and no memory.
    pub fn close_if_idle(&mut self, end: End) -> bool
        ensures did { result ≡ true ↔ ((self.old.closed ≡ None) × (live_in self.old.kept ≡ 0)) }
        ensures closed { self.new ≡ (if result then record self.old { closed = Some end } else self.old) }
    {
        if self.closed.is_some() || count_live(&self.subs) > 0 {
            return false;
        }
        self.closed = Some(end);
        true
    }

    /// Sends each end that waits, where its queue has room, and answers how many still wait: each of those had no room
    /// after a look. O(kept), and no memory.
    pub fn flush_ends<R: Wait>(&mut self, rt: &R) -> usize
        ensures hub { self.new ≡ record self.old { kept = self.new.kept } }
        ensures flushes { AllZip Flushes self.old.kept self.new.kept }
        ensures waits { result ≡ leaving_in self.new.kept }
    {
        flush_all(rt, &mut self.subs)
    }

    /// The feed of this id meets its tap, and the hub answers how many items that has still to take, an end counted:
    /// its next so many takes find one. A feed whose tap took the end leaves the hub. O(kept) beside the items that
    /// turn out to be taken, and no memory.
    pub fn waiting(&mut self, id: u64, tap: &mut Tap<Batch>) -> usize
        requires { IsTapOf tap.old (feed_of id self.old.kept) }
        ensures meets { IfSome (feed_of id self.old.kept) (λ feed. Meets feed tap.old tap.new result) }
        ensures hub { self.new ≡ record self.old {
          kept = kept_after id (length tap.old.taken) (end_of tap.old.taken) self.old.kept;
        } }
    {
        let Some(i) = find(&self.subs, id) else {
            unreachable!()
        };
        let left = self.subs[i].meet(tap);
        if tap.ended().is_some() {
            let _ = self.subs.remove(i);
        }
        left
    }
}

// Who is live and has this id leaves. Answers whether there is one.
fn leave_as(subs: &mut [Subscription], id: u64, stop: u64, end: End) -> bool
    ensures leaves { subs.new ≡ map (left_as id stop end) subs.old }
    ensures did { result ≡ has_live id subs.old }
{
    let mut did = false;
    'subs: for i in 0..subs.len() {
        did |= subs[i].leave_as(id, stop, end);
    }
    did
}

// All who are live leave.
fn leave_all(subs: &mut [Subscription], stop: u64, end: End)
    ensures { subs.new ≡ map (left stop end) subs.old }
{
    'subs: for i in 0..subs.len() {
        subs[i].leave(stop, end);
    }
}

// Sends the ends that wait. Answers how many still do.
fn flush_all<R: Wait>(rt: &R, subs: &mut [Subscription]) -> usize
    ensures flushes { AllZip Flushes subs.old subs.new }
    ensures waits { result ≡ leaving_in subs.new }
{
    let mut waits = 0;
    'subs: for i in 0..subs.len() {
        if subs[i].flush(rt) {
            waits += 1;
        }
    }
    waits
}
