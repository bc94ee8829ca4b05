//! The end that feeds.
ghost use Rattle.std.specs.Prelude.{◌≡◌, ◌+◌, ◌≤◌, true, false, [], ◌∷◌, ◌++◌, length, None};
ghost use Rattle.std.specs.Prelude.{OnOk, IfErr, OnErr, IsOk, IsTrue, IsFalse};
ghost use Rattle.crossbeam_queue.specs.Passes.{view, IsPassOf};
ghost use Rattle.sub_queue.specs.Line.{log};
ghost use Rattle.sub_queue.specs.Ends.{Fed, end_of};
ghost use Rattle.sub_queue.specs.Sizes.{size_of, behind, HasRoom, LacksRoom, Looked, KnowsSame, HandsBack, SentOne};

use crate::items::{End, Item, Measured};
use crate::outstanding::Outstanding;
use crate::rule::{Line, Log, Sends};
use crate::taking::Hearer;
use crossbeam_queue::Pass;
use std::alloc::Global;
use std::marker::Model;
use std::sync::{Arc, Wait};
use std::thread;

/// The end that feeds. Contracts see its queue, the most that this holds in size, all that was sent, and how many
/// items of that the feed knows to be taken.
///
/// What it sends fits behind what it doesn't know to be taken. It learns more by a look at the queue, and by a meeting
/// with its tap.
#[derive(Drop)]
pub struct Feed<T: Measured> {
    pub(crate) line: Arc<Line<T>, Global>,
    pub(crate) pass: Pass<Item<T>, Log<Item<T>>>,
    pub(crate) out: Outstanding,
    pub(crate) hearer: Hearer,
}

impl<T: Measured> Model for Feed<T> {
    ghost use Rattle.std.specs.Arc.{arc_value};
    ghost use Rattle.crossbeam_queue.specs.Passes.{view as seen, IsPassOf};
    ghost use Rattle.sub_queue.specs.Ends.{Fed, fed};
    ghost use Rattle.sub_queue.specs.Sizes.{Keeps};

    ghost Value = { Fed T };

    ghost view = { λ f. fed f.pass.table_id f.hearer.table f.out.cap (seen f.pass).sent f.out.passed };

    ghost invariant = { λ f. IsPassOf (arc_value f.line) f.pass × Keeps T.measure (seen f.pass) f.out f.hearer.number };
}

impl<T: Measured> Feed<T> {
    /// The size that surely has room, by what is known. Nothing that is shared is touched. O(1).
    pub fn known_room(&self) -> usize
        ensures { behind T.measure self.now + result ≡ self.now.cap }
    {
        self.out.room()
    }

    // Looks how many items the tap says that it took.
    fn look(&mut self)
        ensures { Looked self.old self.new }
    {
        let taken = self.hearer.hear();
        self.out.catch_up(taken);
    }

    /// Looks at the queue until all items but those that it held at one moment of the call are known to be taken, and
    /// answers the size that then surely has room. A tap in the midst of a take is waited for. O(1) beside the items
    /// that turn out to be taken.
    pub fn room<R: Wait>(&mut self, rt: &R) -> usize
        ensures same { Looked self.old self.new }
        ensures room { behind T.measure self.new + result ≡ self.new.cap }
    {
        let _ = &self.line;
        'looks: for _ in rt.forever() {
            self.look();
            if self.line.len_as::<Sends, R>(rt, &mut self.pass) >= self.out.len() {
                return self.known_room();
            }
            thread::yield_now();
        }
        unreachable!()
    }

    // Whether so much has room, with as few looks as serve.
    fn has_room<R: Wait>(&mut self, rt: &R, size: usize) -> bool
        ensures same { Looked self.old self.new }
        ensures known { HasRoom T.measure size self.old → IsTrue result × (self.new ≡ self.old) }
        ensures room { IsTrue result → HasRoom T.measure size self.new }
        ensures none { IsFalse result → LacksRoom T.measure size self.new }
    {
        let _ = &self.line;
        if self.known_room() >= size {
            return true;
        }
        self.look();
        self.known_room() >= size || self.room(rt) >= size
    }

    // Sends what has room.
    fn send<R: Wait>(&mut self, rt: &R, size: usize, item: Item<T>)
        requires size { (size ≡ size_of T.measure item) × (1 ≤ size) }
        requires open { end_of self.old.sent ≡ None }
        requires room { HasRoom T.measure size self.old }
        ensures { SentOne item self.old self.new × KnowsSame self.old self.new }
    {
        self.out.add(size);
        push_until(rt, &self.line, &mut self.pass, item);
    }

    /// Sends an item. It comes back only where, after a look at the queue, it has no room behind what isn't known to
    /// be taken; then nothing was sent. Where it has room by what is known, the feed doesn't look. It takes no memory;
    /// O(1) beside the items that turn out to be taken.
    ///
    /// Where each item has size 1 it comes back only where the queue held `cap` items at one moment of the call.
    pub fn push<R: Wait>(&mut self, rt: &R, item: T) -> Result<(), T>
        requires { end_of self.old.sent ≡ None }
        ensures sent { OnOk result (SentOne (Item.One item) self.old self.new) }
        ensures refused { IfErr result (HandsBack item self.old self.new) }
        ensures fits { HasRoom T.measure (T.measure item) self.old → IsOk result × KnowsSame self.old self.new }
        ensures full { OnErr result (LacksRoom T.measure (T.measure item) self.new) }
    {
        let size = item.size();
        if !self.has_room(rt, size) {
            return Err(item);
        }
        self.send(rt, size, Item::One(item));
        Ok(())
    }

    /// Sends the end, which has size 1, behind all items. Nothing may be sent behind it. It is refused as an item is.
    pub fn finish<R: Wait>(&mut self, rt: &R, end: End) -> Result<(), End>
        requires { end_of self.old.sent ≡ None }
        ensures sent { OnOk result (SentOne (Item.Ended end) self.old self.new) }
        ensures refused { IfErr result (HandsBack end self.old self.new) }
        ensures fits { HasRoom T.measure 1 self.old → IsOk result × KnowsSame self.old self.new }
        ensures full { OnErr result (LacksRoom T.measure 1 self.new) }
    {
        if !self.has_room(rt, 1) {
            return Err(end);
        }
        self.send(rt, 1, Item::Ended(end));
        Ok(())
    }
}

// Sends an item. The first try goes in, since there is room; the loop stands for what no contract of the queue says.
fn push_until<T: Measured, R: Wait>(
    rt: &R,
    line: &Line<T>,
    pass: &mut Pass<Item<T>, Log<Item<T>>>,
    item: Item<T>,
)
    requires line { IsPassOf line.now pass.old }
    requires role { view pass.old ≡ log true false (view pass.old).sent [] [] }
    ensures line { IsPassOf line.now pass.new × (pass.new.table_id ≡ pass.old.table_id) }
    ensures sent { view pass.new ≡ log true false ((view pass.old).sent ++ item ∷ []) [] [] }
{
    let mut item = item;
    'tries: for _ in rt.forever() {
        match line.push_as::<Sends, R>(rt, pass, item) {
            Ok(()) => return,
            Err(back) => item = back,
        }
    }
    unreachable!()
}
