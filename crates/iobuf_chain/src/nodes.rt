//! Lists of one or more items, of which the first lies in the list itself: a list of one owns no memory.
ghost use Rattle.std.specs.Prelude.{◌≡◌, ◌+◌, ◌<◌, ◌≤◌, List, [], ◌∷◌, ◌++◌, Some, length, take, drop, slice_get, slice_set, ◌↔◌, IsNone, IfNone, IsOk, IfOk, OnOk, OnErr, MatchResult};
ghost use Rattle.std.specs.Borrow.{sem};
ghost use Rattle.std.specs.Prelude.{IfSome};
ghost use Rattle.std.specs.VecDeque.{deque_len, deque_capacity};
ghost use Rattle.buffer_model.specs.Share.{IsAlone};
ghost use Rattle.buffer_model.specs.Segment.{trimmed_start, trimmed_end};
ghost use Rattle.iobuf_chain.specs.Lists.{between, without, rotated, inserted_after, TurnsAt};
ghost use Rattle.iobuf_chain.specs.Shares.{ClonesAt, SharesFirst};
ghost use Rattle.iobuf_chain.specs.TailLends.{lends_last, lends_node_tail};
ghost use Rattle.iobuf_chain.specs.Tails.{last_of};

use iobuf_node::{IoBufOf, Wrapped};
use share_count::Mint;
use std::alloc::{AllocError, Global};
use std::collections::VecDeque;
use std::marker::Model;
use std::mem;
use storage::Told;

/// One or more items. Contracts see the list of them.
#[derive(Drop)]
pub(crate) struct Nodes<T> {
    first: T,
    rest: VecDeque<T>,
}

impl<T> Model for Nodes<T> {
    ghost use Rattle.std.specs.Prelude.{List, ◌∷◌};

    ghost Value = { List T };

    ghost view = { λ n. n.first ∷ n.rest.items };
}

impl<T: Drop> Nodes<T> {
    // One item.
    #[inline(always)]
    pub(crate) fn of(alloc: Global, item: T) -> Nodes<T>
        ensures { result ≡ item ∷ [] }
    {
        Nodes {
            first: item,
            rest: VecDeque::new(alloc),
        }
    }

    // The allocator that the list was made with.
    pub(crate) fn allocator(&self) -> Global {
        *self.rest.allocator()
    }

    // The first item, and the others.
    #[inline(always)]
    pub(crate) fn into_parts(self) -> (T, VecDeque<T>)
        ensures { result.0 ∷ result.1.items ≡ self }
    {
        (self.first, self.rest)
    }

    // A list of these.
    pub(crate) fn from_parts(first: T, rest: VecDeque<T>) -> Nodes<T>
        ensures { result ≡ first ∷ rest.items }
    {
        Nodes { first, rest }
    }

    // How many items there are.
    #[inline(always)]
    pub(crate) fn len(&self) -> usize
        ensures count { result ≡ length self.now }
        ensures some { 0 < result }
    {
        self.rest.len() + 1
    }

    // How many items there are beside the first.
    fn more(&self) -> usize
        ensures { result + 1 ≡ length self.now }
    {
        self.rest.len()
    }

    // Item i.
    #[inline(always)]
    pub(crate) fn get(&self, i: usize) -> &T
        requires { i < length self.now }
        ensures { slice_get self.now i ≡ Some result.now }
    {
        if i == 0 {
            return &self.first;
        }
        &self.rest[i - 1]
    }

    // Puts an item in the place of another, which is handed back.
    pub(crate) fn swap(&mut self, i: usize, item: T) -> T
        requires { i < length self.old }
        ensures new { self.new ≡ slice_set self.old i item }
        ensures old { slice_get self.old i ≡ Some result }
    {
        if i == 0 {
            return mem::replace(&mut self.first, item);
        }
        mem::replace(&mut self.rest[i - 1], item)
    }

    // The first item becomes the last. O(1).
    fn turn(&mut self)
        ensures { self.new ≡ rotated 1 self.old }
    {
        if let Some(next) = self.rest.pop_front() {
            let front = mem::replace(&mut self.first, next);
            self.rest.push_back_reserved(front);
        }
    }

    // Item i becomes the first. O(i).
    #[tactic(auto, using(crate::proofs::Lists::rotated_more))]
    pub(crate) fn rotate(&mut self, i: usize)
        requires { i < length self.old }
        ensures { self.new ≡ rotated i self.old }
    {
        'turns: for _ in 0..i {
            self.turn();
        }
    }

    // Others come last. At want of memory they are handed back. O(others), amortised.
    pub(crate) fn append(&mut self, others: Nodes<T>) -> Result<(), Nodes<T>>
        ensures { MatchResult result (λ _. self.new ≡ self.old ++ others) (λ o. (o ≡ others) × (self.new ≡ self.old)) }
    {
        if self.rest.reserve(others.len()).is_err() {
            return Err(others);
        }
        extend_reserved(&mut self.rest, others);
        Ok(())
    }

    // Others stand behind item i. At want of memory they are handed back. O(others, and the fewer of those before and
    // behind).
    pub(crate) fn insert_after(&mut self, i: usize, others: Nodes<T>) -> Result<(), Nodes<T>>
        requires { i < length self.old }
        ensures { MatchResult result (λ _. self.new ≡ inserted_after i others self.old) (λ o. (o ≡ others)
            × (self.new ≡ self.old)) }
    {
        if self.rest.reserve(others.len()).is_err() {
            return Err(others);
        }
        let behind = self.rest.len() - i;
        self.rest.rotate_left(i);
        extend_reserved(&mut self.rest, others);
        self.rest.rotate_left(behind);
        Ok(())
    }

    // The first k items leave, with another behind them. At want of memory that one is handed back. O(k).
    pub(crate) fn take_front_with(&mut self, k: usize, last: T) -> Result<Nodes<T>, T>
        requires { k < length self.old }
        ensures front { MatchResult result (λ n. (n ≡ take k self.old ++ last ∷ [])
            × (self.new ≡ drop k self.old)) (λ x. (x ≡ last) × (self.new ≡ self.old)) }
        ensures none { k ≡ 0 → IsOk result }
    {
        let alloc = self.allocator();
        let Ok(mut taken) = VecDeque::with_capacity(alloc, k) else {
            return Err(last);
        };
        if k == 0 {
            return Ok(Nodes::of(alloc, last));
        }
        move_front(&mut self.rest, &mut taken, k - 1);
        taken.push_back_reserved(last);
        Ok(self.leave(taken))
    }

    // The first item leaves, with others behind it.
    fn leave(&mut self, others: VecDeque<T>) -> Nodes<T>
        requires { 1 < length self.old }
        ensures { (result ≡ take 1 self.old ++ others.items) × (self.new ≡ drop 1 self.old) }
    {
        let Some(next) = self.rest.pop_front() else {
            unreachable!()
        };
        let first = mem::replace(&mut self.first, next);
        Nodes {
            first,
            rest: others,
        }
    }

    // The items from place i up to and without place j leave; one stays. O(those that leave, and the fewer of those
    // before and behind).
    pub(crate) fn take_between(&mut self, i: usize, j: usize) -> Result<Nodes<T>, AllocError>
        requires some { i < j }
        requires there { j ≤ length self.old }
        requires stays { j < length self.old + i }
        ensures taken { IfOk result (λ n. n ≡ between i j self.old) }
        ensures left { OnOk result (self.new ≡ without i j self.old) }
        ensures refused { OnErr result (self.new ≡ self.old) }
        ensures one { j ≡ i + 1 → IsOk result }
    {
        let more = j - i - 1;
        let mut taken = VecDeque::with_capacity(self.allocator(), more)?;
        if i == 0 {
            move_front(&mut self.rest, &mut taken, more);
            return Ok(self.leave(taken));
        }
        self.rest.rotate_left(i - 1);
        let Some(first) = self.rest.pop_front() else {
            unreachable!()
        };
        move_front(&mut self.rest, &mut taken, more);
        self.rest.rotate_right(i - 1);
        Ok(Nodes { first, rest: taken })
    }
}

impl<W: Wrapped, O: Told> Nodes<IoBufOf<W, O>> {
    // A clone of the first node.
    pub(crate) fn clone_first(
        &mut self,
        alloc: Global,
        mint: &mut Mint,
    ) -> Result<IoBufOf<W, O>, AllocError>
        ensures shares { IfOk result (λ c. ClonesAt 0 mint.old mint.new self.old self.new c) }
        ensures refused { OnErr result ((self.new ≡ self.old) × (mint.new ≡ mint.old)) }
    {
        match self.first.clone_one(alloc, mint) {
            Ok(clone) => Ok(clone),
            Err(e) => Err(e),
        }
    }

    // A share of the first node, where it has the weight for one.
    #[inline(always)]
    pub(crate) fn share_first(&mut self) -> Result<Option<IoBufOf<W, O>>, AllocError>
        ensures none { IfOk result (λ o. IsNone o ↔ IfSome (slice_get self.old 0) (λ s. s.share.weight < 2)) }
        ensures stays { IfOk result (λ o. IfNone o (self.new ≡ self.old)) }
        ensures share { IfOk result (λ o. IfSome o (SharesFirst self.old self.new)) }
        ensures refused { OnErr result (self.new ≡ self.old) }
    {
        self.first.share_one()
    }

    // The first n bytes of the room after the last node's data, for writing.
    pub(crate) fn last_tail(&mut self, n: usize) -> &mut [u8]
        requires alone { IfSome (last_of self.old) (λ s. IsAlone s.share) }
        requires room { IfSome (last_of self.old) (λ s. n ≤ length s.after) }
        ensures* lends { sem 𝓛 (lends_last W.row O.row W.Wrapped self.entry result) }
        ensures value { IfSome (last_of self.old) (λ s. result.now ≡ take n s.after) }
    {
        let more = self.more();
        if more == 0 {
            return tail_of(&mut self.first, n);
        }
        tail_of(&mut self.rest[more - 1], n)
    }

    // The first k bytes of the first node leave.
    #[inline(always)]
    pub(crate) fn trim_first_start(&mut self, k: usize)
        requires { IfSome (slice_get self.old 0) (λ s. k ≤ length s.window) }
        ensures { TurnsAt (trimmed_start k) 0 self.old self.new }
    {
        self.first.trim_start(k);
    }

    // The last k bytes of the first node leave.
    pub(crate) fn trim_first_end(&mut self, k: usize)
        requires { IfSome (slice_get self.old 0) (λ s. k ≤ length s.window) }
        ensures { TurnsAt (trimmed_end k) 0 self.old self.new }
    {
        self.first.trim_end(k);
    }
}

// The first n bytes of the room after a node's data, for writing.
fn tail_of<W: Wrapped, O: Told>(node: &mut IoBufOf<W, O>, n: usize) -> &mut [u8]
    requires alone { IsAlone node.old.share }
    requires room { n ≤ length node.old.after }
    ensures* lends { sem 𝓛 (lends_node_tail W.row O.row W.Wrapped node.entry result) }
    ensures value { result.now ≡ take n node.old.after }
{
    node.alone_mut().tail_mut(n)
}

// A list's items come last in another that has room for them. O(items), and no memory.
fn extend_reserved<T: Drop>(into: &mut VecDeque<T>, others: Nodes<T>)
    requires { deque_len into.old + length others ≤ deque_capacity into.old }
    ensures items { into.new.items ≡ into.old.items ++ others }
    ensures len { deque_len into.new ≡ deque_len into.old + length others }
{
    let Nodes { first, mut rest } = others;
    into.push_back_reserved(first);
    let _ = into.append(&mut rest);
}

// The first k items of one list move to the end of another, which has room for them. O(k), and no memory.
fn move_front<T: Drop>(from: &mut VecDeque<T>, into: &mut VecDeque<T>, k: usize)
    requires some { k ≤ length from.old.items }
    requires room { length into.old.items + k ≤ deque_capacity into.old }
    ensures taken { into.new.items ≡ into.old.items ++ take k from.old.items }
    ensures left { from.new.items ≡ drop k from.old.items }
    ensures capacity { deque_capacity into.new ≡ deque_capacity into.old }
{
    'moves: for _ in 0..k {
        if let Some(item) = from.pop_front() {
            into.push_back_reserved(item);
        }
    }
}
