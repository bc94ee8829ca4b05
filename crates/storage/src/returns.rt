//! Lists of what holds handed back.
ghost use Rattle.std.specs.Prelude.{◌≡◌, ◌-◌, ◌^◌, ◌++◌, [], ◌∷◌, length, min, MatchOption, IsOk, IsTrue, ◌↔◌};
ghost use Rattle.storage.specs.Listed.{AddsTo};

use crate::back::Back;
use crate::listed::Listed;
use crate::release::{NoOwner, Told};
use std::alloc::Global;
use std::collections::VecDeque;
use std::fmt;
use std::marker::Model;

/// What holds handed back, first to last. One takes no memory, and neither does it to put two lists together.
#[derive(Drop)]
pub struct Returns<O: Told = NoOwner> {
    front: Listed<Back<O>>,
    behind: Listed<Back<O>>,
}

impl<O: Told> Model for Returns<O> {
    ghost use Rattle.std.specs.Prelude.{List, ◌++◌};
    ghost use Rattle.storage.specs.declared.back.Back.{Back};

    ghost Value = { List (Back O) };

    ghost view = { λ r. r.front ++ r.behind };
}

impl<O: Told> Returns<O> {
    /// None yet. Takes no memory.
    pub fn new(alloc: Global) -> Returns<O>
        ensures { result ≡ [] }
    {
        Returns::of(Listed::new(alloc))
    }

    /// These, first to last. No memory.
    pub fn from_backs(backs: VecDeque<Back<O>>) -> Returns<O>
        ensures { result ≡ backs.items }
    {
        Returns::of(Listed::from_items(backs))
    }

    /// The first, and the others behind it. No memory.
    pub fn from_parts(first: Back<O>, rest: VecDeque<Back<O>>) -> Returns<O>
        ensures { result ≡ first ∷ rest.items }
    {
        Returns::of(Listed::from_parts(first, rest))
    }

    /// Two lists, each by its first and the others behind that. No memory.
    pub fn from_two(
        one: (Back<O>, VecDeque<Back<O>>),
        other: (Back<O>, VecDeque<Back<O>>),
    ) -> Returns<O>
        ensures { result ≡ (one.0 ∷ one.1.items) ++ (other.0 ∷ other.1.items) }
    {
        Returns {
            front: Listed::from_parts(one.0, one.1),
            behind: Listed::from_parts(other.0, other.1),
        }
    }

    // One list.
    fn of(front: Listed<Back<O>>) -> Returns<O>
        ensures { result ≡ front }
    {
        let alloc = front.allocator();
        Returns {
            front,
            behind: Listed::new(alloc),
        }
    }

    /// How many there are. It stands still at the type's end.
    pub fn len(&self) -> usize
        ensures { result ≡ min (length self.now) (2 ^ 64 - 1) }
    {
        self.front.len().saturating_add(self.behind.len())
    }

    /// Whether there is none.
    pub fn is_empty(&self) -> bool
        ensures { IsTrue result ↔ (self.now ≡ []) }
    {
        self.front.is_empty() && self.behind.is_empty()
    }

    /// Takes the first off. O(1), and no memory.
    pub fn pop(&mut self) -> Option<Back<O>>
        ensures { MatchOption result ((self.old ≡ []) × (self.new ≡ [])) (λ back. self.old ≡ back ∷ self.new) }
    {
        match self.front.pop() {
            Some(back) => Some(back),
            None => self.behind.pop(),
        }
    }

    /// Adds one at the end. The first takes no memory. At want of memory it is handed back.
    pub fn push(&mut self, back: Back<O>) -> Result<(), Back<O>>
        ensures added { AddsTo back (back ∷ []) self.old self.new result }
        ensures first { self.old ≡ [] → IsOk result }
    {
        if self.behind.is_empty() {
            return self.front.push(back);
        }
        self.behind.push(back)
    }

    /// Adds the others at the end, in their order. Takes no memory where one of the two is empty. At want of memory
    /// they are handed back.
    pub fn append(&mut self, other: Returns<O>) -> Result<(), Returns<O>>
        ensures added { AddsTo other other self.old self.new result }
        ensures first { self.old ≡ [] → IsOk result }
        ensures none { other ≡ [] → IsOk result }
    {
        if self.is_empty() {
            *self = other;
            return Ok(());
        }
        let Returns { mut front, behind } = other;
        if let Err(behind) = front.append(behind) {
            return Err(Returns { front, behind });
        }
        if self.behind.is_empty() {
            self.behind = front;
            return Ok(());
        }
        match self.behind.append(front) {
            Ok(()) => Ok(()),
            Err(front) => Err(Returns::of(front)),
        }
    }
}

impl<O: Told> fmt::Debug for Returns<O> {
    fn fmt<W: fmt::Write>(&self, f: &mut fmt::Formatter<W>) -> fmt::Result {
        write!(f, "Returns {{ len: {} }}", self.len())
    }
}
