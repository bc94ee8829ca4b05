//! Lists whose first item lies in the list itself, so that one item takes no memory.
ghost use Rattle.std.specs.Prelude.{◌≡◌, [], ◌∷◌, length, MatchOption, IsOk, IsTrue, ◌↔◌};
ghost use Rattle.storage.specs.Listed.{AddsTo};

use std::alloc::Global;
use std::collections::VecDeque;
use std::marker::Model;
use std::mem;

/// Items, first to last. Contracts see the list of them.
#[derive(Drop)]
pub(crate) struct Listed<T> {
    // Where there is none, there are none behind it.
    first: Option<T>,
    rest: VecDeque<T>,
}

impl<T> Model for Listed<T> {
    ghost use Rattle.std.specs.Prelude.{List};
    ghost use Rattle.storage.specs.Listed.{listed, IsListed};

    ghost Value = { List T };

    ghost view = { λ l. listed l.first l.rest.items };

    ghost invariant = { λ l. IsListed l.first l.rest.items };
}

impl<T: Drop> Listed<T> {
    // None yet.
    pub(crate) fn new(alloc: Global) -> Listed<T>
        ensures { result ≡ [] }
    {
        Listed {
            first: None,
            rest: VecDeque::new(alloc),
        }
    }

    // These, first to last.
    pub(crate) fn from_items(items: VecDeque<T>) -> Listed<T>
        ensures { result ≡ items.items }
    {
        let mut rest = items;
        let first = rest.pop_front();
        Listed { first, rest }
    }

    // The first, and the others behind it.
    pub(crate) fn from_parts(first: T, rest: VecDeque<T>) -> Listed<T>
        ensures { result ≡ first ∷ rest.items }
    {
        Listed {
            first: Some(first),
            rest,
        }
    }

    // The allocator that the list was made with.
    pub(crate) fn allocator(&self) -> Global {
        *self.rest.allocator()
    }

    pub(crate) fn len(&self) -> usize
        ensures { result ≡ length self.now }
    {
        match self.first {
            None => 0,
            Some(_) => self.rest.len() + 1,
        }
    }

    pub(crate) fn is_empty(&self) -> bool
        ensures { IsTrue result ↔ (self.now ≡ []) }
    {
        self.first.is_none()
    }

    // Takes the first off.
    pub(crate) fn pop(&mut self) -> Option<T>
        ensures { MatchOption result ((self.old ≡ []) × (self.new ≡ [])) (λ item. self.old ≡ item ∷ self.new) }
    {
        let next = self.rest.pop_front();
        mem::replace(&mut self.first, next)
    }

    // Adds one at the end. At want of memory it is handed back.
    pub(crate) fn push(&mut self, item: T) -> Result<(), T>
        ensures added { AddsTo item (item ∷ []) self.old self.new result }
        ensures first { self.old ≡ [] → IsOk result }
    {
        if self.first.is_none() {
            self.first = Some(item);
            return Ok(());
        }
        match self.rest.push_back(item) {
            Ok(()) => Ok(()),
            Err(refused) => Err(refused.value),
        }
    }

    // Adds the others at the end. At want of memory they are handed back.
    pub(crate) fn append(&mut self, other: Listed<T>) -> Result<(), Listed<T>>
        ensures added { AddsTo other other self.old self.new result }
        ensures first { self.old ≡ [] → IsOk result }
        ensures none { other ≡ [] → IsOk result }
    {
        let Listed { first, mut rest } = other;
        let Some(first) = first else {
            return Ok(());
        };
        if self.first.is_none() {
            self.first = Some(first);
            self.rest = rest;
            return Ok(());
        }
        if let Err(refused) = rest.push_front(first) {
            return Err(Listed {
                first: Some(refused.value),
                rest,
            });
        }
        if self.rest.append(&mut rest).is_err() {
            let first = rest.pop_front();
            return Err(Listed { first, rest });
        }
        Ok(())
    }
}
