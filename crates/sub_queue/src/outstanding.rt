//! The sizes of what isn't known to be taken.
ghost use Rattle.std.specs.Prelude.{◌≡◌, ◌+◌, ◌≤◌, ◌<◌, ◌^◌, [], ◌∷◌, ◌++◌, length, drop, IfOk};
ghost use Rattle.sub_queue.specs.Sizes.{Sizes, total, CatchesUp};

use std::alloc::{AllocError, Global};
use std::collections::VecDeque;
use std::marker::Model;

/// The sizes of the items that were sent and aren't known to be taken, the oldest first.
#[derive(Drop)]
pub(crate) struct Outstanding {
    list: VecDeque<usize>,
    used: usize,
    cap: usize,
    passed: u64,
}

impl Model for Outstanding {
    ghost use Rattle.std.specs.VecDeque.{deque_capacity};
    ghost use Rattle.sub_queue.specs.Sizes.{Sizes, AddUp};

    ghost Value = { Sizes };

    ghost view = { λ o. record { cap = o.cap; passed = o.passed; sizes = o.list.items } };

    ghost invariant = { λ o. AddUp o.used o.cap (deque_capacity o.list) o.list.items };
}

impl Outstanding {
    /// Nothing is out. Room for `cap` sizes is taken here, and no more later.
    pub(crate) fn new(alloc: Global, cap: usize) -> Result<Outstanding, AllocError>
        ensures { IfOk result (λ o. o ≡ record { cap = cap; passed = 0; sizes = [] }) }
    {
        let list = VecDeque::with_capacity(alloc, cap)?;
        Ok(Outstanding {
            list,
            used: 0,
            cap,
            passed: 0,
        })
    }

    /// How much more may be out.
    pub(crate) fn room(&self) -> usize
        ensures { total self.now.sizes + result ≡ self.now.cap }
    {
        self.cap - self.used
    }

    /// How many items are out, each of size 1 or more.
    pub(crate) fn len(&self) -> usize
        ensures len { result ≡ length self.now.sizes }
        ensures most { result ≤ self.now.cap }
    {
        let _ = &self.used;
        self.list.len()
    }

    /// One item more is out.
    pub(crate) fn add(&mut self, size: usize)
        requires positive { 1 ≤ size }
        requires fits { total self.old.sizes + size ≤ self.old.cap }
        ensures { self.new ≡ record self.old { sizes = self.old.sizes ++ size ∷ [] } }
    {
        self.used += size;
        self.list.push_back_reserved(size);
    }

    // The oldest item was taken.
    fn pass(&mut self)
        requires one { 0 < length self.old.sizes }
        requires count { self.old.passed + 1 < 2 ^ 64 }
        ensures { self.new ≡ record self.old { passed = self.old.passed + 1; sizes = drop 1 self.old.sizes } }
    {
        if let Some(size) = self.list.pop_front() {
            self.used -= size;
        }
        self.passed += 1;
    }

    /// So many items were taken since the first. O(1) for each that is passed.
    pub(crate) fn catch_up(&mut self, upto: u64)
        requires { self.old.passed ≤ upto }
        ensures part { CatchesUp upto self.old self.new }
        ensures all { upto ≤ self.old.passed + length self.old.sizes → self.new.passed ≡ upto }
    {
        'older: while self.passed < upto && !self.list.is_empty() {
            self.pass();
        }
        let _ = &self.list;
    }
}
