//! Batches: neighbours of a list that go to one thread together, and come back together.
ghost use Rattle.std.specs.Prelude.{◌≡◌, ◌+◌, ◌<◌, ◌≤◌, [], ◌++◌, All, length};
ghost use Rattle.std.specs.Vec.{vec_len, vec_capacity};
ghost use Rattle.crew.specs.Turns.{TakesBack};

use crate::plain::all_in_turn;
use handoff::{Busy, Idle, Work};
use std::alloc::AllocError;
use std::sync::Wait;

/// Items that one thread works on, in order. There is always room for one.
#[derive(Drop)]
pub struct Batch<J: Drop> {
    pub items: Vec<J>,
    ghost room: { 0 < vec_capacity items },
}

impl<J: Work> Work for Batch<J> {
    ghost use Rattle.std.specs.List.{All, AllZip};

    ghost takes = { λ b. All J.takes b.items.items };

    ghost does = { λ b c. AllZip J.does b.items.items c.items.items };

    fn work<R: Wait>(&mut self, rt: &R) {
        all_in_turn(rt, &mut self.items);
    }
}

/// A thread that has nothing to do, and the empty room of its batch.
#[derive(Drop)]
pub(crate) struct Bench<J: Work> {
    worker: Idle<Batch<J>>,
    batch: Vec<J>,
    ghost empty: { batch.items ≡ [] },
    ghost room: { 0 < vec_capacity batch },
}

// Moves the last items over, in their order.
fn take_last<J>(items: &mut Vec<J>, batch: &mut Vec<J>, count: usize)
    requires empty { batch.old.items ≡ [] }
    requires enough { count ≤ vec_len items.old }
    requires room { count ≤ vec_capacity batch.old }
    ensures parted { items.old.items ≡ items.new.items ++ batch.new.items }
    ensures count { vec_len batch.new ≡ count }
    ensures items_room { vec_capacity items.new ≡ vec_capacity items.old }
    ensures batch_room { vec_capacity batch.new ≡ vec_capacity batch.old }
{
    for _ in 0..count {
        let Some(item) = items.pop() else {
            unreachable!()
        };
        batch.push_reserved(item);
    }
    batch.reverse();
}

impl<J: Work> Bench<J> {
    pub(crate) fn new(worker: Idle<Batch<J>>, batch: Vec<J>) -> Bench<J>
        requires empty { batch.items ≡ [] }
        requires room { 0 < vec_capacity batch }
    {
        Bench { worker, batch }
    }

    // Room for so many items in one batch.
    fn reserve(&mut self, count: usize) -> Result<(), AllocError> {
        self.batch.reserve(count)
    }

    /// Hands out the last items, as many as there is room for and no more than `most`.
    pub(crate) fn give(self, items: &mut Vec<J>, most: usize) -> Busy<Batch<J>>
        requires some { 0 < most }
        requires enough { most ≤ vec_len items.old }
        requires takes { All J.takes items.old.items }
        ensures parted { items.old.items ≡ items.new.items ++ result.items.items }
        ensures some { 0 < length result.items.items }
        ensures most { length result.items.items ≤ most }
        ensures count { vec_len items.new + length result.items.items ≡ vec_len items.old }
        ensures takes { All J.takes items.new.items }
        ensures capacity { vec_capacity items.new ≡ vec_capacity items.old }
    {
        let Bench { worker, mut batch } = self;
        let count = most.min(batch.capacity());
        take_last(items, &mut batch, count);
        worker.hand(Batch { items: batch })
    }
}

/// Waits for a batch, and puts its items behind the others.
pub(crate) fn take_batch<J: Work, R: Wait>(
    rt: &R,
    busy: Busy<Batch<J>>,
    items: &mut Vec<J>,
) -> Bench<J>
    requires room { vec_len items.old + length busy.items.items ≤ vec_capacity items.old }
    ensures back { TakesBack J.does busy.items.items items.old.items items.new.items }
    ensures len { vec_len items.new ≡ vec_len items.old + length busy.items.items }
    ensures capacity { vec_capacity items.old ≤ vec_capacity items.new }
{
    let (worker, batch) = busy.collect(rt);
    let Batch { items: mut came } = batch;
    let Ok(()) = items.append(&mut came) else {
        unreachable!()
    };
    Bench::new(worker, came)
}

/// Room for so many items in each batch. Where memory is refused, some have it and the others are as they were.
pub(crate) fn reserve_each<J: Work>(
    benches: &mut [Bench<J>],
    count: usize,
) -> Result<(), AllocError> {
    for place in 0..benches.len() {
        benches[place].reserve(count)?;
    }
    Ok(())
}
