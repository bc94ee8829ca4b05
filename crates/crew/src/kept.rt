//! The crew: its threads, and their turns.
ghost use Rattle.std.specs.Prelude.{◌≡◌, ◌+◌, ◌-◌, ◌≤◌, [], ◌++◌, All, length, min, max, OnOk};
ghost use Rattle.std.specs.List.{AllZip};
ghost use Rattle.std.specs.Vec.{vec_len, vec_capacity};
ghost use Rattle.crew.specs.Batches.{items_of};
ghost use Rattle.crew.specs.Crewed.{crewed};
ghost use Rattle.crew.specs.Turns.{TakesBack};

use crate::batch::{Batch, Bench, reserve_each, take_batch};
use crate::plain::all_in_turn;
use crate::size::{processors, threads_for};
use handoff::{Busy, Work};
use std::alloc::{AllocError, Global};
use std::marker::Model;
use std::sync::Wait;
use std::thread::{JoinHandle, Threads};

/// Threads that are kept between turns.
///
/// A clause sees how many threads there are, and the items that are out with them, in order. A crew with no item out is
/// free. A dropped crew ends its threads, each after the batch that it works on; items that are out end with it, each
/// dropped once. Nobody waits for these threads then: [`Crew::end`] does.
#[derive(Drop)]
pub struct Crew<J: Work> {
    idle: Vec<Bench<J>>,
    busy: Vec<Busy<Batch<J>>>,
    threads: Vec<JoinHandle<()>>,
}

impl<J: Work> Model for Crew<J> {
    ghost use Rattle.std.specs.Prelude.{◌+◌, ◌≤◌, length};
    ghost use Rattle.std.specs.Vec.{vec_len, vec_capacity};
    ghost use Rattle.crew.specs.Batches.{items_of};
    ghost use Rattle.crew.specs.Crewed.{Crewed, crewed, crewed_code};

    ghost Value = { Crewed J };

    ghost coded = { crewed_code J.code };

    ghost view = { λ c. crewed (vec_len c.idle + vec_len c.busy) (items_of c.busy.items) };

    // There is room for each thread on both lists, and each batch that is out has an item.
    ghost invariant = { λ c.
        (vec_len c.idle + vec_len c.busy ≤ vec_capacity c.busy)
        × (vec_len c.idle + vec_len c.busy ≤ vec_capacity c.idle)
        × (vec_len c.busy ≤ length (items_of c.busy.items)) };
}

// Hands the last items out, a like share to each thread, while more than `keep` are left and a thread is idle.
#[tactic(auto, using(crate::proofs::Lists::share_some, crate::proofs::Lists::share_most))]
fn hand_out<J: Work>(
    idle: &mut Vec<Bench<J>>,
    busy: &mut Vec<Busy<Batch<J>>>,
    items: &mut Vec<J>,
    keep: usize,
)
    requires room { vec_len idle.old + vec_len busy.old ≤ vec_capacity busy.old }
    requires some { vec_len busy.old ≤ length (items_of busy.old.items) }
    requires takes { All J.takes items.old.items }
    ensures parted { items.old.items ++ items_of busy.old.items ≡ items.new.items ++ items_of busy.new.items }
    ensures takes { All J.takes items.new.items }
    ensures kept { min keep (vec_len items.old) ≤ vec_len items.new }
    ensures spread { min (vec_len items.old - keep) (vec_len idle.old) + length (items_of busy.old.items)
        ≤ length (items_of busy.new.items) }
    ensures some { vec_len busy.new ≤ length (items_of busy.new.items) }
    ensures threads { vec_len idle.new + vec_len busy.new ≡ vec_len idle.old + vec_len busy.old }
    ensures items_room { vec_capacity items.new ≡ vec_capacity items.old }
    ensures idle_room { vec_capacity idle.new ≡ vec_capacity idle.old }
    ensures busy_room { vec_capacity busy.new ≡ vec_capacity busy.old }
{
    while items.len() > keep {
        let Some(bench) = idle.pop() else {
            return;
        };
        let left = items.len() - keep;
        let share = left.div_ceil(idle.len() + 1);
        let given = bench.give(items, share);
        busy.push_reserved(given);
    }
}

// Takes all items back, behind those that are there.
fn take_in<J: Work, R: Wait>(
    rt: &R,
    idle: &mut Vec<Bench<J>>,
    busy: &mut Vec<Busy<Batch<J>>>,
    items: &mut Vec<J>,
)
    requires benches { vec_len idle.old + vec_len busy.old ≤ vec_capacity idle.old }
    requires room { vec_len items.old + length (items_of busy.old.items) ≤ vec_capacity items.old }
    ensures none { busy.new.items ≡ [] }
    ensures back { TakesBack J.does (items_of busy.old.items) items.old.items items.new.items }
    ensures threads { vec_len idle.new ≡ vec_len idle.old + vec_len busy.old }
    ensures idle_room { vec_capacity idle.new ≡ vec_capacity idle.old }
    ensures busy_room { vec_capacity busy.new ≡ vec_capacity busy.old }
{
    while let Some(one) = busy.pop() {
        let bench = take_batch(rt, one, items);
        idle.push_reserved(bench);
    }
}

impl<J: Work> Crew<J> {
    /// A crew with no thread. It allocates nothing.
    pub fn new(alloc: Global) -> Crew<J>
        ensures { result ≡ crewed 0 [] }
    {
        Crew {
            idle: Vec::new(alloc),
            busy: Vec::new(alloc),
            threads: Vec::new(alloc),
        }
    }

    /// How many threads there are. O(1).
    pub fn threads(&self) -> usize
        ensures { result ≡ self.now.threads }
    {
        self.idle.len() + self.busy.len()
    }

    // One thread more: `Ok(false)` where none can be had.
    fn hire<R>(&mut self, rt: R, alloc: Global) -> Result<bool, AllocError>
    where
        J: Send + 'static,
        R: Threads + Wait + Copy + Send + 'static,
        ensures out { self.new.out ≡ self.old.out }
        ensures least { self.old.threads ≤ self.new.threads }
        ensures most { self.new.threads ≤ self.old.threads + 1 }
    {
        let Some(all) = self.threads().checked_add(1) else {
            return Err(AllocError);
        };
        self.idle.reserve(all - self.idle.len())?;
        self.busy.reserve(all - self.busy.len())?;
        self.threads.reserve(1)?;
        let batch = Vec::with_capacity(alloc, 1)?;
        let Ok((worker, thread)) = handoff::start(rt, alloc) else {
            return Ok(false);
        };
        self.threads.push_reserved(thread);
        self.idle.push_reserved(Bench::new(worker, batch));
        Ok(true)
    }

    /// Threads and room for turns of so many items, on top of those that are there.
    ///
    /// There are then as many threads as `threads_for` says for this machine, or as many as can be had, and room for
    /// the items in their batches. A thread that can't be had is no error. Want of memory for lists and batches is one:
    /// the crew then has what it got, and serves with that. Each thread costs its start and a few allocations.
    pub fn reserve<R>(&mut self, rt: R, alloc: Global, items: usize) -> Result<(), AllocError>
    where
        J: Send + 'static,
        R: Threads + Wait + Copy + Send + 'static,
        requires free { self.old.out ≡ [] }
        ensures free { self.new.out ≡ [] }
        ensures least { self.old.threads ≤ self.new.threads }
        ensures most { self.new.threads ≤ max self.old.threads items }
    {
        let wanted = threads_for(items, processors(&rt));
        let missing = wanted.saturating_sub(self.threads());
        for _ in 0..missing {
            if !self.hire(rt, alloc)? {
                break;
            }
        }
        let threads = self.threads();
        if threads > 0 {
            reserve_each(self.idle.as_mut_slice(), items.div_ceil(threads))?;
        }
        Ok(())
    }

    /// Hands out the items behind the first `keep`, in batches of neighbours, one to a thread, and returns at once.
    ///
    /// What is left in `items` is the caller's to do: the first `keep`, and those for which no thread has room. O(n)
    /// moves and a wake for each thread that sleeps; no allocation.
    pub fn give(&mut self, items: &mut Vec<J>, keep: usize)
        requires free { self.old.out ≡ [] }
        requires takes { All J.takes items.old.items }
        ensures parted { items.old.items ≡ items.new.items ++ self.new.out }
        ensures takes { All J.takes items.new.items }
        ensures kept { min keep (vec_len items.old) ≤ vec_len items.new }

        // No thread is idle while more items than `keep` are there.
        ensures spread { min (vec_len items.old - keep) self.old.threads ≤ length self.new.out }
        ensures threads { self.new.threads ≡ self.old.threads }
        ensures capacity { vec_capacity items.new ≡ vec_capacity items.old }
    {
        hand_out(&mut self.idle, &mut self.busy, items, keep);
    }

    /// Works on what is left in `items`, in order, waits for the items that are out, and puts them behind the others.
    ///
    /// `items` has room for them where it is the list of which `give` took them. No allocation.
    pub fn finish<R: Wait>(&mut self, rt: &R, items: &mut Vec<J>)
        requires room { vec_len items.old + length self.old.out ≤ vec_capacity items.old }
        requires takes { All J.takes items.old.items }
        ensures free { self.new.out ≡ [] }
        ensures threads { self.new.threads ≡ self.old.threads }
        ensures does { AllZip J.does (items.old.items ++ self.old.out) items.new.items }
    {
        all_in_turn(rt, items);
        take_in(rt, &mut self.idle, &mut self.busy, items);
    }

    /// Works on each item once, in place: a share in this thread, and the others beside it in the crew's.
    ///
    /// O(n) moves, a wake for each thread that sleeps, and the longest share's work; no allocation.
    pub fn run<R: Wait>(&mut self, rt: &R, items: &mut Vec<J>)
        requires free { self.old.out ≡ [] }
        requires takes { All J.takes items.old.items }
        ensures free { self.new.out ≡ [] }
        ensures threads { self.new.threads ≡ self.old.threads }
        ensures does { AllZip J.does items.old.items items.new.items }
    {
        let keep = items.len().div_ceil(self.threads().saturating_add(1));
        self.give(items, keep);
        self.finish(rt, items);
    }

    /// Works on each item once, in place, in the crew's threads, and calls `own` in this thread beside them.
    ///
    /// `own` has all that it captures: it needs no `Send`, and may borrow. Costs as of `run`.
    pub fn beside<R: Wait, A, F: FnMut() -> A>(
        &mut self,
        rt: &R,
        items: &mut Vec<J>,
        own: &mut F,
    ) -> A
        requires free { self.old.out ≡ [] }
        requires takes { All J.takes items.old.items }
        requires own { F.pre own.old }
        ensures own { F.step own.old result own.new }
        ensures free { self.new.out ≡ [] }
        ensures threads { self.new.threads ≡ self.old.threads }
        ensures does { AllZip J.does items.old.items items.new.items }
    {
        self.give(items, 0);
        let answer = own();
        self.finish(rt, items);
        answer
    }

    /// Ends the threads and waits until they have ended. Items that are out end too: take them back first by `finish`.
    pub fn end<R: Threads>(self, rt: &R) {
        let Crew {
            idle,
            busy,
            threads,
        } = self;
        drop(idle);
        drop(busy);
        for thread in threads {
            thread.join(rt);
        }
    }
}
