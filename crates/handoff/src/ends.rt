//! The two ends of a handoff.
ghost use Rattle.std.specs.Prelude.{◌≡◌, [], ◌∷◌, None, Some};
ghost use Rattle.std.specs.Arc.{arc_value};
ghost use Rattle.handoff.specs.declared.rule.View.TheVariants.{Holding, Waiting, Resting};

use crate::meeting::{Meeting, Place, meet};
use crate::work::Work;
use std::alloc::{AllocError, Global};
use std::marker::Model;
use std::snapshot::Snapshot;
use std::sync::{Arc, Wait};
use std::thread;
use std::thread::{JoinHandle, Threads};

/// The end that hands items over, while no item is out.
///
/// Dropping it ends the worker. O(1), and one system call where the worker sleeps.
pub struct Idle<J: Work> {
    meeting: Arc<Meeting<J>, Global>,
    place: Place<J>,
    ghost ours: { place.table_id ≡ (arc_value meeting).table.shared.table_id },
    ghost idle: { place.me ≡ (Holding, (0, None) ∷ []) },
}

/// The same end, while an item is out. A clause sees it as that item, as it was handed over.
///
/// Dropping it doesn't wait: the worker ends after the work that it does, and the item is dropped with what both ends
/// share, by the end that is dropped last.
pub struct Busy<J: Work> {
    meeting: Arc<Meeting<J>, Global>,
    place: Place<J>,
    item: Snapshot<J>,
    ghost ours: { place.table_id ≡ (arc_value meeting).table.shared.table_id },
    ghost asked: { place.me ≡ (Waiting (Some item.value), []) },
}

impl<J: Work> Model for Busy<J> {
    ghost Value = { J };

    ghost coded = { J.code };

    ghost view = { λ b. b.item.value };
}

/// The end that works on items.
#[derive(Drop)]
pub struct Worker<J: Work> {
    meeting: Arc<Meeting<J>, Global>,
    place: Place<J>,
    ghost ours: { place.table_id ≡ (arc_value meeting).table.shared.table_id },
    ghost idle: { place.me ≡ (Resting, []) },
}

impl<J: Work> Worker<J> {
    /// Works on each item that is handed over, one after another, until the other end is dropped.
    ///
    /// Between items it spins and yields for a short while, and then sleeps.
    pub fn serve<R: Wait>(self, rt: &R) {
        let Worker { meeting, mut place } = self;
        'turns: for _ in rt.forever() {
            if !meeting.await_item(rt, &mut place) {
                return;
            }
            if meeting.work_on(rt, &mut place) {
                return;
            }
        }
    }
}

impl<J: Work> Idle<J> {
    /// Hands an item over: `Worker::serve` works on it from now on. O(1): one move of the item, no allocation, and one
    /// system call where the worker sleeps.
    pub fn hand(self, item: J) -> Busy<J>
        requires takes { J.takes item }
        ensures item { result ≡ item }
    {
        let was = Snapshot::of(&item);
        let Idle { meeting, mut place } = self;
        meeting.swap_slot(&mut place, Some(item));
        meeting.hand_over(&mut place);
        Busy {
            meeting,
            place,
            item: was,
        }
    }
}

impl<J: Work> Busy<J> {
    /// Waits for the item, which the worker has worked on, and takes it back. It spins and yields for a short while,
    /// and then sleeps. One move of the item, no allocation.
    pub fn collect<R: Wait>(self, rt: &R) -> (Idle<J>, J)
        ensures does { J.does self result.1 }
    {
        let Busy {
            meeting,
            mut place,
            item: _,
        } = self;
        meeting.await_answer(rt, &mut place);
        let item = meeting.swap_slot(&mut place, None).unwrap();
        (Idle { meeting, place }, item)
    }
}

impl<J: Work> Drop for Idle<J> {
    fn drop(self) {
        let Idle { meeting, mut place } = self;
        meeting.close(&mut place);
    }
}

impl<J: Work> Drop for Busy<J> {
    fn drop(self) {
        let Busy {
            meeting,
            mut place,
            item: _,
        } = self;
        meeting.leave(&mut place);
    }
}

/// The two ends of a new handoff. Three allocations; want of memory is the only refusal.
pub fn make<J: Work>(alloc: Global) -> Result<(Idle<J>, Worker<J>), AllocError> {
    let (meeting, giver, worker) = meet(alloc)?;
    let meeting = Arc::new(alloc, meeting)?;
    let theirs = Arc::try_clone(&meeting)?;
    Ok((
        Idle {
            meeting,
            place: giver,
        },
        Worker {
            meeting: theirs,
            place: worker,
        },
    ))
}

/// A handoff to a thread of its own, which serves until the end that is given is dropped.
///
/// It is refused where memory is, and where no thread can be had.
pub fn start<J, R>(rt: R, alloc: Global) -> Result<(Idle<J>, JoinHandle<()>), AllocError>
where
    J: Work + Send + 'static,
    R: Threads + Wait + Copy + Send + 'static,
{
    let (idle, worker) = make(alloc)?;
    let thread = thread::spawn(&rt, move || worker.serve(&rt))?;
    Ok((idle, thread))
}
