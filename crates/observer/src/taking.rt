//! What a turn does with each item.
ghost use Rattle.std.specs.Prelude.{◌≡◌, ◌+◌, ◌≤◌, [], length};
ghost use Rattle.std.specs.VecDeque.{deque_capacity};
ghost use Rattle.observer.specs.Taking.{TakesAll};

use crate::outflow::Outflow;
use crate::turn::{Drained, Turn};
use frame_batch::Batch;
use relay_ports::Sink;
use std::collections::VecDeque;
use std::sync::Wait;
use sub_queue::{Taken, Tap};

/// Takes up to `upto` items, an end among them, prints the batches and keeps them in order.
pub(crate) fn take_batches<S: Sink, R: Wait>(
    rt: &R,
    tap: &mut Tap<Batch>,
    flow: &mut Outflow<S>,
    batches: &mut VecDeque<Batch>,
    upto: u64,
) -> Turn
    requires none { batches.old.items ≡ [] }
    requires room { upto ≤ deque_capacity batches.old }
    ensures takes { TakesAll upto tap.old flow.old tap.new flow.new batches.new.items result }
    ensures room { deque_capacity batches.new ≡ deque_capacity batches.old }
{
    if let Some(end) = tap.ended() {
        return stopped(0, Drained::Ended(end));
    }
    let mut took = 0;
    'items: while took < upto {
        match tap.take(rt) {
            Taken::One(batch) => {
                flow.print(&batch);
                batches.push_back_reserved(batch);
                took += 1;
            }
            Taken::Empty => return stopped(took, Drained::Empty),
            Taken::Ended(end) => return stopped(took + 1, Drained::Ended(end)),
        }
    }
    stopped(took, Drained::Done)
}

fn stopped(took: u64, state: Drained) -> Turn
    ensures { result ≡ record { took = took; state = state } }
{
    Turn { took, state }
}
