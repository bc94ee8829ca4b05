//! Drainers.
ghost use Rattle.std.specs.Prelude.{◌≡◌, ◌+◌, ◌≤◌, ◌∷◌, [], IfErr, IfOk, MatchOption, true, false};
ghost use Rattle.std.specs.VecDeque.{deque_capacity};
ghost use Rattle.frame_head.specs.Framed.{has_known_field};
ghost use Rattle.observer.specs.Drains.{Drain, drain_anew};
ghost use Rattle.observer.specs.Turns.{Turned};

use crate::counting::count_turn;
use crate::giving::give_all_back;
use crate::outflow::Outflow;
use crate::taking::take_batches;
use crate::turn::Turn;
use buffered_io::Printer;
use frame_batch::Batch;
use frame_head::Out;
use relay_ports::Sink;
use std::alloc::{AllocError, Global};
use std::collections::VecDeque;
use std::marker::Model;
use std::sync::Wait;
use storage::Returns;
use sub_queue::Tap;
use sub_queue::laws::tap_knows;

/// Takes batches from a queue, writes their frames to a sink as framed text, and gives the batches back.
///
/// It writes until its sink first fails, and then takes on, so that nobody waits for it. Contracts see its tap, how it
/// writes frames, the printer and the sink's state, the most that its queue holds, what is to be collected, and how
/// many frames it has taken; after a failure, how many of the first of them were written whole.
#[derive(Drop)]
pub struct Drainer<S: Sink> {
    flow: Outflow<S>,
    // Those that were taken in a turn, until its end.
    batches: VecDeque<Batch>,
    held: Held,
}

// What a drainer has whatever its sink. One struct, so that what asks whether a drainer may go to another thread finds
// the answer for it.
#[derive(Drop)]
struct Held {
    tap: Tap<Batch>,
    cap: usize,
    returns: VecDeque<Returns>,
    count: u64,
}

impl<S: Sink> Model for Drainer<S> {
    ghost use Rattle.std.specs.Prelude.{◌≡◌, ◌+◌, ◌≤◌, []};
    ghost use Rattle.std.specs.VecDeque.{deque_capacity};
    ghost use Rattle.observer.specs.Drains.{Drain, IsFlushed, drain};
    ghost use Rattle.observer.specs.Flows.{outlet_of};

    ghost Value = { Drain };

    ghost view = { λ d. drain d.held.tap d.flow d.held.cap d.held.returns.items d.held.count };

    ghost invariant = { λ d. IsFlushed (outlet_of d.flow) × (d.batches.items ≡ [])
        × (d.held.cap + 1 ≤ deque_capacity d.batches) × (d.held.cap + 1 ≤ deque_capacity d.held.returns) };
}

// What a drainer takes memory for.
struct Rooms {
    printer: Printer,
    batches: VecDeque<Batch>,
    returns: VecDeque<Returns>,
}

// Room for what a turn may take.
fn take_room(alloc: Global, cap: usize) -> Result<Rooms, AllocError>
    ensures printer { IfOk result (λ r. r.printer ≡ record { text = []; failed = false }) }
    ensures batches { IfOk result (λ r. (r.batches.items ≡ []) × (cap + 1 ≤ deque_capacity r.batches)) }
    ensures returns { IfOk result (λ r. (r.returns.items ≡ []) × (cap + 1 ≤ deque_capacity r.returns)) }
{
    let Some(room) = cap.checked_add(1) else {
        return Err(AllocError);
    };
    Ok(Rooms {
        printer: Printer::new(alloc)?,
        batches: VecDeque::with_capacity(alloc, room)?,
        returns: VecDeque::with_capacity(alloc, room)?,
    })
}

impl<S: Sink> Drainer<S> {
    ghost use Rattle.std.specs.Borrow.{sem};
    ghost use Rattle.observer.specs.TapLends.{lends_tap};

    /// A drainer of a queue that holds at most `cap` frames. It takes room for a printer's text and for `cap + 1`
    /// batches, and no memory after that. `Out` is one that `check_out` passes. At want of memory the tap and the sink
    /// are handed back.
    pub fn new(
        alloc: Global,
        tap: Tap<Batch>,
        sink: S,
        out: Out,
        cap: usize,
    ) -> Result<Drainer<S>, (Tap<Batch>, S)>
        requires { has_known_field out ≡ true }
        ensures made { IfOk result (λ d. d ≡ drain_anew tap out (S.state sink) cap) }
        ensures refused { IfErr result (λ r. (r.0 ≡ tap) × (r.1 ≡ sink)) }
    {
        match take_room(alloc, cap) {
            Ok(rooms) => {
                let Rooms {
                    printer,
                    batches,
                    returns,
                } = rooms;
                let flow = Outflow::new(out, printer, sink);
                Ok(Drainer {
                    flow,
                    batches,
                    held: Held {
                        tap,
                        cap,
                        returns,
                        count: 0,
                    },
                })
            }
            Err(_) => Err((tap, sink)),
        }
    }

    /// Takes up to `upto` items, an end among them, and writes the frames of each batch, as long as the sink hasn't
    /// failed. All is written out at the end of the turn. It waits for nobody but a feed in the midst of a push, and
    /// takes no memory. O(bytes and frames written, and nodes); where the sink fails, O(frames of the turn) more.
    pub fn turn<R: Wait>(&mut self, rt: &R, upto: u64) -> Turn
        requires most { upto ≤ self.old.cap + 1 }
        requires collected { self.old.returns ≡ [] }
        ensures { Turned upto self.old self.new result }
    {
        let failed = self.flow.failed();
        self.flow.mark();
        let turn = take_batches(
            rt,
            &mut self.held.tap,
            &mut self.flow,
            &mut self.batches,
            upto,
        );
        tap_knows(&self.held.tap);
        self.flow.flush();
        self.held.count = count_turn(&self.flow, &self.batches, failed, self.held.count);
        give_all_back(&mut self.batches, &mut self.held.returns);
        turn
    }

    /// What one batch handed back, the oldest first. `None` exactly where nothing is left. O(1), and no memory.
    pub fn collect(&mut self) -> Option<Returns>
        ensures { MatchOption result ((self.old.returns ≡ []) × (self.new ≡ self.old))
            (λ r. self.old ≡ record self.new { returns = r ∷ self.new.returns }) }
    {
        self.held.returns.pop_front()
    }

    /// Lends the tap, for a meeting with its feed (`sub_queue::waiting`). O(1), and no memory.
    pub fn tap(&mut self) -> &mut Tap<Batch>
        ensures* lends { sem 𝓛 (lends_tap S.row S.Sink self.entry result) }
        ensures value { result.now ≡ self.old.tap }
    {
        &mut self.held.tap
    }

    /// The sink, and the number of frames that it got: of those that were taken, or after a failure the greatest number
    /// of first ones whose framed text isn't longer than what the sink took since the drainer was made. What is left to
    /// collect is dropped. It may be called between any two turns, also before the first: nothing waits to be written
    /// then.
    pub fn finish(self) -> (S, u64)
        ensures sink { S.state result.0 ≡ self.outlet.sink }
        ensures count { result.1 ≡ self.count }
    {
        let Drainer { flow, held, .. } = self;
        (flow.into_sink(), held.count)
    }
}
