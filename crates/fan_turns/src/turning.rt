//! A drainer with its next turn.
ghost use Rattle.std.specs.Prelude.{◌≡◌, None};

use crew::Work;
use observer::{Drainer, Turn};
use relay_ports::Sink;
use std::sync::Wait;

/// A drainer, the most that it takes in its next turn, and what its last one answered.
///
/// It asks nothing of threads: that it may be handed to one is asked where a crew starts them. What came back is to be
/// collected (`Drainer::collect`) before its next turn.
#[derive(Drop)]
pub struct Turning<S: Sink> {
    pub drainer: Drainer<S>,
    pub upto: u64,
    pub turn: Option<Turn>,
}

impl<S: Sink> Turning<S> {
    /// A drainer before its first turn, in which it takes nothing. O(1), and no memory.
    pub fn new(drainer: Drainer<S>) -> Turning<S>
        ensures { result ≡ record { drainer = drainer; upto = 0; turn = None } }
    {
        Turning {
            drainer,
            upto: 0,
            turn: None,
        }
    }
}

impl<S: Sink> Work for Turning<S> {
    ghost use Rattle.fan_turns.specs.Turnings.{IsReady, HasTurned};

    ghost takes = { λ t. IsReady t.upto t.drainer };

    ghost does = { λ t u. HasTurned t.upto t.drainer u.upto u.drainer u.turn };

    fn work<R: Wait>(&mut self, rt: &R) {
        self.turn = Some(self.drainer.turn(rt, self.upto));
    }
}
