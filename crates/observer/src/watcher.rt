//! Watchers.
ghost use Rattle.std.specs.Prelude.{◌≡◌, ◌↔◌, List, [], ◌∷◌, ◌++◌, IsTrue, map, OnErr, OnOk};
ghost use Rattle.buffer_model.specs.Segment.{bytes_of};
ghost use Rattle.observer.specs.Notes.{Note, SomeHeard, each_heard, next_note, completed_note, failed_note};

use crate::telling::{Word, tell_all};
use iobuf_chain::Frame;
use std::alloc::AllocError;
use sub_queue::End;

/// Is told of what is published of an upstream, which has the number `up`.
pub trait Watcher: Drop {
    /// What it heard, in order.
    ghost heard: { Self → List Note };

    /// A frame was published. At want of memory it heard nothing.
    fn next(&mut self, up: u32, frame: &Frame) -> Result<(), AllocError>
        ensures heard { OnOk result (heard self.new ≡ heard self.old ++ next_note up (bytes_of frame.now) ∷ []) }
        ensures refused { OnErr result (heard self.new ≡ heard self.old) };

    /// All was published. At want of memory it heard nothing.
    fn completed(&mut self, up: u32) -> Result<(), AllocError>
        ensures heard { OnOk result (heard self.new ≡ heard self.old ++ completed_note up ∷ []) }
        ensures refused { OnErr result (heard self.new ≡ heard self.old) };

    /// The upstream ended otherwise. At want of memory it heard nothing.
    fn failed(&mut self, up: u32, end: End) -> Result<(), AllocError>
        ensures heard { OnOk result (heard self.new ≡ heard self.old ++ failed_note up end ∷ []) }
        ensures refused { OnErr result (heard self.new ≡ heard self.old) };
}

/// A watcher of any kind, which another thread may take.
pub type AnyWatcher = Box<dyn Watcher + Send>;

/// Watchers, who are told in their order. The first one's want of memory ends the telling: those before it have heard,
/// and it and those behind it haven't.
///
/// It stands for a list of watchers where a caller's crate handed the list on.
pub trait Audience {
    /// What each heard.
    ghost heard_by_each: { Self → List (List Note) };

    /// Whether nobody is there to be told. O(1).
    fn is_empty(&self) -> bool
        ensures { IsTrue result ↔ (heard_by_each self.now ≡ []) };

    /// A frame was published.
    fn next_each(&mut self, up: u32, frame: &Frame) -> Result<(), AllocError>
        ensures heard { OnOk result (heard_by_each self.new
            ≡ each_heard (next_note up (bytes_of frame.now)) (heard_by_each self.old)) }
        ensures refused { OnErr result
            (SomeHeard (next_note up (bytes_of frame.now)) (heard_by_each self.old) (heard_by_each self.new)) };

    /// All was published.
    fn completed_each(&mut self, up: u32) -> Result<(), AllocError>
        ensures heard { OnOk result (heard_by_each self.new ≡ each_heard (completed_note up) (heard_by_each self.old)) }
        ensures refused { OnErr result
            (SomeHeard (completed_note up) (heard_by_each self.old) (heard_by_each self.new)) };

    /// The upstream ended otherwise.
    fn failed_each(&mut self, up: u32, end: End) -> Result<(), AllocError>
        ensures heard { OnOk result (heard_by_each self.new
            ≡ each_heard (failed_note up end) (heard_by_each self.old)) }
        ensures refused { OnErr result
            (SomeHeard (failed_note up end) (heard_by_each self.old) (heard_by_each self.new)) };
}

impl Audience for Vec<AnyWatcher> {
    ghost heard_by_each = { λ ws. map (λ w. (Watcher-box w).heard w.value) ws.items };

    fn is_empty(&self) -> bool {
        self.len() == 0
    }

    fn next_each(&mut self, up: u32, frame: &Frame) -> Result<(), AllocError> {
        tell_all(self, &Word::Next { up, frame })
    }

    fn completed_each(&mut self, up: u32) -> Result<(), AllocError> {
        tell_all(self, &Word::Completed { up })
    }

    fn failed_each(&mut self, up: u32, end: End) -> Result<(), AllocError> {
        tell_all(self, &Word::Failed { up, end })
    }
}
