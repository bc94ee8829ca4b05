//! Items that may be worked on in another thread.
use std::sync::Wait;

/// An item on which any thread that has it can do its work.
///
/// `Send` is asked where threads are started and not here: so a `work` may call what is behind a type parameter.
pub trait Work: Drop {
    // The items on which the work may be done.
    ghost takes: { Self → Type 0 };

    // What the work makes of an item: the item before, and after.
    ghost does: { Self → Self → Type 0 };

    /// Does the work. It may wait, and then waits for as long as it likes: what it costs is the item's own.
    fn work<R: Wait>(&mut self, rt: &R)
        requires { takes self.old }
        ensures { does self.old self.new };
}
