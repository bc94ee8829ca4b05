//! Work in the caller's own thread.
ghost use Rattle.std.specs.Prelude.{◌≡◌, All};
ghost use Rattle.std.specs.List.{AllZip};
ghost use Rattle.std.specs.Vec.{vec_len, vec_capacity};

use handoff::Work;
use std::sync::Wait;

/// Works on each item in this thread, in order. O(n) calls, no allocation.
pub fn in_turn<J: Work, R: Wait>(rt: &R, items: &mut [J])
    requires takes { All J.takes items.old }
    ensures does { AllZip J.does items.old items.new }
{
    for place in 0..items.len() {
        items[place].work(rt);
    }
}

// The same for a vector, which keeps its room.
pub(crate) fn all_in_turn<J: Work, R: Wait>(rt: &R, items: &mut Vec<J>)
    requires takes { All J.takes items.old.items }
    ensures does { AllZip J.does items.old.items items.new.items }
    ensures len { vec_len items.new ≡ vec_len items.old }
    ensures capacity { vec_capacity items.new ≡ vec_capacity items.old }
{
    in_turn(rt, items.as_mut_slice());
}
