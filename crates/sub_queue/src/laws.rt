//! What holds of both ends at once, and of each.
ghost use Rattle.std.specs.Prelude.{◌≡◌, ◌≤◌, length, drop, IfSome};
ghost use Rattle.sub_queue.specs.Line.{Agree};
ghost use Rattle.sub_queue.specs.Ends.{Fed, Tapped, end_of, EndIsLast, Agrees};
ghost use Rattle.sub_queue.specs.Sizes.{weight_of, behind};

use crate::feed::Feed;
use crate::items::Measured;
use crate::rule::{Ends, Spare, Whole};
use crate::taking::compare;
use crate::tap::Tap;
use std::mem;

/// The two ends of a queue tell each other how far they have come. What was taken is a beginning of what was sent, and
/// all of it where the end was taken; the rest, which the queue holds, is at most `cap` in size. It waits for nobody
/// and takes no memory; O(1) beside the items that turn out to be taken.
pub fn meet<T: Measured>(feed: &mut Feed<T>, tap: &mut Tap<T>)
    requires { feed.old.line ≡ tap.old.line }
    ensures feed { feed.new ≡ record feed.old { known = length tap.old.taken } }
    ensures tap { tap.new ≡ record tap.old { told = feed.old.sent } }
    ensures agrees { Agrees feed.old tap.old }
    ensures held { weight_of T.measure (drop (length tap.old.taken) feed.old.sent) ≤ feed.old.cap }
    ensures ended { IfSome (end_of tap.old.taken) (λ _. tap.old.taken ≡ feed.old.sent) }
{
    let _ = feed.known_room();
    let spare = feed.line.another::<Spare>(&mut feed.pass);
    let theirs = mem::replace(&mut tap.pass, spare);
    feed.line.absorb::<Ends>(&mut feed.pass, theirs);
    feed.line.learn_as::<Whole>(&mut feed.pass);
    tap.pass = feed.line.another::<Ends>(&mut feed.pass);
    compare(&mut feed.hearer, &mut tap.teller);
    feed.out.catch_up(tap.teller.told());
}

/// What a feed knows to be taken was sent, nothing was sent behind an end, and all else is at most `cap` in size.
pub fn feed_knows<T: Measured>(feed: &Feed<T>)
    ensures known { feed.now.known ≤ length feed.now.sent }
    ensures last { EndIsLast feed.now.sent }
    ensures cap { behind T.measure feed.now ≤ feed.now.cap }
{
    let _ = &feed.line;
    let _ = feed.known_room();
}

/// Of what a tap has taken and what it knows to be sent one is a beginning of the other, and nothing is known behind
/// an end.
pub fn tap_knows<T: Drop>(tap: &Tap<T>)
    ensures agree { Agree tap.now.taken tap.now.told }
    ensures last { EndIsLast tap.now.told }
{
    let _ = &tap.line;
}
