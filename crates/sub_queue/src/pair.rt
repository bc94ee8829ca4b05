//! Both ends of a queue: how they are made, and what lies between them.
ghost use Rattle.std.specs.Prelude.{◌≡◌, ◌+◌, ◌≤◌, [], length, drop, IfOk, IfSome};
ghost use Rattle.sub_queue.specs.Ends.{Fed, Tapped, fed_anew, tapped_anew, end_of, Agrees};
ghost use Rattle.sub_queue.specs.Sizes.{weight_of};

use crate::feed::Feed;
use crate::items::Measured;
use crate::laws;
use crate::outstanding::Outstanding;
use crate::rule::{Ends, Line};
use crate::taking::count;
use crate::tap::Tap;
use std::alloc::{AllocError, Global};
use std::sync::Arc;

/// The two ends of a new queue that holds at most `cap` in size, from 1 to 1,024. It takes room for `cap` items, and
/// no call takes memory later. The error is want of memory.
pub fn make<T: Measured>(alloc: Global, cap: usize) -> Result<(Feed<T>, Tap<T>), AllocError>
    requires { (1 ≤ cap) × (cap ≤ 1024) }
    ensures feed { IfOk result (λ r. r.0 ≡ fed_anew r.0.line cap) }
    ensures tap { IfOk result (λ r. r.1 ≡ tapped_anew r.0.line) }
{
    let (line, mut pass) = Line::ruled(alloc, cap)?;
    let line = Arc::new(alloc, line)?;
    let theirs = Arc::try_clone(&line)?;
    let out = Outstanding::new(alloc, cap)?;
    let (hearer, teller) = count(alloc)?;
    let other = line.another::<Ends>(&mut pass);
    let feed = Feed {
        line,
        pass,
        out,
        hearer,
    };
    let tap = Tap {
        line: theirs,
        pass: other,
        ended: None,
        teller,
    };
    Ok((feed, tap))
}

/// How many items, the end counted, were sent and not taken, which is at most `cap`. Both ends have met then. It waits
/// for nobody and takes no memory; O(1) beside the items that turn out to be taken.
pub fn waiting<T: Measured>(feed: &mut Feed<T>, tap: &mut Tap<T>) -> usize
    requires { feed.old.line ≡ tap.old.line }
    ensures waiting { length feed.old.sent ≡ length tap.old.taken + result }
    ensures most { result ≤ feed.old.cap }
    ensures feed { feed.new ≡ record feed.old { known = length tap.old.taken } }
    ensures tap { tap.new ≡ record tap.old { told = feed.old.sent } }
    ensures agrees { Agrees feed.old tap.old }
    ensures held { weight_of T.measure (drop (length tap.old.taken) feed.old.sent) ≤ feed.old.cap }
    ensures ended { IfSome (end_of tap.old.taken) (λ _. tap.old.taken ≡ feed.old.sent) }
{
    laws::meet(feed, tap);
    feed.out.len()
}
