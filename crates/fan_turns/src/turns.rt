//! All turns at once.
ghost use Rattle.std.specs.Prelude.{◌≡◌, ◌≤◌, [], max, All};
ghost use Rattle.std.specs.List.{AllZip};
ghost use Rattle.fan_turns.specs.Turnings.{IsReady, HasTurned};

use crate::turning::Turning;
use crew::Crew;
use relay_ports::Sink;
use std::alloc::{AllocError, Global};
use std::sync::Wait;
use std::thread::Threads;

/// Each drainer takes its turn once: a share of them in this thread, and the others beside it in the crew's.
///
/// No allocation, and a wake for each thread that sleeps. In every schedule each takes just what its own turn says.
pub fn turn_all<S: Sink, R: Wait>(
    rt: &R,
    crew: &mut Crew<Turning<S>>,
    drainers: &mut Vec<Turning<S>>,
)
    requires free { crew.old.out ≡ [] }
    requires ready { All (λ (t : Turning S). IsReady t.upto t.drainer) drainers.old.items }
    ensures free { crew.new.out ≡ [] }
    ensures threads { crew.new.threads ≡ crew.old.threads }
    ensures turned { AllZip (λ (t : Turning S) (u : Turning S). HasTurned t.upto t.drainer u.upto u.drainer u.turn)
        drainers.old.items drainers.new.items }
{
    crew.run(rt, drainers);
}

/// Each drainer takes its turn once, in the crew's threads, and `own` is called in this thread beside them: it may
/// publish to the queues that they drain.
///
/// `own` has all that it captures: it needs no `Send`, and may borrow. What it publishes a drainer may take or leave to
/// its next turn; where as many items as it is to take were known to be sent before, it takes just those. Costs as of
/// `turn_all`.
pub fn turn_beside<S: Sink, R: Wait, A, F: FnMut() -> A>(
    rt: &R,
    crew: &mut Crew<Turning<S>>,
    drainers: &mut Vec<Turning<S>>,
    own: &mut F,
) -> A
    requires free { crew.old.out ≡ [] }
    requires ready { All (λ (t : Turning S). IsReady t.upto t.drainer) drainers.old.items }
    requires own { F.pre own.old }
    ensures own { F.step own.old result own.new }
    ensures free { crew.new.out ≡ [] }
    ensures threads { crew.new.threads ≡ crew.old.threads }
    ensures turned { AllZip (λ (t : Turning S) (u : Turning S). HasTurned t.upto t.drainer u.upto u.drainer u.turn)
        drainers.old.items drainers.new.items }
{
    crew.beside(rt, drainers, own)
}

/// Threads and room for turns of so many drainers: `Crew::reserve`. The sink is all that is asked whether it may go to
/// another thread.
pub fn reserve_turns<S, R>(
    rt: R,
    alloc: Global,
    crew: &mut Crew<Turning<S>>,
    drainers: usize,
) -> Result<(), AllocError>
where
    S: Sink + Send + 'static,
    R: Threads + Wait + Copy + Send + 'static,
    requires free { crew.old.out ≡ [] }
    ensures free { crew.new.out ≡ [] }
    ensures least { crew.old.threads ≤ crew.new.threads }
    ensures most { crew.new.threads ≤ max crew.old.threads drainers }
{
    crew.reserve(rt, alloc, drainers)
}
