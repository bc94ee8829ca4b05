ghost use Rattle.std.specs.Prelude.{◌≡◌, []};
ghost use Rattle.std.specs.List.{AllZip};
ghost use Rattle.buffered_io.specs.Writing.{outlet};
ghost use Rattle.drainer_trials.specs.Drains.{Drains};

use buffered_io::Printer;
use crew::{Crew, Work};
use relay_ports::Sink;
use std::sync::Wait;

/// Prints a text a turn to a sink of its own, in whichever thread has it.
///
/// It asks nothing of threads: that it may be handed to one is asked where the crew starts them.
#[derive(Drop)]
pub struct Drainer<S: Sink> {
    pub sink: S,
    pub printer: Printer,
    /// What it prints in the next turn.
    pub text: Vec<u8>,
}

impl<S: Sink> Work for Drainer<S> {
    ghost use Rattle.std.specs.Prelude.{⊤};
    ghost use Rattle.buffered_io.specs.Writing.{outlet};
    ghost use Rattle.drainer_trials.specs.Drains.{Drains};

    ghost takes = { λ _. ⊤ };

    ghost does = { λ d e. Drains d.text.items (outlet d.printer (S.state d.sink))
        e.text.items (outlet e.printer (S.state e.sink)) };

    fn work<R: Wait>(&mut self, _rt: &R) {
        self.printer.put(&mut self.sink, &self.text);
        self.printer.flush(&mut self.sink);
        self.text.clear();
    }
}

/// A turn: each drainer prints its text once, in a kept thread where the crew has one for it.
pub fn drain_all<S: Sink, R: Wait>(
    rt: &R,
    crew: &mut Crew<Drainer<S>>,
    drainers: &mut Vec<Drainer<S>>,
)
    requires free { crew.old.out ≡ [] }
    ensures free { crew.new.out ≡ [] }
    ensures drained { AllZip (λ (d : Drainer S) (e : Drainer S). Drains d.text.items
        (outlet d.printer (S.state d.sink)) e.text.items (outlet e.printer (S.state e.sink)))
        drainers.old.items drainers.new.items }
{
    crew.run(rt, drainers);
}
