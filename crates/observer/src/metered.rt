//! A sink, and how many bytes it took.
ghost use Rattle.std.specs.Prelude.{◌≡◌};
ghost use Rattle.observer.specs.Meters.{CountsTaken, meter_anew};

use relay_ports::{Failed, Sink};
use std::marker::Model;
use std::snapshot::Snapshot;

/// A sink with a count of the bytes that it takes from a mark on. Contracts see the sink's state, how much it had at
/// the mark, and the count.
#[derive(Drop)]
pub(crate) struct Metered<S: Sink> {
    sink: S,
    began: Snapshot<S>,
    taken: u128,
}

impl<S: Sink> Model for Metered<S> {
    ghost use Rattle.observer.specs.Meters.{Meter, CountsTaken, meter, size_told};

    ghost Value = { Meter };

    ghost view = { λ m. meter (S.state m.sink) (size_told (S.state m.began.value)) m.taken };

    ghost invariant = { λ m. CountsTaken (meter (S.state m.sink) (size_told (S.state m.began.value)) m.taken) };
}

impl<S: Sink> Metered<S> {
    /// Nothing is counted yet.
    pub(crate) fn new(sink: S) -> Metered<S>
        ensures { result ≡ meter_anew (S.state sink) }
    {
        let began = Snapshot::of(&sink);
        Metered {
            sink,
            began,
            taken: 0,
        }
    }

    /// The count begins anew.
    pub(crate) fn mark(&mut self)
        ensures { self.new ≡ meter_anew self.old.sink }
    {
        self.began = Snapshot::of(&self.sink);
        self.taken = 0;
    }

    /// How many bytes were taken since the mark. It stands still at the end of 128 bits.
    pub(crate) fn taken(&self) -> u128
        ensures value { result ≡ self.now.taken }
        ensures counts { CountsTaken self.now }
    {
        self.taken
    }

    /// The sink alone.
    pub(crate) fn into_sink(self) -> S
        ensures { S.state result ≡ self.sink }
    {
        let Metered { sink, .. } = self;
        sink
    }
}

impl<S: Sink> Sink for Metered<S> {
    ghost use Rattle.observer.specs.Meters.{with_base};

    ghost state = { with_base };

    fn write(&mut self, piece: &[u8]) -> Result<usize, Failed> {
        match self.sink.write(piece) {
            Ok(n) => {
                self.taken = self.taken.saturating_add(n as u128);
                Ok(n)
            }
            Err(e) => Err(e),
        }
    }
}
