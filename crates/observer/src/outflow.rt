//! The way of frames to a sink.
ghost use Rattle.std.specs.Prelude.{◌≡◌, ◌≤◌, false, [], true};
ghost use Rattle.frame_head.specs.Framed.{framed_text, has_known_field};
ghost use Rattle.observer.specs.Flows.{Flow, Flows, flow};
ghost use Rattle.observer.specs.Meters.{CountsTaken, meter_anew};

use crate::metered::Metered;
use buffered_io::Printer;
use frame_batch::Batch;
use frame_head::Out;
use frame_writer::print_batch;
use relay_ports::Sink;
use std::marker::Model;

/// A sink, the printer before it, and how frames are written. Contracts see all three.
#[derive(Drop)]
pub(crate) struct Outflow<S: Sink> {
    out: Out,
    printer: Printer,
    sink: Metered<S>,
}

impl<S: Sink> Model for Outflow<S> {
    ghost use Rattle.frame_head.specs.Framed.{has_known_field};
    ghost use Rattle.observer.specs.Flows.{Flow, flow};
    ghost use Rattle.std.specs.Prelude.{◌≡◌, true};

    ghost Value = { Flow };

    ghost view = { λ f. flow f.out f.printer f.sink };

    ghost invariant = { λ f. has_known_field f.out ≡ true };
}

impl<S: Sink> Outflow<S> {
    pub(crate) fn new(out: Out, printer: Printer, sink: S) -> Outflow<S>
        requires { has_known_field out ≡ true }
        ensures { result ≡ flow out printer (meter_anew (S.state sink)) }
    {
        Outflow {
            out,
            printer,
            sink: Metered::new(sink),
        }
    }

    pub(crate) fn out(&self) -> &Out
        ensures out { result.now ≡ self.now.out }
        ensures known { has_known_field result.now ≡ true }
    {
        &self.out
    }

    /// Whether the sink failed.
    pub(crate) fn failed(&self) -> bool
        ensures { result ≡ self.now.printer.failed }
    {
        self.printer.failed()
    }

    /// The bytes that the sink takes are counted from here on.
    pub(crate) fn mark(&mut self)
        ensures { self.new ≡ record self.old { meter = meter_anew self.old.meter.sink } }
    {
        self.sink.mark();
    }

    /// How many bytes the sink took since the mark.
    pub(crate) fn taken(&self) -> u128
        ensures value { result ≡ self.now.meter.taken }
        ensures counts { CountsTaken self.now.meter }
    {
        self.sink.taken()
    }

    /// Prints the frames of a batch. After a failure nothing is printed, in no time.
    pub(crate) fn print(&mut self, batch: &Batch)
        ensures { Flows (framed_text self.old.out batch.now.frames) self.old self.new }
    {
        if self.failed() {
            return;
        }
        print_batch(&mut self.printer, &mut self.sink, &self.out, batch);
    }

    /// Writes out what waits.
    pub(crate) fn flush(&mut self)
        ensures prints { Flows [] self.old self.new }
        ensures empty { self.new.printer.failed ≡ false → self.new.printer.text ≡ [] }
    {
        self.printer.flush(&mut self.sink);
    }

    /// The sink alone. What waits is dropped.
    pub(crate) fn into_sink(self) -> S
        ensures { S.state result ≡ self.meter.sink }
    {
        let Outflow { sink, .. } = self;
        sink.into_sink()
    }
}
