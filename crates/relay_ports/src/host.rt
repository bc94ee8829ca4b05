ghost use Rattle.std.specs.Prelude.{◌≡◌, ◌<◌, ℕ, List, All, Contains, replicate, IfOk, IfErr, OnOk, OnErr};
ghost use Rattle.std.specs.Option.{ForSome};
ghost use Rattle.std.specs.Borrow.{sem, Lends};
ghost use Rattle.relay_ports.specs.States.{HostState, IsFreshSource, IsFreshSink};
ghost use Rattle.relay_ports.specs.Calls.{OpenedInput, FinishedInput, CreatedOutput, FinishedOutput, Unopened};
ghost use Rattle.relay_ports.specs.Calls.{LentBlock, ReturnedBlock, SetReport};

use crate::failures::{Failed, NotOpened};
use crate::lent::Lent;
use crate::sink::Sink;
use crate::source::Source;
use std::alloc::AllocError;

/// What a run is given of the outside. The empty name is standard input.
pub trait Host {
    type Input: Source;

    type Output: Sink;

    /// What is known of it.
    ghost state: { Self → HostState };

    /// The same host with another report.
    ghost with_report: { Self → Self.Output → Self };

    /// Opens an input, which has given nothing yet. Where the outside refuses it, that is counted, and the name joins
    /// those that were refused. Where memory is refused nothing changes.
    fn open_in(&mut self, name: &str) -> Result<Self::Input, NotOpened>
        ensures opened { OnOk result (OpenedInput name.now (state self.old) (state self.new)) }
        ensures unopened { IfErr result (λ e. Unopened e name.now (state self.old) (state self.new)) }
        ensures fresh { IfOk result (λ i. IsFreshSource (Self.Input.state i)) };

    /// Takes an input back that was opened under this name. It takes no memory.
    fn finish_in(&mut self, name: &str, input: Self::Input)
        requires { ForSome (state self.old).open_inputs (λ names. Contains names name.now) }
        ensures closed { FinishedInput name.now (Self.Input.state input) (state self.old) (state self.new) };

    /// Makes an output, which has taken nothing yet. It is refused as the opening of an input is.
    fn create_out(&mut self, name: &str) -> Result<Self::Output, NotOpened>
        ensures created { OnOk result (CreatedOutput name.now (state self.old) (state self.new)) }
        ensures unopened { IfErr result (λ e. Unopened e name.now (state self.old) (state self.new)) }
        ensures fresh { IfOk result (λ o. IsFreshSink (Self.Output.state o)) };

    /// Takes an output back that was made under this name. What it took is now the text under the name, also where
    /// the finishing fails, which is counted. It takes no memory.
    fn finish_out(&mut self, name: &str, output: Self::Output) -> Result<(), Failed>
        requires { ForSome (state self.old).open_outputs (λ names. Contains names name.now) }
        ensures closed { FinishedOutput result name.now (Self.Output.state output) (state self.old) (state self.new) };

    /// Lends a block of `size` zero bytes, under a number that no block had before: each that is out is below it.
    /// Where memory is refused nothing changes.
    fn lend(&mut self, size: usize) -> Result<Lent, AllocError>
        ensures zeros { IfOk result (λ b. b.bytes.items ≡ replicate size 0) }
        ensures number { IfOk result (λ b. b.number ≡ (state self.old).lends) }
        ensures below { OnOk result (All (λ n. n < (state self.old).lends) (state self.old).lent) }
        ensures lent { OnOk result (LentBlock (state self.old) (state self.new)) }
        ensures refused { OnErr result (state self.new ≡ state self.old) };

    /// Takes a block back that is out. It takes no memory.
    fn take_back(&mut self, block: Lent)
        requires { Contains (state self.old).lent block.number }
        ensures returned { ReturnedBlock block.number (state self.old) (state self.new) };

    /// Lends the report, which is afterwards as the borrower left it. It takes no memory.
    fn report(&mut self) -> &mut Self::Output
        ensures* lends { sem 𝓛 (Lends Self.row Self.Output.row self.entry result (with_report self.old)) }
        ensures value { Self.Output.state result.now ≡ (state self.old).report };

    /// Where the report is another, only its state is.
    ghost told: { (h : Self) (w : Self.Output) → SetReport (Self.Output.state w) (state h) (state (with_report h w)) };
}
