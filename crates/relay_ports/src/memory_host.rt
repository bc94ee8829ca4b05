ghost use Rattle.std.specs.Prelude.{◌≡◌, ◌⊎◌, ◌++◌, ◌<◌, ℕ, List, [], ◌∷◌, Option, Some, None, true, false, All};
ghost use Rattle.std.specs.Prelude.{Contains, refl, length, replicate, is_err, IfOk, IfErr, IsErrOf, OnOk, OnErr, option_copied};
ghost use Rattle.std.specs.Option.{is_some};
ghost use Rattle.std.specs.List.{list_any};
ghost use Rattle.std.specs.Map.{keys_of};
ghost use Rattle.std.specs.Str.{bytes_eq};
ghost use Rattle.relay_ports.specs.Told.{has_name};
ghost use Rattle.relay_ports.specs.States.{text_of};
ghost use Rattle.relay_ports.specs.Memory.{IsUnused, IsUnwritten};
ghost use Rattle.relay_ports.specs.Entries.{waiting_under};
ghost use Rattle.relay_ports.specs.Lending.{after_lend, after_return};
ghost use Rattle.relay_ports.specs.Hosting.{Refused, host_state, new_host, with_input, with_output};
ghost use Rattle.relay_ports.specs.Hosting.{after_open_in, after_create_out, after_finish_in, after_finish_out};

use crate::failures::{Failed, NotOpened};
use crate::host::Host;
use crate::lender::Lender;
use crate::lent::Lent;
use crate::memory::{MemSink, MemSource};
use crate::name::{Name, has_name};
use crate::register::Register;
use crate::tally::one_more;
use std::alloc::{AllocError, Global};
use std::marker::Model;

// An output that was finished, and whether the finishing failed.
#[derive(Debug, Drop)]
struct Finished {
    sink: MemSink,
    failed: bool,
}

/// A host over memory. Contracts see what was added, what is open, what was finished and whether that failed, the
/// report, the blocks that are out, and which calls are to fail.
#[derive(Debug, Drop)]
pub struct MemHost {
    inputs: Register<MemSource, MemSource>,
    outputs: Register<MemSink, Finished>,
    report: MemSink,
    faults: u64,
    refused: Vec<Name>,
    lender: Lender,
    failing_openings: Vec<Name>,
    failing_finishings: Vec<Name>,
    most_out: u64,
}

impl Model for Finished {
    ghost use Rattle.relay_ports.specs.Hosting as hosting;

    ghost Value = { hosting.Finished };

    ghost view = { λ f. record { sink = f.sink; failed = f.failed } };
}

impl Finished {
    // What the output took.
    fn bytes(&self) -> &[u8]
        ensures { result.now ≡ self.now.sink.written }
    {
        self.sink.bytes()
    }
}

impl Model for MemHost {
    ghost use Rattle.std.specs.Prelude.{All};
    ghost use Rattle.relay_ports.specs.Memory.{IsUnused, IsUnwritten};
    ghost use Rattle.relay_ports.specs.Hosting.{Hosting};

    ghost Value = { Hosting };

    ghost view = { λ h. record {
      inputs = h.inputs;
      outputs = h.outputs;
      report = h.report;
      faults = h.faults;
      refused = h.refused.items;
      lending = h.lender;
      failing_openings = h.failing_openings.items;
      failing_finishings = h.failing_finishings.items;
      most_out = h.most_out;
    } };

    // No call was made of what waits to be opened.
    ghost invariant = { λ h. All (λ e. IsUnused e.1) h.inputs.waiting × All (λ e. IsUnwritten e.1) h.outputs.waiting };
}

impl MemHost {
    /// A host with no inputs and no outputs, and a report that takes nothing. It takes no memory.
    pub fn new(alloc: Global) -> MemHost
        ensures { result ≡ new_host }
    {
        MemHost {
            inputs: Register::new(alloc),
            outputs: Register::new(alloc),
            report: MemSink::closed(alloc),
            faults: 0,
            refused: Vec::new(alloc),
            lender: Lender::new(alloc),
            failing_openings: Vec::new(alloc),
            failing_finishings: Vec::new(alloc),
            most_out: u64::MAX,
        }
    }

    /// Adds an input that was never called, in the place of one with the same name. Where memory is refused nothing
    /// changes.
    pub fn add_in(&mut self, name: &str, source: MemSource) -> Result<(), AllocError>
        requires { IsUnused source }
        ensures ok { OnOk result (self.new ≡ with_input name.now source self.old) }
        ensures err { OnErr result (self.new ≡ self.old) }
    {
        self.inputs.add(*self.refused.allocator(), name, source)
    }

    /// Adds an output that was never called, in the place of one with the same name. Where memory is refused nothing
    /// changes.
    pub fn add_out(&mut self, name: &str, sink: MemSink) -> Result<(), AllocError>
        requires { IsUnwritten sink }
        ensures ok { OnOk result (self.new ≡ with_output name.now sink self.old) }
        ensures err { OnErr result (self.new ≡ self.old) }
    {
        self.outputs.add(*self.refused.allocator(), name, sink)
    }

    /// Puts the report in the place of the one that was there.
    pub fn set_report(&mut self, sink: MemSink)
        ensures { self.new ≡ record self.old { report = sink } }
    {
        self.report = sink;
    }

    /// From now on opening or making this name fails, and is counted; what waits under it stays. Where memory is
    /// refused nothing changes.
    pub fn fail_open(&mut self, name: &str) -> Result<(), AllocError>
        ensures ok { OnOk result (self.new ≡
            record self.old { failing_openings = self.old.failing_openings ++ name.now ∷ [] }) }
        ensures err { OnErr result (self.new ≡ self.old) }
    {
        let noted = Name::new(*self.refused.allocator(), name)?;
        self.failing_openings.push(noted)?;
        Ok(())
    }

    /// From now on finishing an output of this name fails, and is counted; the text is stored all the same. Where
    /// memory is refused nothing changes.
    pub fn fail_finish(&mut self, name: &str) -> Result<(), AllocError>
        ensures ok { OnOk result (self.new ≡
            record self.old { failing_finishings = self.old.failing_finishings ++ name.now ∷ [] }) }
        ensures err { OnErr result (self.new ≡ self.old) }
    {
        let noted = Name::new(*self.refused.allocator(), name)?;
        self.failing_finishings.push(noted)?;
        Ok(())
    }

    /// From now on a block is lent only where fewer than `most` are out. It takes no memory.
    pub fn set_most_out(&mut self, most: u64)
        ensures { self.new ≡ record self.old { most_out = most } }
    {
        self.most_out = most;
    }

    /// The report.
    pub fn sink(&self) -> &MemSink
        ensures { result.now ≡ self.now.report }
    {
        &self.report
    }

    /// The text under a name: what the last output that was finished under it took; none where no output of this name
    /// was finished.
    pub fn written(&self, name: &str) -> Option<&[u8]>
        ensures text { option_copied result ≡ text_of name.now (host_state self.now).outputs }
        ensures found { is_some result ≡ list_any (bytes_eq name.now) (keys_of self.now.outputs.openings.finished) }
    {
        match self.outputs.finished(name) {
            Some(finished) => Some(finished.bytes()),
            None => None,
        }
    }

    /// How many blocks are out.
    pub fn out_count(&self) -> u64
        ensures { result ≡ length self.now.lending.out }
    {
        self.lender.out_count()
    }

    // Counts an opening that failed, and notes its name.
    fn refuse(&mut self, name: &str) -> NotOpened
        ensures { Refused result name.now self.old self.new }
    {
        let Ok(noted) = Name::new(*self.refused.allocator(), name) else {
            return NotOpened::NoMemory;
        };
        if self.refused.push(noted).is_err() {
            return NotOpened::NoMemory;
        }
        self.faults = one_more(self.faults);
        NotOpened::Failed
    }
}

impl Host for MemHost {
    type Input = MemSource;

    type Output = MemSink;

    ghost state = { host_state };

    ghost with_report = { λ h w. record h { report = w } };

    ghost told = { λ h w. refl };

    fn open_in(&mut self, name: &str) -> Result<MemSource, NotOpened>
        ensures source { IfOk result (λ s. waiting_under name.now self.old.inputs ≡ Some s) }
        ensures allowed { OnOk result (has_name name.now self.old.failing_openings ≡ false) }
        ensures failed { IsErrOf result NotOpened.Failed →
            (has_name name.now self.old.failing_openings ≡ true) ⊎ (waiting_under name.now self.old.inputs ≡ None) }
        ensures unused { IfOk result (λ s. IsUnused s) }
        ensures opened { OnOk result (self.new ≡ after_open_in name.now self.old) }
        ensures refused { IfErr result (λ e. Refused e name.now self.old self.new) }
    {
        if has_name(&self.failing_openings, name) {
            return Err(self.refuse(name));
        }
        match self.inputs.open(name) {
            Ok(Some(source)) => Ok(source),
            Ok(None) => Err(self.refuse(name)),
            Err(_) => Err(NotOpened::NoMemory),
        }
    }

    fn finish_in(&mut self, name: &str, input: MemSource)
        requires { Contains self.old.inputs.openings.open_names name.now }
        ensures { self.new ≡ after_finish_in name.now input self.old }
    {
        self.inputs.close(name, input);
    }

    fn create_out(&mut self, name: &str) -> Result<MemSink, NotOpened>
        ensures sink { IfOk result (λ w. waiting_under name.now self.old.outputs ≡ Some w) }
        ensures allowed { OnOk result (has_name name.now self.old.failing_openings ≡ false) }
        ensures failed { IsErrOf result NotOpened.Failed →
            (has_name name.now self.old.failing_openings ≡ true) ⊎ (waiting_under name.now self.old.outputs ≡ None) }
        ensures unused { IfOk result (λ w. IsUnwritten w) }
        ensures created { OnOk result (self.new ≡ after_create_out name.now self.old) }
        ensures refused { IfErr result (λ e. Refused e name.now self.old self.new) }
    {
        if has_name(&self.failing_openings, name) {
            return Err(self.refuse(name));
        }
        match self.outputs.open(name) {
            Ok(Some(sink)) => Ok(sink),
            Ok(None) => Err(self.refuse(name)),
            Err(_) => Err(NotOpened::NoMemory),
        }
    }

    fn finish_out(&mut self, name: &str, output: MemSink) -> Result<(), Failed>
        requires { Contains self.old.outputs.openings.open_names name.now }
        ensures fails { is_err result ≡ has_name name.now self.old.failing_finishings }
        ensures kind { IfErr result (λ e. e ≡ Failed.OTHER) }
        ensures finished { self.new ≡ after_finish_out name.now output (is_err result) self.old }
    {
        let failed = has_name(&self.failing_finishings, name);
        self.outputs.close(
            name,
            Finished {
                sink: output,
                failed,
            },
        );
        if failed {
            self.faults = one_more(self.faults);
            return Err(Failed::OTHER);
        }
        Ok(())
    }

    fn lend(&mut self, size: usize) -> Result<Lent, AllocError>
        ensures zeros { IfOk result (λ b. b.bytes.items ≡ replicate size 0) }
        ensures number { IfOk result (λ b. b.number ≡ self.old.lending.lends) }
        ensures below { OnOk result (All (λ n. n < self.old.lending.lends) self.old.lending.out) }
        ensures most { OnOk result (length self.old.lending.out < self.old.most_out) }
        ensures lent { OnOk result (self.new ≡ record self.old { lending = after_lend self.old.lending }) }
        ensures refused { OnErr result (self.new ≡ self.old) }
    {
        if self.out_count() >= self.most_out {
            return Err(AllocError);
        }
        self.lender.lend(*self.refused.allocator(), size)
    }

    fn take_back(&mut self, block: Lent)
        ensures { self.new ≡ record self.old { lending = after_return block.number self.old.lending } }
    {
        self.lender.take_back(block.number);
    }

    fn report(&mut self) -> &mut MemSink {
        &mut self.report
    }
}
