ghost use Rattle.std.specs.Prelude.{◌≡◌, ℕ, None, Some, IfOk, map, refl};
ghost use Rattle.relay_ports.specs.States.{IsFreshSource};
ghost use Rattle.relay_prog.specs.Standard.{faults_after, untold_source};

use crate::os_input::{OsInput, Reading};
use crate::os_output::{Finishing, OsOutput};
use crate::spare_blocks::SpareBlocks;
use relay_ports::{Failed, Host, Lender, Lent, NotOpened, Openings, one_more};
use std::alloc::{AllocError, Global};
use std::fs::File;
use std::io::ErrorKind;
use std::rt::{Files, Stdin, Stdout};

/// The process's own standard input and output, and the files that it reads and makes.
#[derive(Drop)]
pub struct OsHost<R: Files<File = File> + Drop> {
    files: R,
    stdin: Stdin,
    /// Whether standard input is open.
    is_open: bool,
    report: OsOutput,
    inputs: Openings<Reading>,
    outputs: Openings<Finishing>,
    lender: Lender,
    spares: SpareBlocks,
    faults: u64,
}

impl<R: Files<File = File> + Drop> OsHost<R> {
    pub fn new(files: R, alloc: Global, stdin: Stdin, stdout: Stdout) -> OsHost<R>
        ensures { (result.faults ≡ 0) × (result.report.counts.faults ≡ 0) × (result.report.counts.after ≡ 0) }
    {
        OsHost {
            files,
            stdin,
            is_open: false,
            report: OsOutput::stdout(stdout),
            inputs: Openings::new(alloc),
            outputs: Openings::new(alloc),
            lender: Lender::new(alloc),
            spares: SpareBlocks::new(alloc),
            faults: 0,
        }
    }

    // Whether an input or an output of this name is open.
    fn is_in_use(&self, name: &str) -> bool {
        self.inputs.is_open(name) || self.outputs.is_open(name)
    }

    // What an opening that failed answers; where the outside refused it, that is counted.
    fn refuse(&mut self, refused: NotOpened) -> NotOpened
        ensures answer { result ≡ refused }
        ensures counted { self.new ≡ record self.old { faults = faults_after refused self.old.faults } }
    {
        match refused {
            NotOpened::Failed => self.faults = one_more(self.faults),
            NotOpened::NoMemory => {}
        }
        refused
    }

    // The input of a name.
    fn input_of(&self, name: &str) -> Result<OsInput, NotOpened>
        ensures { IfOk result (λ i. IsFreshSource (untold_source i.reading)) }
    {
        if !name.is_empty() {
            return match File::open(&self.files, name) {
                Ok(file) => Ok(OsInput::file(file)),
                Err(e) => Err(not_opened(e.kind())),
            };
        }
        if self.is_open {
            return Err(NotOpened::Failed);
        }
        Ok(OsInput::stdin(self.stdin))
    }
}

// What the system's refusal of a file means.
fn not_opened(kind: ErrorKind) -> NotOpened {
    match kind {
        ErrorKind::OutOfMemory => NotOpened::NoMemory,
        _ => NotOpened::Failed,
    }
}

impl<R: Files<File = File> + Drop> Host for OsHost<R> {
    ghost use Rattle.relay_prog.specs.Standard.{input_end, output_end, untold_sink};

    type Input = OsInput;

    type Output = OsOutput;

    ghost state = { λ h. record {
      faults = h.faults;
      refused = None;
      open_inputs = Some h.inputs.open_names;
      open_outputs = Some h.outputs.open_names;
      inputs = map input_end h.inputs.finished;
      outputs = map output_end h.outputs.finished;
      lent = h.lender.out;
      lends = h.lender.lends;
      report = untold_sink h.report.counts;
    } };

    ghost with_report = { λ h w. record h { report = w } };

    ghost told = { λ h w. refl };

    // The empty name is standard input, which is open once at a time; any other is a file that is there.
    fn open_in(&mut self, name: &str) -> Result<OsInput, NotOpened> {
        let input = match self.input_of(name) {
            Ok(input) => input,
            Err(refused) => return Err(self.refuse(refused)),
        };
        if self.inputs.open(name).is_err() {
            return Err(NotOpened::NoMemory);
        }
        if name.is_empty() {
            self.is_open = true;
        }
        Ok(input)
    }

    fn finish_in(&mut self, name: &str, input: OsInput) {
        if name.is_empty() {
            self.is_open = false;
        }
        self.inputs.close(name, input.reading);
    }

    // An output is a file, which is made or emptied. What is open under the same name isn't opened once more: two
    // writers would write over one another, and an input would be emptied before it is read.
    fn create_out(&mut self, name: &str) -> Result<OsOutput, NotOpened> {
        if self.is_in_use(name) {
            return Err(self.refuse(NotOpened::Failed));
        }
        let file = match File::create(&self.files, name) {
            Ok(file) => file,
            Err(e) => return Err(self.refuse(not_opened(e.kind()))),
        };
        if self.outputs.open(name).is_err() {
            return Err(NotOpened::NoMemory);
        }
        Ok(OsOutput::file(file))
    }

    fn finish_out(&mut self, name: &str, mut output: OsOutput) -> Result<(), Failed> {
        let flushed = output.flush();
        let finishing = Finishing {
            counts: output.counts,
            failed: flushed.is_err(),
        };
        self.outputs.close(name, finishing);
        if finishing.failed {
            self.faults = one_more(self.faults);
        }
        flushed
    }

    fn lend(&mut self, size: usize) -> Result<Lent, AllocError> {
        let bytes = self.spares.zeros(size)?;
        let number = self.lender.enter()?;
        Ok(Lent { number, bytes })
    }

    fn take_back(&mut self, block: Lent) {
        self.lender.take_back(block.number);
        self.spares.keep(block.bytes);
    }

    fn report(&mut self) -> &mut OsOutput {
        &mut self.report
    }
}
