ghost use Rattle.std.specs.Prelude.{◌≡◌, ◌<◌, ◌≤◌, IfOk, length};

use relay_ports::{Failed, Faults, Sink};
use std::fs::File;
use std::io::{ErrorKind, Write};
use std::rt::Stdout;

// Where the bytes go.
#[derive(Drop)]
enum Target {
    Stdout(Stdout),
    File(File),
}

/// Standard output or a file, with a count of the writes that failed. It tells no bytes.
#[derive(Drop)]
pub struct OsOutput {
    target: Target,
    pub counts: Faults,
}

/// What is kept of an output that was finished: its counts, and whether the finishing failed.
#[derive(Clone, Copy, Debug)]
pub struct Finishing {
    pub counts: Faults,
    pub failed: bool,
}

impl OsOutput {
    pub fn stdout(stdout: Stdout) -> OsOutput
        ensures { (result.counts.faults ≡ 0) × (result.counts.after ≡ 0) }
    {
        OsOutput {
            target: Target::Stdout(stdout),
            counts: Faults::NONE,
        }
    }

    pub fn file(file: File) -> OsOutput
        ensures { (result.counts.faults ≡ 0) × (result.counts.after ≡ 0) }
    {
        OsOutput {
            target: Target::File(file),
            counts: Faults::NONE,
        }
    }

    /// Hands on what a writer may hold back.
    pub fn flush(&mut self) -> Result<(), Failed>
        ensures { self.new.counts ≡ self.old.counts }
    {
        let flushed = match &mut self.target {
            Target::Stdout(stdout) => stdout.flush(),
            Target::File(file) => file.flush(),
        };
        flushed.map_err(|e| Failed { kind: e.kind() })
    }
}

impl Sink for OsOutput {
    ghost use Rattle.relay_prog.specs.Standard.{untold_sink};

    ghost state = { λ s. untold_sink s.counts };

    fn write(&mut self, piece: &[u8]) -> Result<usize, Failed> {
        if piece.is_empty() {
            return Ok(0);
        }
        let written = match &mut self.target {
            Target::Stdout(stdout) => write_uninterrupted(stdout, piece),
            Target::File(file) => write_uninterrupted(file, piece),
        };
        match written {
            Ok(_) => self.counts.count_call(),
            Err(_) => self.counts.count_failure(),
        }
        written
    }
}

// Writes once; a write that was interrupted is made again. A write that takes nothing is a failure.
fn write_uninterrupted<W: Write>(writer: &mut W, piece: &[u8]) -> Result<usize, Failed>
    ensures { IfOk result (λ n. (0 < n) × (n ≤ length piece.now)) }
{
    for _ in 0..u64::MAX {
        match writer.write(piece) {
            Ok(0) => {
                return Err(Failed {
                    kind: ErrorKind::WriteZero,
                });
            }
            Ok(n) => return Ok(n),
            Err(e) if e.kind() == ErrorKind::Interrupted => {}
            Err(e) => return Err(Failed { kind: e.kind() }),
        }
    }
    Err(Failed {
        kind: ErrorKind::Interrupted,
    })
}
