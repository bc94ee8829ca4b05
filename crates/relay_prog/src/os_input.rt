ghost use Rattle.std.specs.Prelude.{◌≡◌, ◌≤◌, IfOk, length};
ghost use Rattle.relay_ports.specs.States.{IsFreshSource};
ghost use Rattle.relay_prog.specs.Standard.{untold_source};

use relay_ports::{Failed, Faults, Source};
use std::fs::File;
use std::io::{ErrorKind, Read};
use std::rt::Stdin;

// Where the bytes come from.
#[derive(Drop)]
enum Origin {
    Stdin(Stdin),
    File(File),
}

/// What is known of an input: its counts, and the longest slice that a read was handed, in bytes.
#[derive(Clone, Copy, Debug)]
pub struct Reading {
    pub counts: Faults,
    pub longest: usize,
}

impl Reading {
    /// Nothing was read yet.
    pub const NONE: Reading = Reading {
        counts: Faults::NONE,
        longest: 0,
    };
}

/// Standard input or a file, with a count of the reads that failed. It tells no bytes.
#[derive(Drop)]
pub struct OsInput {
    origin: Origin,
    pub reading: Reading,
}

impl OsInput {
    pub fn stdin(stdin: Stdin) -> OsInput
        ensures { IsFreshSource (untold_source result.reading) }
    {
        OsInput {
            origin: Origin::Stdin(stdin),
            reading: Reading::NONE,
        }
    }

    pub fn file(file: File) -> OsInput
        ensures { IsFreshSource (untold_source result.reading) }
    {
        OsInput {
            origin: Origin::File(file),
            reading: Reading::NONE,
        }
    }
}

impl Source for OsInput {
    ghost use Rattle.relay_prog.specs.Standard.{untold_source};

    ghost state = { λ s. untold_source s.reading };

    fn read(&mut self, into: &mut [u8]) -> Result<usize, Failed> {
        self.reading.longest = self.reading.longest.max(into.len());
        let read = match &mut self.origin {
            Origin::Stdin(stdin) => read_uninterrupted(stdin, into),
            Origin::File(file) => read_uninterrupted(file, into),
        };
        match read {
            Ok(_) => self.reading.counts.count_call(),
            Err(_) => self.reading.counts.count_failure(),
        }
        read
    }
}

// Reads once; a read that was interrupted is made again.
fn read_uninterrupted<R: Read>(reader: &mut R, into: &mut [u8]) -> Result<usize, Failed>
    ensures { IfOk result (λ n. n ≤ length into.old) }
{
    for _ in 0..u64::MAX {
        match reader.read(into) {
            Ok(n) => return Ok(n),
            Err(e) if e.kind() == ErrorKind::Interrupted => {}
            Err(e) => return Err(Failed { kind: e.kind() }),
        }
    }
    Err(Failed {
        kind: ErrorKind::Interrupted,
    })
}
