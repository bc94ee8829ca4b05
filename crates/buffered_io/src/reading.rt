ghost use Rattle.std.specs.Prelude.{◌≡◌, ◌≤◌, length, take, drop, IfSome};
ghost use Rattle.buffered_io.specs.Reading.{ReadsBlock, Probes};

use relay_ports::Source;

/// How far a block was filled.
#[derive(Clone, Copy, Debug, PartialEq, Eq)]
pub enum Filled {
    /// To its last byte.
    Full,
    /// As far as the source went, which is at its end.
    Ended,
    /// Until a read failed.
    Broken,
}

/// Why a reading stopped.
#[derive(Clone, Copy, Debug, PartialEq, Eq)]
pub enum Stop {
    /// The source is at its end.
    End,
    /// A read failed.
    Failure,
    /// More is there than may be read.
    Limit,
}

/// Fills a slice by repeated reads until it is full, the source ends or a read fails, and answers how many bytes came.
/// A source that tells its bytes leaves the rest of the slice as it was. A source that gives what it is asked for is
/// called once.
pub fn fill<S: Source>(source: &mut S, block: &mut [u8]) -> (usize, Filled)
    ensures reads { ReadsBlock result.1 (length block.old) (take result.0 block.new)
        (S.state source.old) (S.state source.new) }
    ensures within { result.0 ≤ length block.old }
    ensures behind { IfSome (S.state source.old).given (λ _. drop result.0 block.new ≡ drop result.0 block.old) }
{
    let mut at = 0;
    'pieces: while at < block.len() {
        match source.read(&mut block[at..]) {
            Ok(0) => return (at, Filled::Ended),
            Ok(n) => at += n,
            Err(_) => return (at, Filled::Broken),
        }
    }
    (at, Filled::Full)
}

/// Reads one byte, to see whether there is more than may be read.
pub fn probe<S: Source>(source: &mut S) -> Stop
    ensures { Probes result (S.state source.old) (S.state source.new) }
{
    let mut byte = [0u8; 1];
    match source.read(&mut byte) {
        Ok(0) => Stop::End,
        Ok(_) => Stop::Limit,
        Err(_) => Stop::Failure,
    }
}
