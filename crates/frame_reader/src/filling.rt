ghost use Rattle.std.specs.Prelude.{◌≡◌, ◌<◌, ◌≤◌, length, take, IfOk, Ok};
ghost use Rattle.std.specs.Io.KnownBytes.{Consumes, ReadConsumes};
ghost use Rattle.frame_reader.specs.Frames.{ComesWith, EndsAsSaid};

use std::io::{ErrorKind, Read};

/// What a read brought.
#[derive(Clone, Copy, Debug, PartialEq, Eq)]
pub(crate) enum Came {
    /// Some bytes.
    Bytes,
    /// None, since the input is at its end.
    End,
    /// An error of this kind.
    Failed(ErrorKind),
}

/// Reads once into the front of a block, and answers how many bytes came. So what is there comes at once, also from an
/// input that gives more only when it was answered.
pub(crate) fn fill<R: Read>(input: &mut R, block: &mut [u8]) -> (usize, Came)
    requires { 0 < length block.old }
    ensures bytes { Consumes (R.remaining input.old) (R.remaining input.new) (take result.0 block.new) }
    ensures within { result.0 ≤ length block.old }
    ensures size { length block.new ≡ length block.old }
    ensures some { ComesWith result.1 result.0 }
    ensures end { EndsAsSaid result.1 (R.remaining input.new) }
{
    match read_once(input, block) {
        Ok(0) => (0, Came::End),
        Ok(n) => (n, Came::Bytes),
        Err(kind) => (0, Came::Failed(kind)),
    }
}

// Reads once. A read that was interrupted is made again.
fn read_once<R: Read>(input: &mut R, into: &mut [u8]) -> Result<usize, ErrorKind>
    ensures bytes { ReadConsumes (R.remaining input.old) (R.remaining input.new) result into.new }
    ensures within { IfOk result (λ n. n ≤ length into.old) }
    ensures size { length into.new ≡ length into.old }
{
    'tries: for _ in 0..u64::MAX {
        match input.read(into) {
            Ok(n) => return Ok(n),
            Err(e) if e.kind() == ErrorKind::Interrupted => {}
            Err(e) => return Err(e.kind()),
        }
    }
    Err(ErrorKind::Interrupted)
}
