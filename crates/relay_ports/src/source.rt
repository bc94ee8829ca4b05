ghost use Rattle.std.specs.Prelude.{◌≡◌, ℕ, ◌<◌, ◌≤◌, length, take, IfOk, IfSome, OnErr};
ghost use Rattle.relay_ports.specs.States.{SourceState, TellsEnd};
ghost use Rattle.relay_ports.specs.Calls.{Gave, ReadFailed, KeepsBehind};

use crate::failures::Failed;

/// Gives bytes until its end.
pub trait Source: Drop {
    /// What is known of it.
    ghost state: { Self → SourceState };

    /// Gives the next bytes into the front of a slice and answers their number. No byte for a slice that isn't empty
    /// is the end. It may give fewer bytes than it has. A call that fails gives nothing and is counted. Either call
    /// notes the slice's length where it is the longest so far. A source that tells its bytes writes nothing else into
    /// the slice.
    fn read(&mut self, into: &mut [u8]) -> Result<usize, Failed>
        ensures gave { IfOk result (λ n. Gave (length into.old) (take n into.new) (state self.old) (state self.new)) }
        ensures failed { OnErr result (ReadFailed (length into.old) (state self.old) (state self.new)) }
        ensures fits { IfOk result (λ n. n ≤ length into.old) }
        ensures behind { IfSome (state self.old).given (λ _. KeepsBehind result into.old into.new) }
        ensures ended { IfOk result (λ n. 0 < length into.old → TellsEnd n (state self.old)) };
}
