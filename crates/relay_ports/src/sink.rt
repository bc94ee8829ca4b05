ghost use Rattle.std.specs.Prelude.{◌≡◌, ℕ, ◌<◌, ◌≤◌, length, take, Ok, IfOk, OnErr};
ghost use Rattle.relay_ports.specs.States.{SinkState};
ghost use Rattle.relay_ports.specs.Calls.{Took, WriteFailed};

use crate::failures::Failed;

/// Takes bytes.
pub trait Sink: Drop {
    /// What is known of it.
    ghost state: { Self → SinkState };

    /// Takes bytes from the front of a piece and answers their number, which is 0 for an empty piece alone. A call
    /// with an empty piece never fails and changes nothing. A call that fails takes nothing and is counted.
    fn write(&mut self, piece: &[u8]) -> Result<usize, Failed>
        ensures took { IfOk result (λ n. 0 < n → Took (take n piece.now) (state self.old) (state self.new)) }
        ensures failed { OnErr result (WriteFailed (state self.old) (state self.new)) }
        ensures fits { IfOk result (λ n. n ≤ length piece.now) }
        ensures some { IfOk result (λ n. 0 < length piece.now → 0 < n) }
        ensures empty { length piece.now ≡ 0 → (result ≡ Ok 0) × (state self.new ≡ state self.old) };
}
