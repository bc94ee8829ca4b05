ghost use Rattle.std.specs.Prelude.{◌≡◌, ℕ, ◌+◌, ◌<◌, ◌^◌, List, [], None, length};
ghost use Rattle.frame_head.specs.declared.codecs.Codec.{Codec};
ghost use Rattle.frame_head.specs.Codecs.{last_unit, fault_of};
ghost use Rattle.frame_rule.specs.Scanning.{Scanned, last_of};

use frame_head::{Codec, FaultKind};

/// What a scanner finds in the bytes that come next. Sizes are in bytes.
#[derive(Clone, Copy, Debug, PartialEq, Eq)]
pub enum Scan {
    /// The unit goes on behind these bytes.
    Open,
    /// The unit goes on behind these bytes, and becomes no frame whatever follows, so its bytes needn't be kept.
    Hopeless,
    /// The unit ends behind the first `used` of these bytes, and is a frame without its first `front` and its last
    /// `back`.
    Frame {
        used: usize,
        front: usize,
        back: usize,
    },
    /// The unit is a fault that takes the first `used` of these bytes, and `over` more.
    Fault {
        kind: FaultKind,
        used: usize,
        over: u128,
    },
}

/// Finds where the units of a stream end. It looks at each byte a constant number of times, keeps 63 bytes at most, and
/// takes no memory.
pub trait Scanner: Drop {
    /// The codec by which it scans, which no call changes.
    ghost codec_of: { Self → Codec };

    /// The codecs of its kind.
    ghost takes: { Codec → Type 0 };

    /// It has seen these bytes, and they are an open unit.
    ghost saw: { Self → List ℕ → Type 0 };

    /// A scanner that has seen nothing.
    fn new(codec: Codec) -> Self
        requires checked { fault_of codec ≡ None }
        requires kind { takes codec }
        ensures codec { codec_of result ≡ codec }
        ensures fresh { saw result [] };

    /// Scans the bytes that come behind the `have` open bytes that it has seen. What is behind the end of a unit is
    /// left to the next call.
    fn scan(&mut self, have: usize, bytes: &[u8]) -> Scan
        requires seen { (r : List ℕ) × (length r ≡ have) × saw self.old r }
        requires some { 0 < length bytes.now }
        requires room { have + length bytes.now < 2 ^ 62 }
        ensures codec { codec_of self.new ≡ codec_of self.old }
        ensures found { (r : List ℕ) → length r ≡ have → saw self.old r
            → Scanned (codec_of self.old) r bytes.now result (saw self.new) };

    /// What the end of the stream makes of the `have` open bytes that it has seen: a fault, or else a frame.
    fn last(&self, have: usize) -> Option<FaultKind>
        requires { 0 < have }
        ensures { (r : List ℕ) (at : ℕ) → length r ≡ have → saw self.now r
            → last_unit (codec_of self.now) at r ≡ last_of at r result };

    ghost checked: { (s : Self) (r : List ℕ) → saw s r → fault_of (codec_of s) ≡ None };
}
