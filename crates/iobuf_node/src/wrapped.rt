//! Bytes that nodes wrap.
use std::marker::Copy;

/// Bytes that lie elsewhere, and that a node can show without a storage: a borrowed slice. The types of nodes and
/// chains have it as a parameter, so that what a chain owns can be lent for writing out of a struct that holds it.
pub trait Wrapped: Copy + Drop {
    ghost use Rattle.std.specs.Prelude.{◌≡◌, ℕ, List};

    /// The bytes.
    ghost bytes: { Self → List ℕ };

    /// The bytes, where they are. O(1).
    fn as_bytes(&self) -> &[u8]
        ensures { result.now ≡ bytes self.now };
}

impl<'a> Wrapped for &'a [u8] {
    ghost bytes = { λ b. b.now };

    #[inline(always)]
    fn as_bytes(&self) -> &[u8] {
        self
    }
}
