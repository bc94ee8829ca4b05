//! Owners that are still to be told.
ghost use Rattle.std.specs.Prelude.{◌≡◌, ◌+◌, ◌<◌, ◌^◌, IfSome};

use crate::release::Release;
use std::marker::Model;

// An owner that is still to be told. It can't be dropped, and telling it is the only way to get it back.
pub(crate) struct Untold<O> {
    owner: O,
}

impl<O> Model for Untold<O> {
    ghost Value = { O };

    ghost view = { λ u. u.owner };
}

impl<O> Untold<O> {
    pub(crate) fn new(owner: O) -> Untold<O>
        ensures { result ≡ owner }
    {
        Untold { owner }
    }
}

impl<O: Release> Untold<O> {
    // Tells the owner, once.
    pub(crate) fn tell(self, bytes: Vec<u8>) -> O
        ensures runs { O.runs self < 2 ^ 63 → O.runs result ≡ O.runs self + 1 }
        ensures last { IfSome (O.last result) (λ xs. xs ≡ bytes.items) }
    {
        let Untold { mut owner } = self;
        owner.released(bytes);
        owner
    }
}
