//! Blocks with their way of release.
ghost use Rattle.std.specs.Prelude.{◌≡◌};
ghost use Rattle.storage.specs.Ends.{Ends};

use crate::release::{NoOwner, Release, Told};
use crate::untold::Untold;
use raw_block::Block;
use relay_ports::Lent;

/// A block with its way of release. Dropping it releases it.
pub struct Stored<O: Told = NoOwner> {
    pub(crate) block: Block,
    pub(crate) way: Way<O>,
}

// How a storage is released.
pub(crate) enum Way<O> {
    Own,
    User(Untold<O>),
    Lent(u64),
    Tagged(u32),
}

/// What is left of a storage when it ends, by its way of release.
#[derive(Drop)]
pub enum Ended<O: Told = NoOwner> {
    /// Its bytes are gone.
    Gone,
    /// Its owner was told the bytes.
    Ran(O),
    /// The lent block, with its present bytes.
    Lent(Lent),
    /// Its tag.
    Tag(u32),
}

impl<O: Release> Stored<O> {
    ghost use Rattle.storage.specs.Stored.{way_of};

    /// Ends the storage by its way of release: an owner is told, once. No memory.
    pub fn end(self) -> Ended<O>
        ensures { Ends O.runs O.last (way_of self.way) self.block result }
    {
        let Stored { block, way } = self;
        match way {
            Way::Own => Ended::Gone,
            Way::User(owner) => Ended::Ran(owner.tell(block.into_vec())),
            Way::Lent(number) => Ended::Lent(Lent {
                number,
                bytes: block.into_vec(),
            }),
            Way::Tagged(tag) => Ended::Tag(tag),
        }
    }
}

impl<O: Told> Drop for Stored<O> {
    fn drop(self) {
        drop(O::end(self));
    }
}
