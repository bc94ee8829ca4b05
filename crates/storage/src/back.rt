//! What a hold hands back at its end.
ghost use Rattle.std.specs.Prelude.{◌≡◌};
ghost use Rattle.storage.specs.Back.{back_of, receipt_in};

use crate::release::{NoOwner, Told};
use crate::stored::{Ended, Stored};
use relay_ports::Lent;
use std::fmt;

/// A receipt for weight of a storage.
pub type Receipt<O = NoOwner> = share_count::Receipt<Stored<O>>;

/// What a hold hands back when it is given back. Each but `Nothing` has the receipt for its weight.
#[derive(Drop)]
pub enum Back<O: Told = NoOwner> {
    /// Others still hold the storage.
    Kept(Receipt<O>),
    /// It was the last, and the storage's bytes are gone.
    Done(Receipt<O>),
    /// It was the last, and the owner was told the bytes.
    Ran(O, Receipt<O>),
    /// It was the last, and this is the lent block with its present bytes.
    Lent(Lent, Receipt<O>),
    /// It was the last, and the storage had this tag.
    Tag(u32, Receipt<O>),
    /// The bytes were wrapped, and there was no storage.
    Nothing,
}

impl<O: Told> Ended<O> {
    // The same with the last receipt.
    pub(crate) fn with(self, receipt: Receipt<O>) -> Back<O>
        ensures { result ≡ back_of self receipt }
    {
        match self {
            Ended::Gone => Back::Done(receipt),
            Ended::Ran(owner) => Back::Ran(owner, receipt),
            Ended::Lent(block) => Back::Lent(block, receipt),
            Ended::Tag(tag) => Back::Tag(tag, receipt),
        }
    }
}

impl<O: Told> Back<O> {
    /// The receipt alone. What else was handed back is dropped. `None` exactly for `Nothing`. No memory.
    pub fn receipt(self) -> Option<Receipt<O>>
        ensures { result ≡ receipt_in self }
    {
        match self {
            Back::Kept(receipt) => Some(receipt),
            Back::Done(receipt) => Some(receipt),
            Back::Ran(owner, receipt) => {
                drop(owner);
                Some(receipt)
            }
            Back::Lent(block, receipt) => {
                drop(block);
                Some(receipt)
            }
            Back::Tag(_, receipt) => Some(receipt),
            Back::Nothing => None,
        }
    }
}

impl<O: Told> fmt::Debug for Back<O> {
    fn fmt<W: fmt::Write>(&self, f: &mut fmt::Formatter<W>) -> fmt::Result {
        match self {
            Back::Kept(receipt) => write!(f, "Kept({receipt:?})"),
            Back::Done(receipt) => write!(f, "Done({receipt:?})"),
            Back::Ran(_, receipt) => write!(f, "Ran({receipt:?})"),
            Back::Lent(block, receipt) => write!(f, "Lent({}, {receipt:?})", block.number),
            Back::Tag(tag, receipt) => write!(f, "Tag({tag}, {receipt:?})"),
            Back::Nothing => write!(f, "Nothing"),
        }
    }
}
