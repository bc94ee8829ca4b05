//! The steps on the word that need no hand proof.
use atomic_table::{Join, Play, Split, Table};
use counted_payload::{Entry, Rule};
use std::alloc::Global;

/// The weight of a storage as it is made, 2^62. All its units and receipts add up to it.
pub const FULL: u64 = 1 << 62;

// The counted word, as its units share it.
pub(crate) type Word = Table<(), Entry, (), Rule, Global>;

// A share.
pub(crate) struct Cut;

impl Split<Entry> for Cut {
    ghost use Rattle.share_count.specs.Cutting.{stays, goes};

    ghost left = { stays };

    ghost right = { goes };
}

// A receipt that is taken in.
pub(crate) struct Together;

impl Join<Entry> for Together {
    ghost use Rattle.counted_payload.specs.Accounts.{spent as nothing};
    ghost use Rattle.share_count.specs.Cutting.{together};

    ghost both = { together };

    ghost spent = { nothing };
}

// A look that is noted.
pub(crate) struct Look;

impl Play<(), Entry> for Look {
    ghost use Rattle.share_count.specs.Cutting.{Looks};

    ghost then = { λ s v found w. Looks v found w };
}

// A load that tells what the books say of the own seat.
pub(crate) struct Learn;

impl Play<(), Entry> for Learn {
    ghost use Rattle.share_count.specs.Cutting.{Learns};

    ghost then = { λ s v found w. Learns v found w };
}

// The give back of a unit that is alone.
pub(crate) struct End;

impl Play<(), Entry> for End {
    ghost use Rattle.share_count.specs.Cutting.{Ends};

    ghost then = { λ s v found w. Ends v found w };
}
