//! Laws of chains: each is the contract of a function that does nothing.
ghost use Rattle.chain_unshare.specs.Laws.{SplitKeepsBytes, CoalesceKeepsBytes, GatherKeepsBytes};

/// The bytes of a chain that was split are those of the front and then those of the rest.
pub fn split_keeps_bytes<O: Drop>()
    ensures { SplitKeepsBytes O }
{}

/// A chain whose nodes became one has the bytes that it had.
pub fn coalesce_keeps_bytes<O: Drop>()
    ensures { CoalesceKeepsBytes O }
{}

/// A chain whose first nodes became one has the bytes that it had.
pub fn gather_keeps_bytes<O: Drop>()
    ensures { GatherKeepsBytes O }
{}
