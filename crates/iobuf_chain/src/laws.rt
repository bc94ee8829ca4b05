//! Laws of chains: each is the contract of a function that does nothing.
ghost use Rattle.iobuf_chain.specs.Copies.{SharesInTurn};
ghost use Rattle.iobuf_chain.specs.Laws.{RotationKeepsNodes, SharesItsBytes, WritesBehind};
ghost use Rattle.iobuf_chain.specs.Many.{ManyAreRejoined, SharesAreReturnable, StaysReturnable};
ghost use Rattle.iobuf_chain.specs.Receipts.{OneMintAgrees};

/// A node with enough weight can be shared up to 1,024 times in turn: where so many more shares can be made without a
/// copy, one fewer can be after the next.
pub fn shares_in_turn()
    ensures { SharesInTurn }
{}

/// Where one mint gave the numbers of a receipt and of all nodes, the chain may absorb the receipt.
pub fn one_mint_agrees<O: Drop>()
    ensures { OneMintAgrees O }
{}

/// A range that is shared has just its bytes.
pub fn range_has_its_bytes<O: Drop>()
    ensures { SharesItsBytes O }
{}

/// A chain that turns has the same nodes in another order.
pub fn rotation_keeps_nodes<O: Drop>()
    ensures { RotationKeepsNodes O }
{}

/// Bytes that are written through `Chain::tail_mut`, and that fit, stand in the room behind the data, and all else
/// stays.
pub fn writes_behind<O: Drop>()
    ensures { WritesBehind O }
{}

/// A share of a chain may be given back to it.
pub fn shares_are_returnable<O: Drop>()
    ensures { SharesAreReturnable O }
{}

/// What may be given back to a chain still may as long as each of its nodes stays on its storage: so it does not matter
/// which share comes back first.
pub fn stays_returnable<O: Drop>()
    ensures { StaysReturnable O }
{}

/// Shares that were made in turn and are all given back, in whatever order, leave the chain with the weight of each
/// storage that it had.
pub fn many_are_rejoined<O: Drop>()
    ensures { ManyAreRejoined O }
{}
