//! Shares that are given back to the nodes that they were made of.
ghost use Rattle.buffer_model.specs.Share.{IsShare};
ghost use Rattle.iobuf_chain.specs.Shares.{IsReturnable, Rejoins};

use iobuf_node::{IoBufOf, Wrapped};
use storage::Release;

/// Gives back a share of a node's storage, and the node absorbs the receipt. A share on a storage of its own is
/// dropped. O(1), and no memory.
pub fn rejoin<W: Wrapped, O: Release>(node: &mut IoBufOf<W, O>, share: IoBufOf<W, O>)
    requires { IsReturnable node.old.share share.share }
    ensures { Rejoins node.old share.share node.new }
{
    if share.whole() {
        return;
    }
    if let Some(receipt) = share.give_back().receipt() {
        node.absorb(receipt);
    }
}
