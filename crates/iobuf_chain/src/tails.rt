//! The room behind a chain's data, lent for writing.
ghost use Rattle.std.specs.Prelude.{◌≡◌, ◌≤◌, IfSome, length, take};
ghost use Rattle.buffer_model.specs.Share.{IsAlone};
ghost use Rattle.iobuf_chain.specs.Tails.{last_of};

use crate::chain::ChainOf;
use iobuf_node::Wrapped;
use storage::Told;

impl<W: Wrapped, O: Told> ChainOf<W, O> {
    ghost use Rattle.std.specs.Borrow.{sem};
    ghost use Rattle.iobuf_chain.specs.TailLends.{lends_tail};

    /// The first `n` bytes of the room after the last node's data, for writing, where that node is alone. They are no
    /// data until they are taken in. Takes no look. O(1), and no memory.
    pub fn tail_mut(&mut self, n: usize) -> &mut [u8]
        requires alone { IfSome (last_of self.old) (λ s. IsAlone s.share) }
        requires room { IfSome (last_of self.old) (λ s. n ≤ length s.after) }
        ensures* lends { sem 𝓛 (lends_tail W.row O.row W.Wrapped self.entry result) }
        ensures value { IfSome (last_of self.old) (λ s. result.now ≡ take n s.after) }
    {
        self.nodes.last_tail(n)
    }
}
