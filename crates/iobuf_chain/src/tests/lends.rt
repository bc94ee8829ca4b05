//! What a struct that holds a chain can lend of it, as a queue does.
ghost use Rattle.std.specs.Prelude.{◌≤◌, IfSome, length};
ghost use Rattle.buffer_model.specs.Share.{IsAlone};
ghost use Rattle.iobuf_chain.specs.Tails.{last_of};

use super::copied;
use crate::{Chain, ChainOf};
use iobuf_node::Wrapped;
use share_count::Mint;
use storage::{NoOwner, Told};

// A chain, or none: then one stands here that isn't shown.
#[derive(Drop)]
struct Holder<W: Wrapped, O: Told> {
    chain: ChainOf<W, O>,
    empty: bool,
}

impl<W: Wrapped, O: Told> Holder<W, O> {
    // The chain, where there is one.
    fn front(&self) -> Option<&ChainOf<W, O>> {
        if self.empty {
            return None;
        }
        Some(&self.chain)
    }

    // The first n bytes of the room behind its data.
    fn tail_mut(&mut self, n: usize) -> &mut [u8]
        requires alone { IfSome (last_of self.old.chain) (λ s. IsAlone s.share) }
        requires room { IfSome (last_of self.old.chain) (λ s. n ≤ length s.after) }
    {
        self.chain.tail_mut(n)
    }
}

// The block of its first node.
fn block<'h>(holder: &'h Holder<&'static [u8], NoOwner>) -> &'h [u8] {
    let _nodes = holder.chain.elements();
    holder.chain.node(0).block()
}

#[test]
fn a_holder_lends_the_room_behind_its_data(rt: HostRuntime) {
    let alloc = rt.alloc();
    let node = copied(&rt, alloc, b"ab", (1, 2), &mut Mint::new());
    assert!(rt; node.tailroom() == 2);
    let mut holder = Holder {
        chain: Chain::of(alloc, node),
        empty: false,
    };
    holder.tail_mut(2).fill(b'y');
    assert!(rt; holder.front().is_some_and(|chain| chain.equals(b"ab")));
    assert!(rt; block(&holder) == b"\0abyy".as_slice());
    holder.empty = true;
    assert!(rt; holder.front().is_none());
}
