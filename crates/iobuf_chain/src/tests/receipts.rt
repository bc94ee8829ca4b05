//! Receipts that chains absorb, and chains that are managed.
ghost use Rattle.std.specs.Prelude.{◌≤◌};

use super::{chain_of, copied, numbered, shows};
use crate::Chain;
use crate::absorb::first_with;
use iobuf_node::IoBuf;
use share_count::Mint;
use std::alloc::{AllocError, Global};
use std::process::Abort;
use storage::{Receipt, Release};

// A node whose clone was given back, with the receipt of that.
fn lender<O: Release>(
    alloc: Global,
    node: IoBuf<'static, O>,
    mint: &mut Mint,
) -> Result<Option<Chain<'static, O>>, AllocError>
    requires { 2 ≤ node.share.weight }
{
    let mut node = node;
    let clone = node.clone_one(alloc, mint)?;
    let Some(receipt) = clone.give_back().receipt() else {
        return Ok(None);
    };
    let mut chain = Chain::of(alloc, node);
    match chain.absorb(receipt) {
        Ok(()) => Ok(Some(chain)),
        Err(_) => Ok(None),
    }
}

// Whether the first node has all the weight that there is, though not all that there ever was.
fn whole_of_less(chain: &Chain<'_>) -> bool {
    let _nodes = chain.elements();
    let node = chain.node(0);
    node.whole() && node.weight() < 1 << 62
}

#[test]
fn a_chain_absorbs_what_came_back(rt: HostRuntime) {
    let mut mint = Mint::new();
    let node = copied(&rt, rt.alloc(), b"ab", (1, 2), &mut mint);
    assert!(rt; node.weight() > 1);
    let lent = lender(rt.alloc(), node, &mut mint).expect(&rt, "memory for a clone");
    let chain = lent.expect(&rt, "a receipt");
    assert!(rt; whole_of_less(&chain) && shows(&chain, "ab"));
}

// Has a chain absorb a receipt of a storage that it doesn't have.
fn absorbs_other(chain: &mut Chain<'static>, receipt: Receipt) -> Result<(), Receipt> {
    match first_with(&chain.nodes, receipt.number()) {
        Some(_) => Ok(()),
        None => chain.absorb(receipt),
    }
}

#[test]
fn other_receipts_are_handed_back(rt: HostRuntime) {
    let mut mint = Mint::new();
    let mut chain = chain_of(&rt, rt.alloc(), "&xy|a", &mut mint);
    let other = copied(&rt, rt.alloc(), b"b", (0, 0), &mut mint);
    let receipt = other.give_back().receipt().expect(&rt, "a receipt");
    let number = receipt.number();
    let same = absorbs_other(&mut chain, receipt).expect_err(&rt, "the receipt");
    assert!(rt; same.number() == number && same.lasts() == 1);
    assert!(rt; shows(&chain, "xy|a"));
}

#[test]
fn wrapped_nodes_are_managed(rt: HostRuntime) {
    let mut mint = Mint::new();
    let chain = chain_of(&rt, rt.alloc(), "&xy|+a|&|b", &mut mint);
    assert!(rt; numbered(&chain, &[None, Some(0), None, Some(1)]));
    let managed = chain
        .into_managed(rt.alloc(), &mut mint)
        .expect(&rt, "managed nodes");
    assert!(rt; shows(&managed, "xy|a||b") && !managed.is_shared());
    assert!(rt; numbered(&managed, &[Some(2), Some(0), Some(3), Some(1)]));
}
