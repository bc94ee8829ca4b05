//! Chains that are shared many times, and shares that come back.

use super::{chain_of, numbered, shows};
use crate::Chain;
use share_count::Mint;
use std::alloc::Global;
use std::process::Abort;

// Whether each node of a chain has this weight.
fn weighs(chain: &Chain<'_>, weight: u64) -> bool {
    for i in 0..chain.elements() {
        if chain.node(i).weight() != weight {
            return false;
        }
    }
    true
}

// How many nodes have all the weight of their storages, what they absorbed too.
fn whole_nodes(chain: &Chain<'_>) -> u32 {
    let mut count = 0u32;
    for i in 0..chain.elements() {
        if chain.node(i).whole() {
            count = count.saturating_add(1);
        }
    }
    count
}

// Three nodes, the second without data, with all the weight that there is.
fn three(rt: &impl Abort, alloc: Global, mint: &mut Mint) -> Chain<'static> {
    let chain = chain_of(rt, alloc, "+ab||c", mint);
    assert!(rt; weighs(&chain, 1 << 62));
    chain
}

// Whether some shares have the chain's data, on its storages, and a part of 2^40 of each weight.
fn are_shares(shares: &[Chain<'static>]) -> bool {
    for share in shares {
        let right = shows(share, "ab||c") && numbered(share, &[Some(0), Some(1), Some(2)]);
        if !right || !weighs(share, 1 << 40) {
            return false;
        }
    }
    true
}

// The chain after some shares of it were made and given back, or refused: how many shares there were.
fn shared_and_back(
    alloc: Global,
    chain: &mut Chain<'static>,
    n: usize,
    mint: &mut Mint,
) -> Option<usize> {
    let Ok(shares) = chain.share_many(n, alloc, mint) else {
        return None;
    };
    let count = shares.len();
    let right = are_shares(&shares) && (count == 0 || whole_nodes(chain) == 0);
    chain.rejoin_all(shares);
    if right { Some(count) } else { None }
}

#[test]
fn many_shares_come_back(rt: HostRuntime) {
    // How many shares, and the weight that each node is left with: each share takes 2^40.
    let rows = [
        (0, 1u64 << 62),
        (1, (1 << 62) - (1 << 40)),
        (3, (1 << 62) - 3 * (1 << 40)),
    ];
    for (n, left) in rows {
        let mut mint = Mint::new();
        let mut chain = three(&rt, rt.alloc(), &mut mint);
        let count = shared_and_back(rt.alloc(), &mut chain, n, &mut mint);
        assert!(rt; count == Some(n) && mint.ready() && mint.next() == 3);
        assert!(rt; whole_nodes(&chain) == 3 && weighs(&chain, left));
    }
}

// A refusal takes nothing: the list of so many shares has no room in any memory.
#[test]
fn refused_shares_leave_the_weights(rt: HostRuntime) {
    let mut mint = Mint::new();
    let mut chain = three(&rt, rt.alloc(), &mut mint);
    let count = shared_and_back(rt.alloc(), &mut chain, usize::MAX, &mut mint);
    assert!(rt; count.is_none() && mint.ready() && mint.next() == 3);
    assert!(rt; whole_nodes(&chain) == 3 && weighs(&chain, 1 << 62) && shows(&chain, "ab||c"));
}

// How many nodes are whole beside one share, which then comes back.
fn one_back(alloc: Global, chain: &mut Chain<'static>, mint: &mut Mint) -> Option<u32> {
    match chain.share_all(alloc, mint) {
        Ok(share) => {
            let count = whole_nodes(chain);
            chain.rejoin(share);
            Some(count)
        }
        Err(_) => None,
    }
}

#[test]
fn a_share_comes_back(rt: HostRuntime) {
    let mut mint = Mint::new();
    let mut chain = three(&rt, rt.alloc(), &mut mint);
    assert!(rt; one_back(rt.alloc(), &mut chain, &mut mint) == Some(0));
    assert!(rt; whole_nodes(&chain) == 3 && weighs(&chain, (1 << 62) - (1 << 40)));
}
