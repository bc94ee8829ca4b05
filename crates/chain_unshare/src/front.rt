//! The first bytes of a chain leave.
ghost use Rattle.std.specs.Prelude.{◌≡◌, ◌+◌, ◌-◌, ◌≤◌, ◌<◌, List, [], ◌∷◌, ◌++◌, IfOk, OnErr, OnOk, length, take, drop};
ghost use Rattle.std.specs.List.{AllZip};
ghost use Rattle.buffer_model.specs.Segment.{Segment, bytes_of};
ghost use Rattle.buffer_model.specs.Minted.{AddsAtMost};
ghost use Rattle.buffer_model.specs.Stake.{KeepsTotalsBeside};
ghost use Rattle.iobuf_chain.specs.Accounts.{held_by, answered};
ghost use Rattle.iobuf_chain.specs.Copies.{CopiesNoData, IsHeavy, IsShareable, IsStout, WithData};
ghost use Rattle.iobuf_chain.specs.Cuts.{IsShortBeyond};
ghost use Rattle.iobuf_chain.specs.Shares.{Regains, IsEmptyChain};
ghost use Rattle.chain_unshare.specs.Splits.{StopsAt, IsRun, SplitsBetween, SplitsNode, SplitsAt};

use iobuf_chain::{ChainOf, CutFault, rejoin};
use iobuf_node::{IoBufOf, Wrapped};
use share_count::Mint;
use std::alloc::{AllocError, Global};
use std::mem;
use storage::Release;

/// The first `n` bytes leave, as a chain of their own, and the rest stays. Nodes move as they are; where the last of
/// the bytes lie in a node that has more, that node is cloned: the clone comes last in front, and the node itself,
/// with its weight, stays behind. A side without a node gets one without data and room, on a new storage. `Short`
/// exactly where there are fewer bytes, and then nothing changes. O(nodes in front), and a copy of one block where
/// the node that is cut has the weight 1.
pub fn split<W: Wrapped, O: Release>(
    c: &mut ChainOf<W, O>,
    alloc: Global,
    n: usize,
    mint: &mut Mint,
) -> Result<ChainOf<W, O>, CutFault>
    ensures short { IsShortBeyond n (length (bytes_of c.old)) result }
    ensures splits { IfOk result (λ front. SplitsAt n mint.old mint.new c.old front c.new) }
    ensures bytes { IfOk result (λ front. (bytes_of front ≡ take n (bytes_of c.old))
        × (bytes_of c.new ≡ drop n (bytes_of c.old))) }
    ensures refused { OnErr result (AllZip Regains c.old c.new) }
    ensures unchanged { length (bytes_of c.old) < n → (c.new ≡ c.old) × (mint.new ≡ mint.old) }
    ensures mint { AddsAtMost 1 mint.old mint.new }
    ensures totals { KeepsTotalsBeside mint.old mint.new (held_by c.old) (held_by (c.new ++ answered result)) }
    ensures heavy { WithData IsHeavy c.old → IfOk result (λ front. WithData IsStout front × WithData IsHeavy c.new) }
    ensures copies { WithData IsShareable c.old
        → IfOk result (λ front. CopiesNoData c.old front × CopiesNoData c.old c.new) }
{
    let had = c.length();
    if had < n {
        return Err(CutFault::Short { asked: n, had });
    }
    let (i, left) = run_of(c, n);
    if left > 0 {
        return match split_node(c, alloc, i, left, mint) {
            Ok(front) => Ok(front),
            Err(_) => Err(CutFault::NoMemory),
        };
    }
    match split_between(c, alloc, i, mint) {
        Ok(front) => Ok(front),
        Err(_) => Err(CutFault::NoMemory),
    }
}

// How many first nodes have at most n bytes in all, and how many bytes are left for the next.
fn run_of<W: Wrapped, O: Release>(c: &ChainOf<W, O>, n: usize) -> (usize, usize)
    ensures run { IsRun n c.now (take result.0 c.now) (drop result.0 c.now) }
    ensures left { result.1 ≡ n - length (bytes_of (take result.0 c.now)) }
    ensures within { result.0 ≤ length c.now }
    ensures some { 0 < length c.now }
{
    let mut left = n;
    'nodes: for i in 0..c.elements() {
        let len = c.node(i).length();
        if len > left {
            return (i, left);
        }
        left -= len;
    }
    (c.elements(), left)
}

// The first i nodes leave. A side without a node gets an empty one.
fn split_between<W: Wrapped, O: Release>(
    c: &mut ChainOf<W, O>,
    alloc: Global,
    i: usize,
    mint: &mut Mint,
) -> Result<ChainOf<W, O>, AllocError>
    requires some { 0 < length c.old }
    requires there { i ≤ length c.old }
    ensures parts { IfOk result (λ front. SplitsBetween mint.old mint.new (take i c.old) (drop i c.old) front c.new) }
    ensures refused { OnErr result (c.new ≡ c.old) }
    ensures mint { AddsAtMost 1 mint.old mint.new }
    ensures totals { KeepsTotalsBeside mint.old mint.new (held_by c.old) (held_by (c.new ++ answered result)) }
{
    if i == 0 {
        return empty(alloc, mint);
    }
    if i == c.elements() {
        let rest = empty(alloc, mint)?;
        return Ok(mem::replace(c, rest));
    }
    let front = c.separate(0, i)?;
    Ok(front)
}

// A chain of one node without data and room.
fn empty<W: Wrapped, O: Release>(
    alloc: Global,
    mint: &mut Mint,
) -> Result<ChainOf<W, O>, AllocError>
    ensures chain { IfOk result (λ c. IsEmptyChain mint.old mint.new c) }
    ensures refused { OnErr result (mint.new ≡ mint.old) }
{
    let node = IoBufOf::create(alloc, 0, mint)?;
    Ok(ChainOf::of(alloc, node))
}

// The first i nodes leave, with a clone of the next behind them that has its first k bytes.
fn split_node<W: Wrapped, O: Release>(
    c: &mut ChainOf<W, O>,
    alloc: Global,
    i: usize,
    k: usize,
    mint: &mut Mint,
) -> Result<ChainOf<W, O>, AllocError>
    requires there { i < length c.old }
    requires within { StopsAt k (drop i c.old) }
    ensures parts { IfOk result (λ front. SplitsNode k mint.old mint.new (take i c.old) (drop i c.old) front c.new) }
    ensures refused { OnErr result (AllZip Regains c.old c.new) }
    ensures mint { AddsAtMost 1 mint.old mint.new }
    ensures totals { KeepsTotalsBeside mint.old mint.new (held_by c.old) (held_by (c.new ++ answered result)) }
{
    if i == 0 {
        return match c.cut_first(alloc, k, mint) {
            Ok(front) => Ok(front),
            Err(refused) => Err(refused),
        };
    }
    split_later(c, alloc, i, k, mint)
}

// The same where nodes stand before it.
fn split_later<W: Wrapped, O: Release>(
    c: &mut ChainOf<W, O>,
    alloc: Global,
    i: usize,
    k: usize,
    mint: &mut Mint,
) -> Result<ChainOf<W, O>, AllocError>
    requires there { i < length c.old }
    requires within { StopsAt k (drop i c.old) }
    ensures parts { IfOk result (λ front. SplitsNode k mint.old mint.new (take i c.old) (drop i c.old) front c.new) }
    ensures refused { OnErr result (AllZip Regains c.old c.new) }
    ensures mint { AddsAtMost 1 mint.old mint.new }
    ensures totals { KeepsTotalsBeside mint.old mint.new (held_by c.old) (held_by (c.new ++ answered result)) }
{
    let _had = c.length();
    let mut node = c.swap_node(i, IoBufOf::empty());
    let Ok(mut clone) = node.clone_one(alloc, mint) else {
        let _ = c.swap_node(i, node);
        return Err(AllocError);
    };
    clone.trim_end(node.length() - k);
    match c.cut_before(i, clone) {
        Ok(front) => {
            node.trim_start(k);
            let _ = c.swap_node(0, node);
            Ok(front)
        }
        Err(clone) => {
            rejoin(&mut node, clone);
            let _ = c.swap_node(i, node);
            Err(AllocError)
        }
    }
}
