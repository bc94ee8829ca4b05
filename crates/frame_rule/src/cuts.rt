//! Parts of a chain that leave at its front: as a frame, or to be given back.
ghost use Rattle.std.specs.Prelude.{◌≡◌, ◌+◌, ◌-◌, ◌≤◌, ◌<◌, IsTrue, [], ◌∷◌, ◌++◌, None, IfErr, IfOk, OnOk, OnErr, length, take, drop};
ghost use Rattle.buffer_model.specs.Share.{wrapped};
ghost use Rattle.storage.specs.declared.release.NoOwner.{NoOwner};
ghost use Rattle.buffer_model.specs.Segment.{Segment, bytes_of, whole_window};
ghost use Rattle.buffer_model.specs.Stake.{KeepsTotalsBeside};
ghost use Rattle.iobuf_chain.specs.Accounts.{answered, held_by};
ghost use Rattle.frame_head.specs.Heads.{FrameAt};
ghost use Rattle.frame_rule.specs.Scanning.{inner};
ghost use Rattle.buffer_model.specs.Minted.{NumbersOn};
ghost use Rattle.frame_rule.specs.Hauls.{Begins, CutsNodes, CutsOff, GivesUp, Moves, SameHaul, hauled};
ghost use Rattle.frame_rule.specs.Units.{Gives};

use crate::haul::Haul;
use crate::unit::FrameUnit;
use chain_unshare::split;
use iobuf_chain::{Chain, Frame};
use iobuf_node::IoBuf;
use share_count::Mint;
use std::alloc::{AllocError, Global};
use std::mem;

// One node without data and without a storage.
fn nothing(alloc: Global) -> Frame
    ensures { result ≡ whole_window [] wrapped ∷ [] }
{
    Chain::of(alloc, IoBuf::empty())
}

/// The first `k` bytes leave. Where these are all, so do all nodes, and one without data and storage stays; and one such
/// leaves where there are none. O(nodes in front), and no copy where the nodes with data are heavy.
pub fn cut_front(
    chain: &mut Frame,
    alloc: Global,
    k: usize,
    mint: &mut Mint,
) -> Result<Frame, AllocError>
    requires { k ≤ length (bytes_of chain.old) }
    ensures front { IfOk result (λ front. bytes_of front ≡ take k (bytes_of chain.old)) }
    ensures rest { OnOk result (bytes_of chain.new ≡ drop k (bytes_of chain.old)) }
    ensures mint { NumbersOn mint.old mint.new }
    ensures totals { KeepsTotalsBeside mint.old mint.new
        (held_by chain.old) (held_by (chain.new ++ answered result)) }
    ensures nodes { IfOk result (λ front. CutsOff chain.old front chain.new) }
{
    if k == 0 {
        return Ok(nothing(alloc));
    }
    if k == chain.length() {
        return Ok(mem::replace(chain, nothing(alloc)));
    }
    match split(chain, alloc, k, mint) {
        Ok(front) => Ok(front),
        Err(_) => Err(AllocError),
    }
}

/// The first `k` bytes of a chain leave, and their nodes are given back.
pub(crate) fn drop_front(
    chain: &mut Frame,
    alloc: Global,
    k: usize,
    haul: &mut Haul,
    mint: &mut Mint,
) -> Result<(), AllocError>
    requires { k ≤ length (bytes_of chain.old) }
    ensures rest { OnOk result (bytes_of chain.new ≡ drop k (bytes_of chain.old)) }
    ensures units { haul.new.units ≡ haul.old.units }
    ensures moves { Moves mint.old mint.new chain.old chain.new haul.old haul.new }
    ensures nodes { OnOk result
        (CutsNodes chain.old chain.new haul.old.units.items haul.new.units.items) }
{
    haul.back.reserve(1)?;
    let front = cut_front(chain, alloc, k, mint)?;
    haul.back.push_reserved(front.give_back());
    Ok(())
}

/// The first `k` bytes of a chain leave, and are a frame of the offset `at` without the first `front` and the last
/// `back` of them.
pub(crate) fn give_frame(
    chain: &mut Frame,
    alloc: Global,
    k: usize,
    edges: (usize, usize),
    at: u64,
    haul: &mut Haul,
    mint: &mut Mint,
) -> Result<(), AllocError>
    requires there { k ≤ length (bytes_of chain.old) }
    requires within { edges.0 + edges.1 ≤ k }
    ensures rest { OnOk result (bytes_of chain.new ≡ drop k (bytes_of chain.old)) }
    ensures unit { OnOk result (Gives (FrameAt at (inner edges.0 edges.1 (take k (bytes_of chain.old))))
        haul.old.units.items haul.new.units.items) }
    ensures refused { OnErr result (haul.new.units.items ≡ haul.old.units.items) }
    ensures moves { Moves mint.old mint.new chain.old chain.new haul.old haul.new }
    ensures nodes { OnOk result
        (CutsNodes chain.old chain.new haul.old.units.items haul.new.units.items) }
{
    let _nodes = chain.elements();
    if k == 0 || k >= chain.node(0).length() {
        return give_cut(chain, alloc, k, edges, at, haul, mint);
    }
    haul.units.reserve(1)?;
    match chain.share_front(alloc, k, edges) {
        Ok(Some(frame)) => {
            haul.units
                .push_reserved(FrameUnit::Frame { at, chain: frame });
            Ok(())
        }
        Ok(None) => give_cut(chain, alloc, k, edges, at, haul, mint),
        Err(e) => Err(e),
    }
}

// The same by a cut of the chain, wherever the bytes lie.
#[inline(never)]
fn give_cut(
    chain: &mut Frame,
    alloc: Global,
    k: usize,
    edges: (usize, usize),
    at: u64,
    haul: &mut Haul,
    mint: &mut Mint,
) -> Result<(), AllocError>
    requires there { k ≤ length (bytes_of chain.old) }
    requires within { edges.0 + edges.1 ≤ k }
    ensures rest { OnOk result (bytes_of chain.new ≡ drop k (bytes_of chain.old)) }
    ensures unit { OnOk result (Gives (FrameAt at (inner edges.0 edges.1 (take k (bytes_of chain.old))))
        haul.old.units.items haul.new.units.items) }
    ensures refused { OnErr result (haul.new.units.items ≡ haul.old.units.items) }
    ensures moves { Moves mint.old mint.new chain.old chain.new haul.old haul.new }
    ensures nodes { OnOk result
        (CutsNodes chain.old chain.new haul.old.units.items haul.new.units.items) }
{
    haul.units.reserve(1)?;
    let frame = cut_frame(chain, alloc, k, edges, haul, mint)?;
    haul.units
        .push_reserved(FrameUnit::Frame { at, chain: frame });
    Ok(())
}

// The first `k` bytes leave without the first `front` and the last `back` of them, whose nodes are given back. At want
// of memory the first of the bytes may have left, and their nodes are given back.
fn cut_frame(
    chain: &mut Frame,
    alloc: Global,
    k: usize,
    edges: (usize, usize),
    haul: &mut Haul,
    mint: &mut Mint,
) -> Result<Frame, AllocError>
    requires there { k ≤ length (bytes_of chain.old) }
    requires within { edges.0 + edges.1 ≤ k }
    ensures frame { IfOk result (λ frame. bytes_of frame ≡ inner edges.0 edges.1 (take k (bytes_of chain.old))) }
    ensures rest { OnOk result (bytes_of chain.new ≡ drop k (bytes_of chain.old)) }
    ensures units { haul.new.units ≡ haul.old.units }
    ensures back { Begins haul.old.back.items haul.new.back.items }
    ensures mint { NumbersOn mint.old mint.new }
    ensures totals { KeepsTotalsBeside mint.old mint.new (held_by chain.old ++ hauled haul.old)
        (held_by (chain.new ++ answered result) ++ hauled haul.new) }
    ensures nodes { IfOk result (λ frame. CutsOff chain.old frame chain.new) }
{
    let (front, back) = edges;
    if front == 0 {
        return cut_content(chain, alloc, k, back, haul, mint);
    }
    drop_front(chain, alloc, front, haul, mint)?;
    cut_content(chain, alloc, k - front, back, haul, mint)
}

// The same where no first bytes are taken off.
fn cut_content(
    chain: &mut Frame,
    alloc: Global,
    k: usize,
    back: usize,
    haul: &mut Haul,
    mint: &mut Mint,
) -> Result<Frame, AllocError>
    requires there { k ≤ length (bytes_of chain.old) }
    requires within { back ≤ k }
    ensures content { IfOk result (λ frame. bytes_of frame ≡ take (k - back) (bytes_of chain.old)) }
    ensures rest { OnOk result (bytes_of chain.new ≡ drop k (bytes_of chain.old)) }
    ensures units { haul.new.units ≡ haul.old.units }
    ensures back { Begins haul.old.back.items haul.new.back.items }
    ensures mint { NumbersOn mint.old mint.new }
    ensures totals { KeepsTotalsBeside mint.old mint.new (held_by chain.old ++ hauled haul.old)
        (held_by (chain.new ++ answered result) ++ hauled haul.new) }
    ensures nodes { IfOk result (λ frame. CutsOff chain.old frame chain.new) }
{
    if back == 0 {
        return cut_front(chain, alloc, k, mint);
    }
    haul.back.reserve(1)?;
    let content = cut_front(chain, alloc, k - back, mint)?;
    match cut_front(chain, alloc, back, mint) {
        Ok(ending) => {
            haul.back.push_reserved(ending.give_back());
            Ok(content)
        }
        Err(e) => {
            haul.back.push_reserved(content.give_back());
            Err(e)
        }
    }
}

/// Gives back a chain whose bytes are used up. At want of memory it is handed back. A chain that has no storage hands
/// nothing back, and needs no memory.
pub(crate) fn give_back(chain: Frame, haul: &mut Haul) -> Result<(), Frame>
    ensures moved { OnOk result (GivesUp chain.entry haul.old haul.new) }
    ensures units { haul.new.units ≡ haul.old.units }
    ensures refused { IfErr result (λ c. (c ≡ chain.entry) × SameHaul haul.old haul.new) }
{
    if is_nothing(&chain) {
        return Ok(());
    }
    if haul.back.reserve(1).is_err() {
        return Err(chain);
    }
    haul.back.push_reserved(chain.give_back());
    Ok(())
}

// Whether a chain is one node without a storage.
fn is_nothing(chain: &Frame) -> bool
    ensures { IsTrue result → (s : Segment NoOwner) × (chain.now ≡ s ∷ []) × (s.share.number ≡ None) }
{
    chain.elements() == 1 && chain.node(0).number().is_none()
}
