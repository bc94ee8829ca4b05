//! Bytes that leave a frame at its ends, with the nodes that lose all data by it.
ghost use Rattle.std.specs.Prelude.{◌≡◌, ◌+◌, ◌≤◌, ◌<◌, ◌↔◌, ◌++◌, length, take, drop, slice_get, IfSome, IsOk, IsTrue, OnErr, OnOk};
ghost use Rattle.std.specs.VecDeque.{deque_capacity};
ghost use Rattle.storage.specs.Back.{stakes_in};
ghost use Rattle.buffer_model.specs.Segment.{bytes_of};
ghost use Rattle.buffer_model.specs.Stake.{KeepsTotals};
ghost use Rattle.iobuf_chain.specs.Accounts.{held_by};
ghost use Rattle.pipeline.specs.Nodes.{LeavesFirst, Sheds, SiftsFirst, TurnsFirst};

use iobuf_chain::Frame;
use iobuf_node::IoBuf;
use std::alloc::AllocError;
use std::collections::VecDeque;
use storage::Back;

// The `n` bytes from place `at` on stay, and the others leave. A node that had data and loses all of it leaves, unless
// it is alone, and what it hands back comes behind what was handed back before. A frame of one node, and one that loses
// nothing, takes no memory; at want of memory nothing changes. O(nodes).
pub(crate) fn narrow(
    frame: &mut Frame,
    at: usize,
    n: usize,
    backs: &mut VecDeque<Back>,
) -> Result<(), AllocError>
    requires { at + n ≤ length (bytes_of frame.old) }
    ensures bytes { OnOk result (bytes_of frame.new ≡ take n (drop at (bytes_of frame.old))) }
    ensures sheds { Sheds frame.old frame.new }
    ensures handed { length frame.old + length backs.old.items ≡ length frame.new + length backs.new.items }
    ensures totals { KeepsTotals (held_by frame.old ++ stakes_in backs.old.items)
        (held_by frame.new ++ stakes_in backs.new.items) }
    ensures one { length frame.old ≡ 1 → IsOk result }
    ensures refused { OnErr result ((frame.new ≡ frame.old) × (backs.new.items ≡ backs.old.items)) }
{
    let rest = frame.length() - at - n;
    if at == 0 && rest == 0 {
        return Ok(());
    }
    if frame.elements() == 1 {
        turn(frame, at, rest);
        return Ok(());
    }
    backs.reserve(frame.elements())?;
    sift(frame, at, n, backs);
    Ok(())
}

// The same where there is room for what all nodes hand back. Each node comes to the front in turn, and leaves or goes
// to the end.
fn sift(frame: &mut Frame, at: usize, n: usize, backs: &mut VecDeque<Back>)
    requires within { at + n ≤ length (bytes_of frame.old) }
    requires room { length backs.old.items + length frame.old ≤ deque_capacity backs.old }
    ensures bytes { bytes_of frame.new ≡ take n (drop at (bytes_of frame.old)) }
    ensures sheds { Sheds frame.old frame.new }
    ensures handed { length frame.old + length backs.old.items ≡ length frame.new + length backs.new.items }
    ensures totals { KeepsTotals (held_by frame.old ++ stakes_in backs.old.items)
        (held_by frame.new ++ stakes_in backs.new.items) }
{
    let mut at = at;
    let mut left = n;
    'nodes: for _ in 0..frame.elements() {
        let had = frame.node(0).length();
        let front = at.min(had);
        let stays = left.min(had - front);
        sift_first(frame, front, stays, backs);
        at -= front;
        left -= stays;
    }
}

// Of the first node's bytes, so many stay behind so many first ones.
fn sift_first(frame: &mut Frame, front: usize, stays: usize, backs: &mut VecDeque<Back>)
    requires some { 0 < length frame.old }
    requires within { IfSome (slice_get frame.old 0) (λ s. front + stays ≤ length s.window) }
    requires room { length backs.old.items < deque_capacity backs.old }
    ensures sifts { SiftsFirst front stays frame.old frame.new backs.old.items backs.new.items }
    ensures capacity { deque_capacity backs.new ≡ deque_capacity backs.old }
{
    let had = frame.node(0).length();
    if is_emptied(had, stays, frame.elements()) {
        backs.push_back_reserved(leave(frame));
        return;
    }
    turn(frame, front, had - front - stays);
}

// Whether a node of so many bytes, of which so many stay, is to leave a frame of so many nodes.
fn is_emptied(had: usize, stays: usize, count: usize) -> bool
    ensures { IsTrue result ↔ ((stays ≡ 0) × (0 < had) × (1 < count)) }
{
    stays == 0 && had > 0 && count > 1
}

// The first node leaves and is given back. Another stays.
fn leave(frame: &mut Frame) -> Back
    requires { 1 < length frame.old }
    ensures { LeavesFirst frame.old frame.new result }
{
    let Some(back) = frame.pop().give_back().pop() else {
        unreachable!()
    };
    back
}

// The first node loses so many first and so many last bytes, and becomes the last.
fn turn(frame: &mut Frame, front: usize, back: usize)
    requires { IfSome (slice_get frame.old 0) (λ s. front + back ≤ length s.window) }
    ensures { TurnsFirst front back frame.old frame.new }
{
    let _had = frame.length();
    let count = frame.elements();
    let mut node = frame.swap_node(0, IoBuf::wrap(&[]));
    node.trim_start(front);
    node.trim_end(back);
    let _ = frame.swap_node(0, node);
    if count > 1 {
        frame.rotate(1);
    }
}
