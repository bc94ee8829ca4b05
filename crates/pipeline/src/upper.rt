//! Letters that become capital ones, in storages that nobody else holds.
ghost use Rattle.std.specs.Prelude.{◌≡◌, ◌+◌, ◌≤◌, ◌<◌, map, length, slice_get, IfSome, MatchResult, OnOk};
ghost use Rattle.std.specs.VecDeque.{deque_capacity};
ghost use Rattle.buffer_model.specs.Share.{IsAlone};
ghost use Rattle.buffer_model.specs.Segment.{bytes_of};
ghost use Rattle.iobuf_chain.specs.Lists.{Each, TurnsAt};
ghost use Rattle.pipeline.specs.Plain.{raised};
ghost use Rattle.pipeline.specs.Nodes.{Claims, Clears, ClearsAt, given, Raises, raised_node, Works};

use iobuf_chain::Frame;
use iobuf_node::IoBuf;
use iobuf_node::laws::writes_window;
use share_count::Mint;
use std::alloc::{AllocError, Global};
use std::collections::VecDeque;
use storage::{Back, NoOwner};

// Each letter from a to z becomes the capital one. First each node whose storage others may hold moves to a copy of its
// block and gives its storage back. The room for what comes back is taken before. At want of memory some nodes may have
// moved, and all bytes are as they were. O(bytes).
pub(crate) fn raise(
    frame: &mut Frame,
    alloc: Global,
    backs: &mut VecDeque<Back>,
    mint: &mut Mint,
) -> Result<(), AllocError>
    ensures bytes { MatchResult result (λ _. bytes_of frame.new ≡ map raised (bytes_of frame.old))
        (λ _. bytes_of frame.new ≡ bytes_of frame.old) }
    ensures works { Works mint.old mint.new frame.old frame.new backs.old.items backs.new.items }
{
    backs.reserve(frame.elements())?;
    clear_each(frame, alloc, backs, mint)?;
    raise_each(frame);
    Ok(())
}

// Each node comes to a storage that nobody else holds.
fn clear_each(
    frame: &mut Frame,
    alloc: Global,
    backs: &mut VecDeque<Back>,
    mint: &mut Mint,
) -> Result<(), AllocError>
    requires { length backs.old.items + length frame.old ≤ deque_capacity backs.old }
    ensures alone { OnOk result (Each (λ s. IsAlone s.share) frame.new) }
    ensures bytes { bytes_of frame.new ≡ bytes_of frame.old }
    ensures works { Works mint.old mint.new frame.old frame.new backs.old.items backs.new.items }
{
    'nodes: for i in 0..frame.elements() {
        match clear_at(frame, i, alloc, backs, mint) {
            Ok(()) => (),
            Err(e) => return Err(e),
        }
    }
    Ok(())
}

// Node i does.
fn clear_at(
    frame: &mut Frame,
    i: usize,
    alloc: Global,
    backs: &mut VecDeque<Back>,
    mint: &mut Mint,
) -> Result<(), AllocError>
    requires there { i < length frame.old }
    requires room { length backs.old.items < deque_capacity backs.old }
    ensures clears { ClearsAt i mint.old mint.new frame.old frame.new backs.old.items backs.new.items }
    ensures alone { OnOk result (IfSome (slice_get frame.new i) (λ s. IsAlone s.share)) }
    ensures room { length backs.new.items ≤ length backs.old.items + 1 }
    ensures capacity { deque_capacity backs.new ≡ deque_capacity backs.old }
{
    let _had = frame.length();
    let mut node = frame.swap_node(i, IoBuf::wrap(&[]));
    let cleared = clear(&mut node, alloc, mint);
    let _ = frame.swap_node(i, node);
    match cleared {
        Ok(None) => Ok(()),
        Ok(Some(back)) => {
            backs.push_back_reserved(back);
            Ok(())
        }
        Err(e) => Err(e),
    }
}

// A node comes to a storage that nobody else holds: it stays where a look finds that nobody does, and else moves to a
// copy of its block.
fn clear(
    node: &mut IoBuf<'static>,
    alloc: Global,
    mint: &mut Mint,
) -> Result<Option<Back>, AllocError>
    ensures clears { Clears mint.old mint.new node.old node.new (given result) }
    ensures alone { OnOk result (IsAlone node.new.share) }
{
    if claim(node) {
        return Ok(None);
    }
    node.unshare_known(alloc, mint)
}

// Whether nobody else holds a node's storage. Then it is the node's alone from here on.
fn claim(node: &mut IoBuf<'static>) -> bool
    ensures { Claims node.old node.new result }
{
    match node.mine() {
        Ok(_) => true,
        Err(_) => false,
    }
}

// The letters of all nodes become capital ones.
fn raise_each(frame: &mut Frame)
    requires { Each (λ s. IsAlone s.share) frame.old }
    ensures { Raises frame.old frame.new }
{
    'nodes: for i in 0..frame.elements() {
        raise_at(frame, i);
    }
}

// Those of node i do.
fn raise_at(frame: &mut Frame, i: usize)
    requires there { i < length frame.old }
    requires alone { IfSome (slice_get frame.old i) (λ s. IsAlone s.share) }
    ensures { TurnsAt raised_node i frame.old frame.new }
{
    let _had = frame.length();
    let mut node = frame.swap_node(i, IoBuf::wrap(&[]));
    raise_node(&mut node);
    let _ = frame.swap_node(i, node);
}

// Those of a node do.
fn raise_node(node: &mut IoBuf<'static>)
    requires { IsAlone node.old.share }
    ensures { node.new ≡ raised_node node.old }
{
    // For the proof alone: where as many bytes are written, the rooms stay.
    writes_window::<NoOwner>();
    match node.mine() {
        Ok(mine) => mine.bytes_mut().make_ascii_uppercase(),
        Err(_) => unreachable!(),
    }
}
