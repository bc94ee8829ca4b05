//! Bytes that come last in a chain.
ghost use Rattle.std.specs.Prelude.{◌≡◌, ◌+◌, ◌-◌, ◌≤◌, ◌<◌, ◌^◌, List, [], ◌∷◌, ◌++◌, IfSome, IfOk, OnOk, OnErr, length, take, drop, slice_get};
ghost use Rattle.buffer_model.specs.Segment.{Segment, bytes_of};
ghost use Rattle.buffer_model.specs.Minted.{NumbersOn};
ghost use Rattle.buffer_model.specs.Stake.{KeepsTotalsBeside};
ghost use Rattle.iobuf_chain.specs.Accounts.{held_by};
ghost use Rattle.iobuf_chain.specs.Lists.{TurnsAt};
ghost use Rattle.write_cursor.specs.Appended.{room_in, room_behind, grown_by, IsFilled, AddsNodes, Extends, Ensures, Pushes, PutsBehind};

use iobuf_chain::ChainOf;
use iobuf_node::laws::writes_tail;
use iobuf_node::{IoBufOf, Wrapped};
use share_count::Mint;
use std::alloc::{AllocError, Global};
use storage::Told;

/// The bytes come last in a chain: as many as fit into the room behind the last node's data, where that node is whole,
/// and the others in new nodes of `grow` bytes each, all full but the last. At want of memory the chain stays as it is.
/// One copy of the bytes, and four allocations for each new node. Folly's `Appender::push`, `BufMut::put_slice`.
pub fn push_bytes<W: Wrapped, O: Told>(
    c: &mut ChainOf<W, O>,
    alloc: Global,
    bytes: &[u8],
    grow: usize,
    mint: &mut Mint,
) -> Result<(), AllocError>
    requires grow { 1 ≤ grow }
    requires sum { length (bytes_of c.old) + length bytes.now ≤ 2 ^ 62 }
    ensures pushed { OnOk result (Pushes grow mint.old mint.new bytes.now c.old c.new) }
    ensures refused { OnErr result (c.new ≡ c.old) }
    ensures mint { NumbersOn mint.old mint.new }
    ensures totals { KeepsTotalsBeside mint.old mint.new (held_by c.old) (held_by c.new) }
{
    let last = c.elements() - 1;
    let _len = c.node(last).length();
    let n = room(c).min(bytes.len());
    extend(c, alloc, &bytes[n..], grow, mint)?;
    fill(c, last, &bytes[..n]);
    Ok(())
}

/// Makes sure that the last node is whole and has room for `n` bytes behind its data: where it hasn't, a node without
/// data and with room for `n` bytes, and for `grow` bytes, comes last. At want of memory the chain stays as it is. Four
/// allocations, or none. Folly's `Appender::ensure`, `BytesMut::reserve`.
pub fn ensure_room<W: Wrapped, O: Told>(
    c: &mut ChainOf<W, O>,
    alloc: Global,
    n: usize,
    grow: usize,
    mint: &mut Mint,
) -> Result<(), AllocError>
    requires { length (bytes_of c.old) ≤ 2 ^ 62 }
    ensures ensured { OnOk result (Ensures n grow mint.old mint.new c.old c.new) }
    ensures refused { OnErr result (c.new ≡ c.old) }
    ensures mint { NumbersOn mint.old mint.new }
    ensures totals { KeepsTotalsBeside mint.old mint.new (held_by c.old) (held_by c.new) }
{
    if n <= room(c) {
        return Ok(());
    }
    let node = IoBufOf::create(alloc, n.max(grow), mint)?;
    add_node(c, alloc, node)?;
    Ok(())
}

/// Makes sure of room for the bytes, as `ensure_room`, and writes them there: they stand in one node. At want of memory
/// the chain stays as it is.
pub fn put_bytes<W: Wrapped, O: Told>(
    c: &mut ChainOf<W, O>,
    alloc: Global,
    bytes: &[u8],
    grow: usize,
    mint: &mut Mint,
) -> Result<(), AllocError>
    requires { length (bytes_of c.old) + length bytes.now ≤ 2 ^ 62 }
    ensures put { OnOk result (PutsBehind grow mint.old mint.new bytes.now c.old c.new) }
    ensures refused { OnErr result (c.new ≡ c.old) }
    ensures mint { NumbersOn mint.old mint.new }
    ensures totals { KeepsTotalsBeside mint.old mint.new (held_by c.old) (held_by c.new) }
{
    ensure_room(c, alloc, bytes.len(), grow, mint)?;
    let last = c.elements() - 1;
    let _len = c.node(last).length();
    fill(c, last, bytes);
    Ok(())
}

// How many bytes the last node takes behind its data.
fn room<W: Wrapped, O: Told>(c: &ChainOf<W, O>) -> usize
    ensures { result ≡ room_behind c.now }
{
    let last = c.node(c.elements() - 1);
    if last.whole() {
        return last.tailroom();
    }
    0
}

// Bytes come last in new nodes, where there are some.
fn extend<W: Wrapped, O: Told>(
    c: &mut ChainOf<W, O>,
    alloc: Global,
    bytes: &[u8],
    grow: usize,
    mint: &mut Mint,
) -> Result<(), AllocError>
    requires grow { 1 ≤ grow }
    requires sum { length (bytes_of c.old) + length bytes.now ≤ 2 ^ 62 }
    ensures extended { OnOk result (Extends grow mint.old mint.new bytes.now c.old c.new) }
    ensures refused { OnErr result (c.new ≡ c.old) }
    ensures mint { NumbersOn mint.old mint.new }
{
    if bytes.len() == 0 {
        return Ok(());
    }
    let more = filled_nodes(alloc, bytes, grow, mint)?;
    match c.append_chain(more) {
        Ok(()) => Ok(()),
        Err(more) => {
            more.discard();
            Err(AllocError)
        }
    }
}

// New nodes with these bytes, each full but the last.
fn filled_nodes<W: Wrapped, O: Told>(
    alloc: Global,
    bytes: &[u8],
    grow: usize,
    mint: &mut Mint,
) -> Result<ChainOf<W, O>, AllocError>
    requires grow { 1 ≤ grow }
    requires some { 0 < length bytes.now }
    requires sum { length bytes.now ≤ 2 ^ 62 }
    ensures nodes { IfOk result (AddsNodes grow mint.old mint.new bytes.now) }
    ensures mint { NumbersOn mint.old mint.new }
{
    let first = grow.min(bytes.len());
    let mut chain = ChainOf::of(alloc, filled_node(alloc, &bytes[..first], grow, mint)?);
    let mut rest = &bytes[first..];
    'pieces: while rest.len() > 0 {
        let n = grow.min(rest.len());
        add_node(
            &mut chain,
            alloc,
            filled_node(alloc, &rest[..n], grow, mint)?,
        )?;
        rest = &rest[n..];
    }
    Ok(chain)
}

// A new node of `grow` bytes, of which the first are these.
fn filled_node<W: Wrapped, O: Told>(
    alloc: Global,
    bytes: &[u8],
    grow: usize,
    mint: &mut Mint,
) -> Result<IoBufOf<W, O>, AllocError>
    requires { length bytes.now ≤ grow }
    ensures node { IfOk result (IsFilled grow mint.old mint.new bytes.now) }
    ensures refused { OnErr result (mint.new ≡ mint.old) }
{
    IoBufOf::copy(alloc, bytes, 0, grow - bytes.len(), mint)
}

// A node comes last.
fn add_node<W: Wrapped, O: Told>(
    c: &mut ChainOf<W, O>,
    alloc: Global,
    node: IoBufOf<W, O>,
) -> Result<(), AllocError>
    requires { length (bytes_of c.old) + length node.window ≤ 2 ^ 62 }
    ensures added { OnOk result (c.new ≡ c.old ++ node ∷ []) }
    ensures refused { OnErr result (c.new ≡ c.old) }
{
    match c.append_chain(ChainOf::of(alloc, node)) {
        Ok(()) => Ok(()),
        Err(more) => {
            more.discard();
            Err(AllocError)
        }
    }
}

// Node i takes bytes behind its data, where there are some.
fn fill<W: Wrapped, O: Told>(c: &mut ChainOf<W, O>, i: usize, bytes: &[u8])
    requires there { i < length c.old }
    requires sum { length (bytes_of c.old) + length bytes.now ≤ 2 ^ 62 }
    requires room { IfSome (slice_get c.old i) (λ s. length bytes.now ≤ room_in s) }
    ensures { TurnsAt (grown_by bytes.now) i c.old c.new }
{
    let _had = c.length();
    let _len = c.node(i).length();
    if bytes.is_empty() {
        return;
    }
    let mut node = c.swap_node(i, IoBufOf::empty());
    grow_node(&mut node, bytes);
    let _ = c.swap_node(i, node);
}

// A node takes bytes behind its data.
fn grow_node<W: Wrapped, O: Told>(node: &mut IoBufOf<W, O>, bytes: &[u8])
    requires some { 0 < length bytes.now }
    requires room { length bytes.now ≤ room_in node.old }
    ensures { node.new ≡ grown_by bytes.now node.old }
{
    // For the proof alone: where bytes are written that fit, all else stays.
    writes_tail::<O>();
    let _whole = node.whole();
    match node.mine() {
        Ok(mine) => mine.tail_mut(bytes.len()).copy_from_slice(bytes),
        Err(_) => unreachable!(),
    }
    node.append(bytes.len());
}
