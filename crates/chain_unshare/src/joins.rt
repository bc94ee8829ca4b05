//! Nodes that become one.
ghost use Rattle.std.specs.Prelude.{◌≡◌, ◌+◌, ◌≤◌, ◌<◌, List, [], ◌∷◌, ◌++◌, Ok, IfOk, OnErr, OnOk, MatchResult, length, take, drop};
ghost use Rattle.buffer_model.specs.Share.{IsAlone, claimed};
ghost use Rattle.buffer_model.specs.Segment.{Segment, bytes_of, block_of, rewritten, shared_as};
ghost use Rattle.buffer_model.specs.Minted.{Adds, AddsAtMost};
ghost use Rattle.buffer_model.specs.Stake.{held, KeepsTotals, KeepsTotalsBeside};
ghost use Rattle.storage.specs.Back.{stakes_in};
ghost use Rattle.iobuf_chain.specs.Accounts.{held_by};
ghost use Rattle.iobuf_chain.specs.Cuts.{IsShortBeyond};
ghost use Rattle.chain_unshare.specs.Backs.{HandBack, returned};
ghost use Rattle.chain_unshare.specs.Joins.{Joins, Folds, Gathers, IsFewest, span_of};

use iobuf_chain::{ChainOf, CutFault};
use iobuf_node::laws::writes_window;
use iobuf_node::{IoBufOf, Wrapped};
use share_count::Mint;
use std::alloc::{AllocError, Global};
use std::mem;
use storage::{Release, Returns};

/// All nodes become one, on a new storage: with all data, and around it the bytes of the room before the first node
/// and of the room after the last. The answer has what the old nodes handed back, in order. A chain of one node stays
/// as it is. At want of memory nothing changes. One copy of each byte that stays, and one new storage; O(nodes)
/// beside.
pub fn coalesce<W: Wrapped, O: Release>(
    c: &mut ChainOf<W, O>,
    alloc: Global,
    mint: &mut Mint,
) -> Result<Returns<O>, AllocError>
    ensures one { length c.old ≡ 1 → (result ≡ Ok []) × (c.new ≡ c.old) × (mint.new ≡ mint.old) }
    ensures node { 1 < length c.old → OnOk result (Folds mint.old mint.new c.old [] c.new) }
    ensures backs { 1 < length c.old → IfOk result (HandBack O.runs O.last c.old) }
    ensures refused { OnErr result ((c.new ≡ c.old) × (mint.new ≡ mint.old)) }
    ensures bytes { bytes_of c.new ≡ bytes_of c.old }
    ensures mint { AddsAtMost 1 mint.old mint.new }
    ensures totals { KeepsTotalsBeside mint.old mint.new (held_by c.old) (held_by c.new ++ returned result) }
{
    let count = c.elements();
    if count == 1 {
        return Ok(Returns::new(alloc));
    }
    let node = join_first(c, count, alloc, mint)?;
    let whole = ChainOf::of(alloc, node);
    Ok(mem::replace(c, whole).give_back())
}

/// The first node gets at least `n` bytes of data: the fewest first nodes that have them become one, as by
/// `coalesce`, and the others stay. Nothing changes where the first node has them. `Short` exactly where the chain
/// has fewer bytes; then, and at want of memory, nothing changes. O(nodes that become one), with one copy of each of
/// their bytes that stays.
pub fn gather<W: Wrapped, O: Release>(
    c: &mut ChainOf<W, O>,
    alloc: Global,
    n: usize,
    mint: &mut Mint,
) -> Result<Returns<O>, CutFault>
    ensures short { IsShortBeyond n (length (bytes_of c.old)) result }
    ensures there { n ≤ length (bytes_of (take 1 c.old)) → (result ≡ Ok []) × (c.new ≡ c.old) × (mint.new ≡ mint.old) }
    ensures gathers { length (bytes_of (take 1 c.old)) < n
        → IfOk result (Gathers O.runs O.last n mint.old mint.new c.old c.new) }
    ensures refused { OnErr result (c.new ≡ c.old) }
    ensures bytes { bytes_of c.new ≡ bytes_of c.old }
    ensures first { OnOk result (n ≤ length (bytes_of (take 1 c.new))) }
    ensures unchanged { length (bytes_of c.old) < n → mint.new ≡ mint.old }
    ensures mint { AddsAtMost 1 mint.old mint.new }
    ensures totals { KeepsTotalsBeside mint.old mint.new (held_by c.old) (held_by c.new ++ returned result) }
{
    let had = c.length();
    if had < n {
        return Err(CutFault::Short { asked: n, had });
    }
    let _nodes = c.elements();
    if n <= c.node(0).length() {
        return Ok(Returns::new(alloc));
    }
    let k = fewest_with(c, n);
    match fold_front(c, k, alloc, mint) {
        Ok(backs) => Ok(backs),
        Err(_) => Err(CutFault::NoMemory),
    }
}

/// A node on a new storage with copies of what `coalesce` would leave, for a chain of one node too. The chain stays
/// as it is. One copy of each byte, and four allocations.
pub fn clone_coalesced<W: Wrapped, O: Release>(
    c: &ChainOf<W, O>,
    alloc: Global,
    mint: &mut Mint,
) -> Result<IoBufOf<W, O>, AllocError>
    ensures node { IfOk result (Joins mint.old mint.new c.now) }
    ensures refused { OnErr result (mint.new ≡ mint.old) }
    ensures totals { IfOk result (λ n. KeepsTotalsBeside mint.old mint.new [] (held n.share ∷ [])) }
{
    join_first(c, c.elements(), alloc, mint)
}

// How many first nodes have n bytes: the fewest.
fn fewest_with<W: Wrapped, O: Release>(c: &ChainOf<W, O>, n: usize) -> usize
    requires some { 0 < n }
    requires there { n ≤ length (bytes_of c.now) }
    ensures fewest { IsFewest n c.now (take result c.now) (drop result c.now) }
    ensures some { 0 < result }
    ensures within { result ≤ length c.now }
{
    let _all = c.length();
    let mut had = 0;
    'nodes: for i in 0..c.elements() {
        had += c.node(i).length();
        if n <= had {
            return i + 1;
        }
    }
    unreachable!()
}

// The first k nodes become one, and are given back.
fn fold_front<W: Wrapped, O: Release>(
    c: &mut ChainOf<W, O>,
    k: usize,
    alloc: Global,
    mint: &mut Mint,
) -> Result<Returns<O>, AllocError>
    requires some { 0 < k }
    requires there { k ≤ length c.old }
    ensures node { OnOk result (Folds mint.old mint.new (take k c.old) (drop k c.old) c.new) }
    ensures backs { IfOk result (HandBack O.runs O.last (take k c.old)) }
    ensures refused { OnErr result (c.new ≡ c.old) }
    ensures mint { AddsAtMost 1 mint.old mint.new }
    ensures totals { IfOk result (λ backs. KeepsTotals (held_by (take k c.old)) (stakes_in backs)) }
{
    let _had = c.length();
    let node = join_first(c, k, alloc, mint)?;
    let last = c.swap_node(k - 1, IoBufOf::empty());
    match c.cut_before(k - 1, last) {
        Ok(front) => {
            let _ = c.swap_node(0, node);
            Ok(front.give_back())
        }
        Err(last) => {
            let _ = c.swap_node(k - 1, last);
            Err(AllocError)
        }
    }
}

// One node for the first k, on a new storage.
fn join_first<W: Wrapped, O: Release>(
    c: &ChainOf<W, O>,
    k: usize,
    alloc: Global,
    mint: &mut Mint,
) -> Result<IoBufOf<W, O>, AllocError>
    requires some { 0 < k }
    requires there { k ≤ length c.now }
    ensures node { IfOk result (Joins mint.old mint.new (take k c.now)) }
    ensures refused { OnErr result (mint.new ≡ mint.old) }
{
    let head = c.node(0).headroom();
    let tail = c.node(k - 1).tailroom();
    let Some(end) = head.checked_add(length_of(c, k)) else {
        return Err(AllocError);
    };
    let Some(size) = end.checked_add(tail) else {
        return Err(AllocError);
    };
    let mut node = IoBufOf::create(alloc, size, mint)?;
    node.append(size);
    write_node(c, k, &mut node);
    node.trim_start(head);
    node.trim_end(tail);
    Ok(node)
}

// How many bytes of data the first k nodes have.
fn length_of<W: Wrapped, O: Release>(c: &ChainOf<W, O>, k: usize) -> usize
    requires { k ≤ length c.now }
    ensures { result ≡ length (bytes_of (take k c.now)) }
{
    let _had = c.length();
    let mut sum = 0;
    'nodes: for i in 0..k {
        sum += c.node(i).length();
    }
    sum
}

// Writes the span of the first k nodes over a node's data.
fn write_node<W: Wrapped, O: Release>(c: &ChainOf<W, O>, k: usize, node: &mut IoBufOf<W, O>)
    requires alone { IsAlone node.old.share }
    requires some { 0 < k }
    requires there { k ≤ length c.now }
    requires size { length node.old.window ≡ length (span_of (take k c.now)) }
    ensures { node.new ≡ rewritten (span_of (take k c.now)) (shared_as (claimed node.old.share) node.old) }
{
    // For the proof alone: where as many bytes are written, the rooms stay.
    writes_window::<O>();
    match node.mine() {
        Ok(mine) => write_span(c, k, mine.bytes_mut()),
        Err(_) => unreachable!(),
    }
}

// Writes the room before the first of the first k nodes, their data, and the room after the last.
fn write_span<W: Wrapped, O: Release>(c: &ChainOf<W, O>, k: usize, block: &mut [u8])
    requires some { 0 < k }
    requires there { k ≤ length c.now }
    requires size { length block.old ≡ length (span_of (take k c.now)) }
    ensures { block.new ≡ span_of (take k c.now) }
{
    let head = headroom_of(c.node(0));
    write_at(block, 0, head);
    let end = write_data(c, k, block, head.len());
    write_at(block, end, tailroom_of(c.node(k - 1)));
}

// Writes the data of the first k nodes at a place, and answers where it ends.
fn write_data<W: Wrapped, O: Release>(
    c: &ChainOf<W, O>,
    k: usize,
    block: &mut [u8],
    at: usize,
) -> usize
    requires there { k ≤ length c.now }
    requires room { at + length (bytes_of (take k c.now)) ≤ length block.old }
    ensures end { result ≡ at + length (bytes_of (take k c.now)) }
    ensures written { take result block.new ≡ take at block.old ++ bytes_of (take k c.now) }
{
    let mut end = at;
    'nodes: for i in 0..k {
        let bytes = c.node(i).bytes();
        write_at(block, end, bytes);
        end += bytes.len();
    }
    end
}

// Writes bytes at a place.
fn write_at(block: &mut [u8], at: usize, bytes: &[u8])
    requires { at + length bytes.now ≤ length block.old }
    ensures { take (at + length bytes.now) block.new ≡ take at block.old ++ bytes.now }
{
    block[at..at + bytes.len()].copy_from_slice(bytes);
}

// The bytes before a node's data.
fn headroom_of<'n, W: Wrapped, O: Release>(node: &'n IoBufOf<W, O>) -> &'n [u8]
    ensures { result.now ≡ node.now.before }
{
    &node.block()[..node.headroom()]
}

// The bytes after a node's data.
fn tailroom_of<'n, W: Wrapped, O: Release>(node: &'n IoBufOf<W, O>) -> &'n [u8]
    ensures { result.now ≡ node.now.after }
{
    let block = node.block();
    &block[block.len() - node.tailroom()..]
}
