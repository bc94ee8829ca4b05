//! Chains that lose bytes at an end.
ghost use Rattle.std.specs.Prelude.{◌≡◌, ◌+◌, ◌-◌, ◌≤◌, ◌<◌, List, ◌++◌, IfSome, length, take, drop, slice_get};
ghost use Rattle.buffer_model.specs.Segment.{bytes_of, trimmed_start, trimmed_end};
ghost use Rattle.buffer_model.specs.Stake.{KeepsTotals};
ghost use Rattle.iobuf_chain.specs.Accounts.{held_by};
ghost use Rattle.iobuf_chain.specs.Lists.{TurnsAt};
ghost use Rattle.iobuf_chain.specs.Trims.{trimmed_front, trimmed_back};

use crate::chain::ChainOf;
use crate::nodes::Nodes;
use iobuf_node::{IoBufOf, Wrapped};
use storage::Told;

impl<W: Wrapped, O: Told> ChainOf<W, O> {
    /// The first `n` bytes leave their windows, to the room before them. The nodes stay, without data too. O(nodes
    /// that lose bytes), and no memory.
    pub fn trim_start(&mut self, n: usize)
        requires { n ≤ length (bytes_of self.old) }
        ensures nodes { self.new ≡ trimmed_front n self.old }
        ensures bytes { bytes_of self.new ≡ drop n (bytes_of self.old) }
        ensures totals { KeepsTotals (held_by self.old) (held_by self.new) }
    {
        trim_front(&mut self.nodes, n);
        self.sum -= n;
    }

    /// The last `n` bytes leave their windows, to the room behind them. The nodes stay, without data too. O(nodes
    /// that lose bytes), and no memory.
    pub fn trim_end(&mut self, n: usize)
        requires { n ≤ length (bytes_of self.old) }
        ensures nodes { self.new ≡ trimmed_back n self.old }
        ensures bytes { bytes_of self.new ≡ take (length (bytes_of self.old) - n) (bytes_of self.old) }
        ensures totals { KeepsTotals (held_by self.old) (held_by self.new) }
    {
        trim_back(&mut self.nodes, n);
        self.sum -= n;
    }
}

// The first n bytes leave.
fn trim_front<W: Wrapped, O: Told>(nodes: &mut Nodes<IoBufOf<W, O>>, n: usize)
    requires { n ≤ length (bytes_of nodes.old) }
    ensures { nodes.new ≡ trimmed_front n nodes.old }
{
    let count = nodes.len();
    let mut left = n;
    let mut i = 0;
    'nodes: while left > 0 {
        prove!(i < count);
        let k = left.min(nodes.get(i).length());
        trim_node_start(nodes, i, k);
        left -= k;
        i += 1;
    }
}

// The last n bytes leave.
fn trim_back<W: Wrapped, O: Told>(nodes: &mut Nodes<IoBufOf<W, O>>, n: usize)
    requires { n ≤ length (bytes_of nodes.old) }
    ensures { nodes.new ≡ trimmed_back n nodes.old }
{
    let mut left = n;
    let mut i = nodes.len();
    'nodes: while left > 0 {
        i -= 1;
        let k = left.min(nodes.get(i).length());
        trim_node_end(nodes, i, k);
        left -= k;
    }
}

// The first k bytes of node i leave.
fn trim_node_start<W: Wrapped, O: Told>(nodes: &mut Nodes<IoBufOf<W, O>>, i: usize, k: usize)
    requires room { IfSome (slice_get nodes.old i) (λ s. k ≤ length s.window) }
    requires there { i < length nodes.old }
    ensures { TurnsAt (trimmed_start k) i nodes.old nodes.new }
{
    if i == 0 {
        nodes.trim_first_start(k);
        return;
    }
    let mut node = nodes.swap(i, IoBufOf::empty());
    node.trim_start(k);
    let _ = nodes.swap(i, node);
}

// The last k bytes of node i leave.
fn trim_node_end<W: Wrapped, O: Told>(nodes: &mut Nodes<IoBufOf<W, O>>, i: usize, k: usize)
    requires room { IfSome (slice_get nodes.old i) (λ s. k ≤ length s.window) }
    requires there { i < length nodes.old }
    ensures { TurnsAt (trimmed_end k) i nodes.old nodes.new }
{
    if i == 0 {
        nodes.trim_first_end(k);
        return;
    }
    let mut node = nodes.swap(i, IoBufOf::empty());
    node.trim_end(k);
    let _ = nodes.swap(i, node);
}
