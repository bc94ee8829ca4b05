//! Parts that leave a chain.
ghost use Rattle.std.specs.Prelude.{◌≡◌, ◌+◌, ◌≤◌, ◌<◌, ◌^◌, ◌↔◌, List, [], ◌∷◌, ◌++◌, IsNone, IfNone, IsOk, IfOk, IfSome, OnOk, OnErr, length, take, drop, slice_get, MatchResult};
ghost use Rattle.buffer_model.specs.Segment.{bytes_of};
ghost use Rattle.buffer_model.specs.Stake.{KeepsTotals, KeepsTotalsBeside};
ghost use Rattle.iobuf_chain.specs.Accounts.{held_by, answered, answered_if, cut_off};
ghost use Rattle.iobuf_chain.specs.Lists.{between, without};
ghost use Rattle.iobuf_chain.specs.Shares.{CutsFirst, SharesFront};

use crate::chain::ChainOf;
use crate::nodes::Nodes;
use iobuf_node::{IoBufOf, Wrapped};
use share_count::Mint;
use std::alloc::{AllocError, Global};
use std::collections::VecDeque;
use storage::Told;

impl<W: Wrapped, O: Told> ChainOf<W, O> {
    /// Nodes `i` up to and without `j` leave, as a chain of their own. One node stays at least. O(nodes that leave,
    /// and of those before and those behind the fewer). One node takes no memory. At want of memory nothing changes.
    pub fn separate(&mut self, i: usize, j: usize) -> Result<ChainOf<W, O>, AllocError>
        requires some { i < j }
        requires there { j ≤ length self.old }
        requires stays { j < length self.old + i }
        ensures taken { IfOk result (λ c. c ≡ between i j self.old) }
        ensures left { OnOk result (self.new ≡ without i j self.old) }
        ensures refused { OnErr result (self.new ≡ self.old) }
        ensures one { j ≡ i + 1 → IsOk result }
        ensures totals { KeepsTotals (held_by self.old) (held_by (self.new ++ answered result)) }
    {
        let all = self.sum;
        let room = VecDeque::with_capacity(self.nodes.allocator(), j - i - 1)?;
        let nodes = self.nodes.take_between(i, j)?;
        let sum = sum_of(&nodes);
        self.sum = all - sum;
        Ok(ChainOf { nodes, room, sum })
    }

    /// Node `i` leaves, as a chain of its own. Another stays. O(nodes before it or behind it, of which there are
    /// fewer), and no memory.
    pub fn unlink(&mut self, i: usize) -> ChainOf<W, O>
        requires there { i < length self.old }
        requires stays { 1 < length self.old }
        ensures taken { result ≡ between i (i + 1) self.old }
        ensures left { self.new ≡ without i (i + 1) self.old }
        ensures totals { KeepsTotals (held_by self.old) (held_by (self.new ++ result)) }
    {
        let _most = self.nodes.len();
        match self.separate(i, i + 1) {
            Ok(node) => node,
            Err(_) => unreachable!(),
        }
    }

    /// The first node leaves, as a chain of its own. Another stays. O(1), and no memory.
    pub fn pop(&mut self) -> ChainOf<W, O>
        requires { 1 < length self.old }
        ensures taken { result ≡ take 1 self.old }
        ensures left { self.new ≡ drop 1 self.old }
        ensures totals { KeepsTotals (held_by self.old) (held_by (self.new ++ result)) }
    {
        match self.separate(0, 1) {
            Ok(node) => node,
            Err(_) => unreachable!(),
        }
    }

    /// The nodes before node `i` leave, with another node behind them, as a chain of their own; node `i` and those
    /// behind it stay. O(nodes that leave). Where none leaves, it takes no memory. At want of memory the other is
    /// handed back, and nothing changes.
    pub fn cut_before(
        &mut self,
        i: usize,
        last: IoBufOf<W, O>,
    ) -> Result<ChainOf<W, O>, IoBufOf<W, O>>
        requires there { i < length self.old }
        requires sum { length (bytes_of (take i self.old)) + length last.window < 2 ^ 64 }
        ensures front { MatchResult result (λ c. (c ≡ take i self.old ++ last ∷ [])
            × (self.new ≡ drop i self.old)) (λ n. (n ≡ last) × (self.new ≡ self.old)) }
        ensures none { i ≡ 0 → IsOk result }
        ensures totals { KeepsTotals (held_by (self.old ++ last ∷ [])) (held_by (self.new ++ cut_off result)) }
    {
        let all = self.sum;
        let more = last.length();
        let Ok(room) = VecDeque::with_capacity(self.nodes.allocator(), i) else {
            return Err(last);
        };
        let nodes = self.nodes.take_front_with(i, last)?;
        let sum = sum_of(&nodes);
        self.sum = all - (sum - more);
        Ok(ChainOf { nodes, room, sum })
    }
}

impl<W: Wrapped, O: Told> ChainOf<W, O> {
    /// The first `k` bytes of the first node, which has more, leave in a clone of it, as a chain of their own. The
    /// node itself stays behind, without them. O(1). It takes no memory, and copies no byte, but at weight 1. At want
    /// of memory nothing changes.
    pub fn cut_first(
        &mut self,
        alloc: Global,
        k: usize,
        mint: &mut Mint,
    ) -> Result<ChainOf<W, O>, AllocError>
        requires { IfSome (slice_get self.old 0) (λ s. k < length s.window) }
        ensures cut { IfOk result (λ front. CutsFirst k mint.old mint.new self.old front self.new) }
        ensures refused { OnErr result ((self.new ≡ self.old) × (mint.new ≡ mint.old)) }
        ensures totals { KeepsTotalsBeside mint.old mint.new (held_by self.old)
            (held_by (self.new ++ answered result)) }
    {
        let all = self.sum;
        let len = self.nodes.get(0).length();
        let mut clone = self.nodes.clone_first(alloc, mint)?;
        clone.trim_end(len - k);
        self.nodes.trim_first_start(k);
        self.sum = all - k;
        Ok(ChainOf {
            nodes: Nodes::of(alloc, clone),
            room: VecDeque::new(alloc),
            sum: k,
        })
    }
}

impl<W: Wrapped, O: Told> ChainOf<W, O> {
    /// The first `k` bytes of the first node, which has more, leave in a share of it as a chain of their own, without
    /// their first `edges.0` and their last `edges.1`. The node itself stays behind with its other bytes. `None`
    /// exactly where the node has a weight below 2, as a wrapped one has: then nothing changes. O(1). It takes no
    /// memory and copies no byte: the count of a shared pointer grows by one, and where that is refused nothing
    /// changes.
    #[inline(always)]
    pub fn share_front(
        &mut self,
        alloc: Global,
        k: usize,
        edges: (usize, usize),
    ) -> Result<Option<ChainOf<W, O>>, AllocError>
        requires more { IfSome (slice_get self.old 0) (λ s. k < length s.window) }
        requires edges { edges.0 + edges.1 ≤ k }
        ensures none { IfOk result (λ o. IsNone o ↔ IfSome (slice_get self.old 0) (λ s. s.share.weight < 2)) }
        ensures stays { IfOk result (λ o. IfNone o (self.new ≡ self.old)) }
        ensures cut { IfOk result (λ o. IfSome o (λ frame. SharesFront k edges.0 edges.1 self.old frame self.new)) }
        ensures refused { OnErr result (self.new ≡ self.old) }
        ensures totals { KeepsTotals (held_by self.old) (held_by (self.new ++ answered_if result)) }
    {
        let all = self.sum;
        let len = self.nodes.get(0).length();
        let Some(mut share) = self.nodes.share_first()? else {
            return Ok(None);
        };
        let (front, back) = edges;
        share.trim_end(len - k);
        share.trim_end(back);
        share.trim_start(front);
        self.nodes.trim_first_start(k);
        self.sum = all - k;
        Ok(Some(ChainOf {
            nodes: Nodes::of(alloc, share),
            room: VecDeque::new(alloc),
            sum: k - back - front,
        }))
    }
}

// How many bytes of data nodes have. O(nodes).
pub(crate) fn sum_of<W: Wrapped, O: Told>(nodes: &Nodes<IoBufOf<W, O>>) -> usize
    requires { length (bytes_of nodes.now) < 2 ^ 64 }
    ensures { result ≡ length (bytes_of nodes.now) }
{
    let mut sum = 0;
    'nodes: for i in 0..nodes.len() {
        sum += nodes.get(i).length();
    }
    sum
}
