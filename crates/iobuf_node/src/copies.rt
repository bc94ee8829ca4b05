//! Copies and clones of nodes.
ghost use Rattle.std.specs.Prelude.{◌≡◌, ◌+◌, ◌≤◌, ◌<◌, ◌↔◌, List, [], ◌∷◌, length, None, Ok, IsOk, IsNone, IfNone, IfOk, IfErr, IfSome, OnErr, OnOk, MatchOption, MatchResult};
ghost use Rattle.buffer_model.specs.Share.{IsManaged};
ghost use Rattle.buffer_model.specs.Clones.{Clones, MovesOut, SharesPart};
ghost use Rattle.buffer_model.specs.Stake.{held, KeepsTotals};
ghost use Rattle.iobuf_node.specs.Answered.{cloned, either_way, shared, KeepsFor};

use crate::make::on;
use crate::mine::Mine;
use crate::node::{IoBuf, IoBufOf};
use crate::wrapped::Wrapped;
use share_count::Mint;
use std::alloc::{AllocError, Global};
use storage::{Managed, Told};

impl<W: Wrapped, O: Told> IoBufOf<W, O> {
    /// A second node with the same three lists. A managed node shares its storage: the second has a part of the
    /// weight, without an allocation or a copy. At weight 1 the second is a copy of the whole block on a new storage.
    /// A wrapped node's is wrapped too, and takes no memory.
    pub fn clone_one(&mut self, alloc: Global, mint: &mut Mint) -> Result<IoBufOf<W, O>, AllocError>
        ensures clone { IfOk result (Clones mint.old mint.new self.old self.new) }
        ensures wrapped { self.old.share.number ≡ None → IsOk result }
        ensures refused { OnErr result ((self.new ≡ self.old) × (mint.new ≡ mint.old)) }
        ensures totals { KeepsFor mint.old mint.new self.old (held self.new.share ∷ cloned result) }
    {
        match self.again() {
            Some(node) => Ok(node),
            None => self.clone_managed(alloc, mint),
        }
    }

    /// A second node with the same three lists on the same storage, which has a part of the weight. `None` exactly at
    /// a weight below 2, which a wrapped node has too. It takes no memory and copies no byte: the count of a shared
    /// pointer grows by one, and where that is refused the node is as it was. O(1).
    #[inline(always)]
    pub fn share_one(&mut self) -> Result<Option<IoBufOf<W, O>>, AllocError>
        ensures none { IfOk result (λ o. IsNone o ↔ (self.old.share.weight < 2)) }
        ensures stays { IfOk result (λ o. IfNone o (self.new ≡ self.old)) }
        ensures share { IfOk result (λ o. IfSome o (SharesPart self.old self.new)) }
        ensures refused { OnErr result (self.new ≡ self.old) }
        ensures totals { KeepsTotals (held self.old.share ∷ []) (held self.new.share ∷ shared result) }
    {
        if self.weight() < 2 {
            return Ok(None);
        }
        match self.window.hold.share() {
            Ok(Some(hold)) => Ok(Some(on(hold, self.window.start, self.window.len))),
            Ok(None) => unreachable!(),
            Err(e) => Err(e),
        }
    }

    // The clone of a managed node.
    fn clone_managed(&mut self, alloc: Global, mint: &mut Mint) -> Result<IoBufOf<W, O>, AllocError>
        requires { IsManaged self.old.share }
        ensures clone { IfOk result (Clones mint.old mint.new self.old self.new) }
        ensures refused { OnErr result ((self.new ≡ self.old) × (mint.new ≡ mint.old)) }
    {
        match self.window.hold.share() {
            Ok(Some(hold)) => Ok(on(hold, self.window.start, self.window.len)),
            Ok(None) => self.duplicate(alloc, mint),
            Err(e) => Err(e),
        }
    }

    /// A node that borrows nothing: a wrapped node's whole block is copied to a new storage, rooms too; another stays
    /// as it is. At want of memory the node is handed back.
    pub fn into_managed(
        self,
        alloc: Global,
        mint: &mut Mint,
    ) -> Result<IoBuf<'static, O>, IoBufOf<W, O>>
        ensures managed { IsManaged self.share → result ≡ Ok self }
        ensures managed_mint { IsManaged self.share → mint.new ≡ mint.old }
        ensures wrapped { self.share.number ≡ None → IfOk result (λ n. MovesOut mint.old mint.new self n) }
        ensures refused { IfErr result (λ n. n ≡ self) }
        ensures refused_mint { OnErr result (mint.new ≡ mint.old) }
        ensures totals { KeepsFor mint.old mint.new self (either_way result) }
    {
        if self.number().is_some() {
            return Ok(self.kept());
        }
        match self.duplicate(alloc, mint) {
            Ok(node) => Ok(node),
            Err(_) => Err(self),
        }
    }

    // The node itself, which borrows nothing.
    fn kept(self) -> IoBuf<'static, O>
        requires { IsManaged self.share }
        ensures { result ≡ self }
    {
        let IoBufOf { window, .. } = self;
        IoBufOf {
            wrapped: None,
            window,
        }
    }

    // A second node on the same wrapped bytes, where it is wrapped.
    fn again(&self) -> Option<IoBufOf<W, O>>
        ensures { MatchOption result (IsManaged self.now.share) (λ n. (n ≡ self.now) × (self.now.share.number ≡ None)) }
    {
        let start = self.window.start;
        let len = self.window.len;
        if self.wrapped.is_none() && self.window.hold.number().is_some() {
            return None;
        }
        Some(IoBufOf {
            wrapped: self.wrapped,
            window: Mine {
                hold: Managed::none(),
                start,
                len,
            },
        })
    }

    /// A second node with the same three lists, on a copy of the whole block on a new storage: of a type that may wrap
    /// any bytes, as it wraps none. One copy. Four allocations: the block, and three for its count.
    #[inline(never)]
    pub fn duplicate<V: Wrapped>(
        &self,
        alloc: Global,
        mint: &mut Mint,
    ) -> Result<IoBufOf<V, O>, AllocError>
        ensures node { IfOk result (MovesOut mint.old mint.new self.now) }
        ensures refused { OnErr result (mint.new ≡ mint.old) }
    {
        let start = self.headroom();
        let len = self.length();
        match Managed::copy(alloc, self.block(), mint) {
            Ok(hold) => Ok(on(hold, start, len)),
            Err(e) => Err(e),
        }
    }
}
