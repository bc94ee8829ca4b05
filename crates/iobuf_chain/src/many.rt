//! Chains that are shared many times, and shares that are given back whole.
ghost use Rattle.std.specs.Prelude.{◌≡◌, ℕ, ◌+◌, ◌*◌, ◌≤◌, ◌<◌, ◌++◌, IfOk, IfErr, OnErr, OnOk, length, vec_len};
ghost use Rattle.std.specs.List.{AllZip};
ghost use Rattle.buffer_model.specs.Segment.{bytes_of};
ghost use Rattle.buffer_model.specs.Minted.{AddsAtMost};
ghost use Rattle.buffer_model.specs.Stake.{KeepsTotalsBeside};
ghost use Rattle.iobuf_chain.specs.Accounts.{held_by};
ghost use Rattle.iobuf_chain.specs.Copies.{CopiesNoData, IsStout, WithData};
ghost use Rattle.iobuf_chain.specs.Lists.{Each};
ghost use Rattle.iobuf_chain.specs.Shares.{AreReturnable, Regains, RejoinsEach};
ghost use Rattle.iobuf_chain.specs.Many.{answered_all, KeepsTotalsBut, Lasts, RejoinsAll, SharesMany, SharesUpTo, StayOn};

use crate::chain::ChainOf;
use crate::nodes::Nodes;
use crate::share::rejoin_node;
use iobuf_node::{IoBufOf, Wrapped};
use share_count::Mint;
use std::alloc::{AllocError, Global};
use storage::Release;

impl<W: Wrapped, O: Release> ChainOf<W, O> {
    /// `n` shares of the chain, for as many readers: each has a clone of each node, in order, as `share_all` makes one.
    /// A node of a weight over `n` shares its bytes with all of them, for `n` up to 1,024 (`copies`), and so does a
    /// wrapped one; another is copied from the share on at which its weight is 1. At want of memory the shares that
    /// were made are given back and absorbed, and none is answered; what is absorbed can't be shared again. O(n nodes).
    pub fn share_many(
        &mut self,
        n: usize,
        alloc: Global,
        mint: &mut Mint,
    ) -> Result<Vec<ChainOf<W, O>>, AllocError>
        ensures shares { IfOk result (λ v. SharesMany mint.old mint.new self.old v.items self.new) }
        ensures count { IfOk result (λ v. length v.items ≡ n) }
        ensures bytes { IfOk result (λ v. Each (λ c. bytes_of c ≡ bytes_of self.old) v.items) }
        ensures returnable { IfOk result (λ v. Each (AreReturnable self.new) v.items) }
        ensures copies { n ≤ 1024 → WithData (Lasts n) self.old
            → IfOk result (λ v. Each (CopiesNoData self.old) v.items) }
        ensures stout { n < 1024 → WithData IsStout self.old → IfOk result (λ v. Each (CopiesNoData self.old) v.items) }
        ensures left { (k : ℕ) → n + k ≤ 1024 → WithData (Lasts (n + k)) self.old
            → OnOk result (WithData (Lasts k) self.new) }
        ensures kept { bytes_of self.new ≡ bytes_of self.old }
        ensures storages { StayOn self.old self.new }
        ensures refused { OnErr result (AllZip Regains self.old self.new) }
        ensures mint { AddsAtMost (n * length self.old) mint.old mint.new }
        ensures numbers { n ≤ 1024 → Each (Lasts n) self.old → mint.new ≡ mint.old }
        ensures totals { KeepsTotalsBeside mint.old mint.new (held_by self.old)
            (held_by (self.new ++ answered_all result)) }
    {
        match share_up_to(self, n, alloc, mint) {
            Ok(shares) => Ok(shares),
            Err(shares) => {
                self.rejoin_all(shares);
                Err(AllocError)
            }
        }
    }

    /// Gives back a share of this chain, as `share_all` and `share_many` make them: each node of it to its node, which
    /// absorbs the receipt. A node on a storage of its own, as a copy is, is dropped. O(nodes), and no memory. Shares
    /// may be given back in whatever order (`laws::many_are_rejoined`): each meets the condition as long as the chain's
    /// nodes stay on their storages (`laws::stays_returnable`).
    pub fn rejoin(&mut self, share: ChainOf<W, O>)
        requires { AreReturnable self.old share }
        ensures rejoins { RejoinsEach self.old share self.new }
        ensures kept { bytes_of self.new ≡ bytes_of self.old }
        ensures storages { StayOn self.old self.new }
        ensures totals { KeepsTotalsBut share (held_by (self.old ++ share)) (held_by self.new) }
    {
        rejoin_nodes(&mut self.nodes, share.nodes);
    }

    /// Gives back shares of this chain, each as `rejoin` does: so the chain has all the weight again that it had before
    /// they were made (`laws::many_are_rejoined`). O(nodes of the shares), and no memory.
    pub fn rejoin_all(&mut self, shares: Vec<ChainOf<W, O>>)
        requires { Each (AreReturnable self.old) shares.items }
        ensures rejoins { RejoinsAll self.old shares.items self.new }
        ensures kept { bytes_of self.new ≡ bytes_of self.old }
        ensures storages { StayOn self.old self.new }
    {
        let mut shares = shares;
        'shares: while let Some(share) = shares.pop() {
            self.rejoin(share);
        }
    }
}

// Shares of a chain in turn, up to n or to the first that is refused.
fn share_up_to<W: Wrapped, O: Release>(
    chain: &mut ChainOf<W, O>,
    n: usize,
    alloc: Global,
    mint: &mut Mint,
) -> Result<Vec<ChainOf<W, O>>, Vec<ChainOf<W, O>>>
    ensures shares { IfOk result (λ v. SharesMany mint.old mint.new chain.old v.items chain.new) }
    ensures count { IfOk result (λ v. vec_len v ≡ n) }
    ensures refused { IfErr result (λ v. SharesUpTo mint.old chain.old v.items chain.new) }
    ensures mint { AddsAtMost (n * length chain.old) mint.old mint.new }
    ensures numbers { n ≤ 1024 → Each (Lasts n) chain.old → mint.new ≡ mint.old }
{
    let Ok(mut shares) = Vec::with_capacity(alloc, n) else {
        return Err(Vec::new(alloc));
    };
    'shares: while shares.len() < n {
        match chain.share_all(alloc, mint) {
            Ok(share) => shares.push_reserved(share),
            Err(_) => return Err(shares),
        }
    }
    Ok(shares)
}

// Gives the nodes of a share back, each to its node.
fn rejoin_nodes<W: Wrapped, O: Release>(
    nodes: &mut Nodes<IoBufOf<W, O>>,
    share: Nodes<IoBufOf<W, O>>,
)
    requires { AreReturnable nodes.old share }
    ensures { RejoinsEach nodes.old share nodes.new }
{
    let (first, mut rest) = share.into_parts();
    rejoin_node(nodes, 0, first);
    'clones: for i in 0..rest.len() {
        let Some(next) = rest.pop_front() else {
            unreachable!()
        };
        rejoin_node(nodes, i + 1, next);
    }
}
