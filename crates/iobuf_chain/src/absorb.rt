//! Receipts that chains absorb.
ghost use Rattle.std.specs.Prelude.{◌≡◌, ◌<◌, ◌↔◌, List, ◌∷◌, ◌++◌, Some, IsTrue, IfSome, MatchOption, MatchResult, OnErr, OnOk, length, slice_get};
ghost use Rattle.buffer_model.specs.Share.{IsOfStorage};
ghost use Rattle.buffer_model.specs.Stake.{counted, KeepsTotals};
ghost use Rattle.iobuf_chain.specs.Accounts.{held_by};
ghost use Rattle.iobuf_chain.specs.Lists.{TurnsAt};
ghost use Rattle.iobuf_chain.specs.Receipts.{absorbed, Absorbs, AgreesWith, IsFirstWith, LacksNumber, left_over};

use crate::chain::ChainOf;
use crate::nodes::Nodes;
use iobuf_node::{IoBufOf, Wrapped};
use storage::{Receipt, Told};

impl<W: Wrapped, O: Told> ChainOf<W, O> {
    /// The first node with the receipt's storage number absorbs it. Where no node has that number, the receipt is
    /// handed back, and nothing changes. Numbers of one mint meet the condition (`laws::one_mint_agrees`). O(nodes),
    /// and no memory.
    pub fn absorb(&mut self, receipt: Receipt<O>) -> Result<(), Receipt<O>>
        requires { AgreesWith receipt self.old }
        ensures absorbed { MatchResult result (λ _. Absorbs receipt self.old self.new) (λ r. (r ≡ receipt)
            × (self.new ≡ self.old)) }
        ensures refused { OnErr result (LacksNumber receipt.number self.old) }
        ensures lasts { OnOk result (receipt.lasts ≡ 0) }
        ensures totals { KeepsTotals (counted receipt ∷ held_by self.old) (left_over result ++ held_by self.new) }
    {
        let Some(i) = first_with(&self.nodes, receipt.number()) else {
            return Err(receipt);
        };
        absorb_at(&mut self.nodes, i, receipt);
        Ok(())
    }
}

// The place of the first node with this storage number.
pub(crate) fn first_with<W: Wrapped, O: Told>(
    nodes: &Nodes<IoBufOf<W, O>>,
    number: u64,
) -> Option<usize>
    ensures { MatchOption result (LacksNumber number nodes.now) (λ i. IsFirstWith number i nodes.now) }
{
    'nodes: for i in 0..nodes.len() {
        if has_number(nodes.get(i), number) {
            return Some(i);
        }
    }
    None
}

// Whether a node has this storage number.
fn has_number<W: Wrapped, O: Told>(node: &IoBufOf<W, O>, number: u64) -> bool
    ensures { IsTrue result ↔ (node.now.share.number ≡ Some number) }
{
    match node.number() {
        Some(own) => own == number,
        None => false,
    }
}

// Node i absorbs a receipt of its storage.
fn absorb_at<W: Wrapped, O: Told>(nodes: &mut Nodes<IoBufOf<W, O>>, i: usize, receipt: Receipt<O>)
    requires there { i < length nodes.old }
    requires storage { IfSome (slice_get nodes.old i) (λ s. IsOfStorage s.share receipt) }
    ensures lasts { receipt.lasts ≡ 0 }
    ensures node { TurnsAt (absorbed receipt.weight) i nodes.old nodes.new }
{
    let mut node = nodes.swap(i, IoBufOf::empty());
    node.absorb(receipt);
    let _ = nodes.swap(i, node);
}
