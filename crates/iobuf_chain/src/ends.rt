//! Chains that are given back, and their storages.
ghost use Rattle.std.specs.Prelude.{◌≡◌, ◌+◌, ◌≤◌, ◌<◌, ◌↔◌, List, [], ◌∷◌, ◌++◌, Some, false, length, MatchResult, IsTrue};
ghost use Rattle.std.specs.List.{AllZip};
ghost use Rattle.buffer_model.specs.Share.{IsWhole, IsOfStorage};
ghost use Rattle.buffer_model.specs.Segment.{Segment, hold_of};
ghost use Rattle.buffer_model.specs.Stake.{KeepsTotals};
ghost use Rattle.storage.specs.Back.{GivesBack, stakes_in};
ghost use Rattle.std.specs.VecDeque.{deque_capacity};
ghost use Rattle.iobuf_chain.specs.Accounts.{held_by};
ghost use Rattle.iobuf_chain.specs.Lists.{Each};

use crate::chain::ChainOf;
use iobuf_node::{IoBufOf, Wrapped};
use std::collections::VecDeque;
use storage::{Back, Release, Returns, Told};

impl<W: Wrapped, O: Told> ChainOf<W, O> {
    /// Whether some node isn't whole, so that others may hold its storage. Takes no look at a count. O(nodes), and no
    /// memory.
    pub fn is_shared(&self) -> bool
        ensures { result ≡ false ↔ Each (λ s. IsWhole s.share) self.now }
    {
        'nodes: for i in 0..self.nodes.len() {
            if !self.nodes.get(i).whole() {
                return true;
            }
        }
        false
    }
}

impl<W: Wrapped, O: Release> ChainOf<W, O> {
    /// Gives back the storages of all nodes, in order. O(nodes), and no memory.
    pub fn give_back(self) -> Returns<O>
        ensures backs { AllZip (λ s b. GivesBack O.runs O.last (hold_of s) b) self result }
        ensures totals { KeepsTotals (held_by self) (stakes_in result) }
    {
        let (first, rest) = self.into_backs();
        Returns::from_parts(first, rest)
    }

    /// Gives back the storages of all nodes, in order, and behind them those of another chain. O(nodes), and no memory.
    pub fn give_back_with(self, other: ChainOf<W, O>) -> Returns<O>
        ensures backs { AllZip (λ s b. GivesBack O.runs O.last (hold_of s) b) (self ++ other) result }
        ensures totals { KeepsTotals (held_by (self ++ other)) (stakes_in result) }
    {
        Returns::from_two(self.into_backs(), other.into_backs())
    }

    // What the first node hands back, and what the others do, in order.
    fn into_backs(self) -> (Back<O>, VecDeque<Back<O>>)
        ensures backs { AllZip (λ s b. GivesBack O.runs O.last (hold_of s) b) self (result.0 ∷ result.1.items) }
        ensures totals { KeepsTotals (held_by self) (stakes_in (result.0 ∷ result.1.items)) }
    {
        let ChainOf {
            nodes,
            mut room,
            ..
        } = self;
        let (first, mut rest) = nodes.into_parts();
        let back = first.give_back();
        give_rest_back(&mut rest, &mut room);
        (back, room)
    }
}

// Gives nodes back, in order, into a list that has room for what they hand back.
fn give_rest_back<W: Wrapped, O: Release>(
    nodes: &mut VecDeque<IoBufOf<W, O>>,
    backs: &mut VecDeque<Back<O>>,
)
    requires room { length backs.old.items + length nodes.old.items ≤ deque_capacity backs.old }
    requires none { backs.old.items ≡ [] }
    ensures backs { AllZip (λ s b. GivesBack O.runs O.last (hold_of s) b) nodes.old.items backs.new.items }
    ensures totals { KeepsTotals (held_by nodes.old.items) (stakes_in backs.new.items) }
{
    'nodes: while let Some(node) = nodes.pop_front() {
        backs.push_back_reserved(node.give_back());
    }
}
