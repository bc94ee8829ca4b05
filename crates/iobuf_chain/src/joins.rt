//! Chains that are joined.
ghost use Rattle.std.specs.Prelude.{◌≡◌, ◌+◌, ◌≤◌, ◌<◌, ◌^◌, List, ◌++◌, OnOk, length, MatchResult};
ghost use Rattle.buffer_model.specs.Segment.{bytes_of};
ghost use Rattle.buffer_model.specs.Stake.{KeepsTotals};
ghost use Rattle.iobuf_chain.specs.Accounts.{held_by, handed_back};
ghost use Rattle.std.specs.VecDeque.{deque_capacity};
ghost use Rattle.iobuf_chain.specs.Lists.{inserted_after};

use crate::chain::ChainOf;
use iobuf_node::Wrapped;
use std::alloc::AllocError;
use std::collections::VecDeque;
use storage::Told;

impl<W: Wrapped, O: Told> ChainOf<W, O> {
    /// The nodes of another chain come last, with no byte copied. O(nodes of the other), amortised. At want of memory
    /// it is handed back, and nothing changes.
    pub fn append_chain(&mut self, other: ChainOf<W, O>) -> Result<(), ChainOf<W, O>>
        requires { length (bytes_of self.old) + length (bytes_of other) ≤ 2 ^ 62 }
        ensures joined { MatchResult result (λ _. self.new ≡ self.old ++ other) (λ c. (c ≡ other)
            × (self.new ≡ self.old)) }
        ensures totals { KeepsTotals (held_by (self.old ++ other)) (held_by (self.new ++ handed_back result)) }
    {
        let all = self.elements().saturating_add(other.elements());
        let Ok(()) = make_room(&mut self.room, all) else {
            return Err(other);
        };
        let ChainOf { nodes, room, sum } = other;
        match self.nodes.append(nodes) {
            Ok(()) => {
                self.sum += sum;
                Ok(())
            }
            Err(nodes) => Err(ChainOf { nodes, room, sum }),
        }
    }

    /// The nodes of another chain come behind node `i`, with no byte copied. O(nodes of the other, and of those
    /// before and those behind the fewer), amortised. At want of memory it is handed back, and nothing changes.
    pub fn insert_after(&mut self, i: usize, other: ChainOf<W, O>) -> Result<(), ChainOf<W, O>>
        requires there { i < length self.old }
        requires sum { length (bytes_of self.old) + length (bytes_of other) ≤ 2 ^ 62 }
        ensures inserted { MatchResult result (λ _. self.new ≡ inserted_after i other self.old)
            (λ c. (c ≡ other) × (self.new ≡ self.old)) }
        ensures totals { KeepsTotals (held_by (self.old ++ other)) (held_by (self.new ++ handed_back result)) }
    {
        let all = self.elements().saturating_add(other.elements());
        let Ok(()) = make_room(&mut self.room, all) else {
            return Err(other);
        };
        let ChainOf { nodes, room, sum } = other;
        match self.nodes.insert_after(i, nodes) {
            Ok(()) => {
                self.sum += sum;
                Ok(())
            }
            Err(nodes) => Err(ChainOf { nodes, room, sum }),
        }
    }
}

// Makes room for n items in an empty list, and for half as many more, so that the cost of growing is amortised.
pub(crate) fn make_room<T>(room: &mut VecDeque<T>, n: usize) -> Result<(), AllocError>
    ensures items { room.new.items ≡ room.old.items }
    ensures capacity { deque_capacity room.old ≤ deque_capacity room.new }
    ensures made { OnOk result (n ≤ deque_capacity room.new) }
{
    if n <= room.capacity() {
        return Ok(());
    }
    room.reserve(n.saturating_add(n / 2))
}
