ghost use Rattle.std.specs.Prelude.{◌≡◌, ◌<◌, ℕ, List, [], All, IfOk, OnOk, OnErr, length, replicate};
ghost use Rattle.relay_ports.specs.Lending.{after_lend, after_return};

use crate::lent::Lent;
use std::alloc::{AllocError, Global};
use std::collections::BTreeSet;
use std::marker::Model;

/// Lends blocks, and keeps the set of the numbers of those that are out.
#[derive(Debug, Drop)]
pub struct Lender {
    out: BTreeSet<u64>,
    lends: u64,
}

impl Model for Lender {
    ghost use Rattle.std.specs.Prelude.{◌<◌, All};
    ghost use Rattle.std.specs.Ordering.{nat_cmp};
    ghost use Rattle.std.specs.BTreeSet.{IsOrdered};
    ghost use Rattle.relay_ports.specs.Lending.{Lending};

    ghost Value = { Lending };

    ghost view = { λ l. record { out = l.out.keys; lends = l.lends } };

    // Each number was handed out, and is in the set once.
    ghost invariant = { λ l. All (λ n. n < l.lends) l.out.keys × IsOrdered nat_cmp l.out };
}

impl Lender {
    /// A lender that has lent nothing. It takes no memory.
    pub fn new(alloc: Global) -> Lender
        ensures { result ≡ record { out = []; lends = 0 } }
    {
        Lender {
            out: BTreeSet::new(alloc),
            lends: 0,
        }
    }

    /// Enters a block that is lent, and answers its number, which no block had before: each that is out is below it.
    /// Where memory is refused, or no number is left, nothing changes. It takes time O(log n) in the number of blocks
    /// that are out.
    #[tactic(auto, using(crate::proofs::OutNumbers::inserted_last, crate::proofs::OutNumbers::below_more))]
    pub fn enter(&mut self) -> Result<u64, AllocError>
        ensures number { IfOk result (λ n. n ≡ self.old.lends) }
        ensures below { All (λ n. n < self.old.lends) self.old.out }
        ensures entered { OnOk result (self.new ≡ after_lend self.old) }
        ensures refused { OnErr result (self.new ≡ self.old) }
    {
        let number = self.lends;
        let Some(next) = number.checked_add(1) else {
            return Err(AllocError);
        };
        self.out.insert(number)?;
        self.lends = next;
        Ok(number)
    }

    /// Lends a block of `size` zero bytes as `Lender::enter` does: one allocation of `size` bytes beside what the
    /// number takes.
    pub fn lend(&mut self, alloc: Global, size: usize) -> Result<Lent, AllocError>
        ensures zeros { IfOk result (λ b. b.bytes.items ≡ replicate size 0) }
        ensures number { IfOk result (λ b. b.number ≡ self.old.lends) }
        ensures below { OnOk result (All (λ n. n < self.old.lends) self.old.out) }
        ensures lent { OnOk result (self.new ≡ after_lend self.old) }
        ensures refused { OnErr result (self.new ≡ self.old) }
    {
        let bytes = vec![in alloc; 0u8; size]?;
        let number = self.enter()?;
        Ok(Lent { number, bytes })
    }

    /// Takes note of a block that came back: its number is out no more. A number that isn't out changes nothing. It
    /// takes no memory, and time O(log n) in the number of blocks that are out.
    #[tactic(auto, using(crate::proofs::OutNumbers::removed_one))]
    pub fn take_back(&mut self, number: u64)
        ensures { self.new ≡ after_return number self.old }
    {
        let _was_out = self.out.remove(&number);
    }

    /// How many blocks are out.
    pub fn out_count(&self) -> u64
        ensures { result ≡ length self.now.out }
    {
        self.out.len() as u64
    }
}
