//! Rooms, copies and clones of nodes.
ghost use Rattle.std.specs.Prelude.{◌≡◌, ◌+◌, ◌≤◌, ◌<◌, ◌^◌, ◌↔◌, List, [], ◌∷◌, ◌++◌, None, Ok, IsOk, IsNone, IsSome, IfNone, IfSome, IfOk, IfErr, OnErr, OnOk, MatchResult, length, replicate};
ghost use Rattle.buffer_model.specs.Share.{IsWhole, IsAlone, own};
ghost use Rattle.buffer_model.specs.Segment.{between_rooms, hold_of};
ghost use Rattle.buffer_model.specs.Minted.{Adds, IsNew};
ghost use Rattle.buffer_model.specs.Clones.{StaysSole, StaysShared, MovesOut};
ghost use Rattle.buffer_model.specs.Stake.{held, KeepsTotals};
ghost use Rattle.storage.specs.Back.{GivesBack, stakes_of};
ghost use Rattle.iobuf_node.specs.Answered.{answered, KeepsFor};
ghost use Rattle.iobuf_node.specs.Roomed.{HasRoom, MakesRoom};

use crate::make::{on, roomed};
use crate::node::IoBufOf;
use crate::wrapped::Wrapped;
use share_count::{Mint, Standing};
use std::alloc::{AllocError, Global};
use std::mem;
use storage::{Back, Release};

impl<W: Wrapped, O: Release> IoBufOf<W, O> {
    /// Makes both rooms at least this large. Where one isn't, the data is copied to a new storage with exactly these
    /// rooms, zero, and the old storage is given back. At most one copy of the data, with four allocations.
    pub fn reserve(
        &mut self,
        alloc: Global,
        head: usize,
        tail: usize,
        mint: &mut Mint,
    ) -> Result<Option<Back<O>>, AllocError>
        ensures enough { IfOk result (λ b. IsNone b ↔ HasRoom head tail self.old) }
        ensures stays { IfOk result (λ b. IfNone b ((self.new ≡ self.old) × (mint.new ≡ mint.old))) }
        ensures window { IfOk result (λ b. IfSome b (λ _. MakesRoom mint.old mint.new head tail self.old self.new)) }
        ensures room { HasRoom head tail self.old → result ≡ Ok None }
        ensures back { IfOk result (λ b. IfSome b (GivesBack O.runs O.last (hold_of self.old))) }
        ensures refused { OnErr result ((self.new ≡ self.old) × (mint.new ≡ mint.old)) }
        ensures totals { KeepsFor mint.old mint.new self.old (held self.new.share ∷ answered result) }
    {
        let before = self.headroom();
        let after = self.tailroom();
        if head <= before && tail <= after {
            return Ok(None);
        }
        match self.widen(alloc, head, tail, mint) {
            Ok(back) => Ok(Some(back)),
            Err(e) => Err(e),
        }
    }

    // Copies the data to a new storage with these rooms.
    fn widen(
        &mut self,
        alloc: Global,
        head: usize,
        tail: usize,
        mint: &mut Mint,
    ) -> Result<Back<O>, AllocError>
        ensures window { OnOk result (MakesRoom mint.old mint.new head tail self.old self.new) }
        ensures back { IfOk result (GivesBack O.runs O.last (hold_of self.old)) }
        ensures refused { OnErr result ((self.new ≡ self.old) × (mint.new ≡ mint.old)) }
        ensures totals { IfOk result (λ back. KeepsTotals (held self.old.share ∷ []) (stakes_of back)) }
    {
        let len = self.length();
        let Some(most) = head.checked_add(len) else {
            return Err(AllocError);
        };
        if most.checked_add(tail).is_none() {
            return Err(AllocError);
        }
        match roomed(alloc, self.bytes(), head, tail, mint) {
            Ok(hold) => Ok(self.renew(on(hold, head, len))),
            Err(e) => Err(e),
        }
    }

    // Puts another node here, and gives this one back.
    fn renew(&mut self, node: IoBufOf<W, O>) -> Back<O>
        ensures window { self.new ≡ node }
        ensures back { GivesBack O.runs O.last (hold_of self.old) result }
        ensures totals { KeepsTotals (held self.old.share ∷ []) (stakes_of result) }
    {
        mem::replace(self, node).give_back()
    }

    // Moves to a copy of the whole block.
    fn move_out(&mut self, alloc: Global, mint: &mut Mint) -> Result<Option<Back<O>>, AllocError>
        ensures some { IfOk result (λ b. IsSome b) }
        ensures window { OnOk result (MovesOut mint.old mint.new self.old self.new) }
        ensures back { IfOk result (λ b. IfSome b (GivesBack O.runs O.last (hold_of self.old))) }
        ensures refused { OnErr result ((self.new ≡ self.old) × (mint.new ≡ mint.old)) }
        ensures totals { KeepsFor mint.old mint.new self.old (held self.new.share ∷ answered result) }
    {
        match self.duplicate(alloc, mint) {
            Ok(node) => Ok(Some(self.renew(node))),
            Err(e) => Err(e),
        }
    }

    /// Leaves a shared storage: where a look finds that others may hold it, or where it is wrapped, the whole block
    /// is copied to a new storage, rooms too, and the old one is given back.
    pub fn unshare_one(
        &mut self,
        alloc: Global,
        mint: &mut Mint,
    ) -> Result<Option<Back<O>>, AllocError>
        ensures stays { IfOk result (λ b. IfNone b (StaysSole self.old self.new × (mint.new ≡ mint.old))) }
        ensures whole { IsWhole self.old.share → result ≡ Ok None }
        ensures alone { IsAlone self.old.share → result ≡ Ok None }
        ensures window { IfOk result (λ b. IfSome b (λ _. MovesOut mint.old mint.new self.old self.new)) }
        ensures back { IfOk result (λ b. IfSome b (GivesBack O.runs O.last (hold_of self.old))) }
        ensures refused { OnErr result (StaysShared self.old self.new × (mint.new ≡ mint.old)) }
        ensures totals { KeepsFor mint.old mint.new self.old (held self.new.share ∷ answered result) }
    {
        match self.standing() {
            Standing::Sole => Ok(None),
            Standing::Shared { .. } => self.move_out(alloc, mint),
        }
    }

    /// The same without a look: the block is copied exactly where the node isn't whole.
    pub fn unshare_known(
        &mut self,
        alloc: Global,
        mint: &mut Mint,
    ) -> Result<Option<Back<O>>, AllocError>
        ensures known { IfOk result (λ b. IsNone b ↔ IsWhole self.old.share) }
        ensures whole { IsWhole self.old.share → result ≡ Ok None }
        ensures stays { IfOk result (λ b. IfNone b ((self.new ≡ self.old) × (mint.new ≡ mint.old))) }
        ensures window { IfOk result (λ b. IfSome b (λ _. MovesOut mint.old mint.new self.old self.new)) }
        ensures back { IfOk result (λ b. IfSome b (GivesBack O.runs O.last (hold_of self.old))) }
        ensures refused { OnErr result ((self.new ≡ self.old) × (mint.new ≡ mint.old)) }
        ensures totals { KeepsFor mint.old mint.new self.old (held self.new.share ∷ answered result) }
    {
        if self.whole() {
            return Ok(None);
        }
        self.move_out(alloc, mint)
    }
}
