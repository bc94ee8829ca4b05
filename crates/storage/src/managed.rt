//! Holds on storages that are managed.
ghost use Rattle.std.specs.Prelude.{◌≡◌, ◌+◌, ◌≤◌, ◌↔◌, List, [], ◌∷◌, Option, Some, None, IsTrue, IsOk, IfOk, OnErr, length, slice_range};
ghost use Rattle.std.specs.List.{copy_within};
ghost use Rattle.buffer_model.specs.Share.{IsShare, IsWhole, IsAlone, IsOfStorage, wrapped, absorbed_in};
ghost use Rattle.buffer_model.specs.Stake.{held, counted, KeepsTotals};
ghost use Rattle.storage.specs.Looks.{Stands, Claims};
ghost use Rattle.storage.specs.Back.{GivesBack, stakes_of};
ghost use Rattle.std.specs.Borrow.{sem};
ghost use Rattle.storage.specs.UnitLends.{lends_unit_block};

use crate::back::{Back, Receipt};
use crate::hold::Barred;
use crate::release::{NoOwner, Release, Told};
use crate::stored::Stored;
use raw_block::Block;
use share_count::{Given, Standing, Unit};
use std::alloc::AllocError;
use std::marker::Model;

/// A hold on a storage, or on none. Contracts see the bytes of the block and what the hold has of the storage.
#[derive(Drop)]
pub struct Managed<O: Told = NoOwner> {
    pub(crate) unit: Option<Unit<Stored<O>>>,
}

impl<O: Told> Model for Managed<O> {
    ghost use Rattle.buffer_model.specs.Share.{Held};

    ghost Value = { Held O };

    ghost use Rattle.storage.specs.Stored.{held_in};

    ghost view = { λ m. held_in m.unit };
}

impl<O: Told> Managed<O> {
    ghost use Rattle.storage.specs.Held.{with_bytes, with_share, SharesAs};
    ghost use Rattle.storage.specs.ManagedLends.{lends_block, lends_bytes, lends_span};

    /// A hold on no storage, with no bytes. O(1), and no memory.
    #[inline(always)]
    pub fn none() -> Managed<O>
        ensures { result ≡ record { bytes = []; share = wrapped } }
    {
        Managed { unit: None }
    }

    /// The number of the storage. It has none where there is no storage.
    #[inline(always)]
    pub fn number(&self) -> Option<u64>
        ensures number { result ≡ self.now.share.number }
        ensures none { self.now.share.number ≡ None → self.now ≡ record { bytes = []; share = wrapped } }
        ensures share { IsShare self.now.share }
    {
        match &self.unit {
            None => None,
            Some(unit) => {
                let _ = unit.weight();
                Some(unit.number())
            }
        }
    }

    /// The hold's own weight, of 2^62 in all, and 0 where there is no storage.
    #[inline(always)]
    pub fn weight(&self) -> u64
        ensures weight { result ≡ self.now.share.weight }
        ensures share { IsShare self.now.share }
    {
        match &self.unit {
            None => 0,
            Some(unit) => unit.weight(),
        }
    }

    /// Whether the hold has all weight of its storage. Takes no look at the count.
    #[inline(always)]
    pub fn whole(&self) -> bool
        ensures whole { IsTrue result ↔ IsWhole self.now.share }
        ensures share { IsShare self.now.share }
    {
        match &self.unit {
            None => false,
            Some(unit) => {
                let _ = unit.weight();
                unit.whole()
            }
        }
    }

    /// Looks whether others hold the storage, by one load of its count. Without a storage it stands as `Shared {
    /// found: 0 }`.
    pub fn standing(&mut self) -> Standing
        ensures bytes { self.new ≡ with_share self.old self.new.share }
        ensures found { Stands self.old.share self.new.share result }
        ensures whole { IsWhole self.old.share → result ≡ Standing.Sole }
        ensures alone { IsAlone self.old.share → result ≡ Standing.Sole }
    {
        match &mut self.unit {
            None => Standing::Shared { found: 0 },
            Some(unit) => unit.look(),
        }
    }

    /// Claims the storage for writing, where a look finds that nobody else holds it: until the next share, its bytes
    /// may then be written. No memory.
    pub fn write(&mut self) -> Result<(), Barred>
        ensures bytes { self.new ≡ with_share self.old self.new.share }
        ensures claim { Claims self.old.share self.new.share result }
        ensures whole { IsWhole self.old.share → IsOk result }
        ensures alone { IsAlone self.old.share → IsOk result }
    {
        match &mut self.unit {
            None => Err(Barred::Unmanaged),
            Some(unit) => match unit.claim() {
                Ok(()) => Ok(()),
                Err(found) => Err(Barred::SharedNow { found }),
            },
        }
    }

    /// The bytes of the block.
    #[inline(always)]
    pub fn bytes(&self) -> &[u8]
        ensures { result.now ≡ self.now.bytes }
    {
        match &self.unit {
            None => &[],
            Some(unit) => unit.get().block.bytes(),
        }
    }

    fn block_mut(&mut self) -> &mut Block
        requires { IsAlone self.old.share }
        ensures* lends { sem 𝓛 (lends_block O.row self.entry result) }
        ensures value { result.now ≡ self.old.bytes }
    {
        block_of(self.unit.as_mut().unwrap())
    }

    /// The bytes of the block, for writing. Takes no look.
    pub fn bytes_mut(&mut self) -> &mut [u8]
        requires { IsAlone self.old.share }
        ensures* lends { sem 𝓛 (lends_bytes O.row self.entry result) }
        ensures value { result.now ≡ self.old.bytes }
    {
        self.block_mut().bytes_mut()
    }

    /// The bytes from `start` up to `end`, for writing. Takes no look.
    pub fn span_mut(&mut self, start: usize, end: usize) -> &mut [u8]
        requires alone { IsAlone self.old.share }
        requires order { start ≤ end }
        requires within { end ≤ length self.old.bytes }
        ensures* lends { sem 𝓛 (lends_span O.row self.entry start result) }
        ensures value { result.now ≡ slice_range self.old.bytes start end }
    {
        self.block_mut().span_mut(start, end)
    }

    /// Copies `n` bytes from `from` on to `to` on. The two may overlap. Takes no look. O(n), and no memory.
    pub fn copy_within(&mut self, from: usize, to: usize, n: usize)
        requires alone { IsAlone self.old.share }
        requires source { from + n ≤ length self.old.bytes }
        requires target { to + n ≤ length self.old.bytes }
        ensures { self.new ≡ with_bytes self.old (copy_within self.old.bytes from (from + n) to) }
    {
        self.block_mut().copy_within(from, to, n);
    }

    /// A second hold on the storage, with a part of the weight: `max(1, min(w / 1024, 2^40))` of the weight w.
    /// `Ok(None)` exactly at weight 1. Without a storage the second has none either, and no memory is taken.
    #[inline(always)]
    pub fn share(&mut self) -> Result<Option<Managed<O>>, AllocError>
        ensures shares { IfOk result (SharesAs self.old self.new) }
        ensures none { self.old.share.number ≡ None → IsOk result }
        ensures refused { OnErr result (self.new ≡ self.old) }
    {
        match &mut self.unit {
            None => Ok(Some(Managed::none())),
            Some(unit) => match unit.share() {
                Ok(Some(unit)) => Ok(Some(Managed { unit: Some(unit) })),
                Ok(None) => Ok(None),
                Err(e) => Err(e),
            },
        }
    }

    /// Takes a receipt of the storage in. Its weight counts as this hold's from then on. No memory.
    pub fn absorb(&mut self, receipt: Receipt<O>)
        requires { IsOfStorage self.old.share receipt }
        ensures lasts { receipt.lasts ≡ 0 }
        ensures hold { self.new ≡ with_share self.old (absorbed_in receipt.weight self.old.share) }
        ensures totals { KeepsTotals (held self.old.share ∷ counted receipt ∷ []) (held self.new.share ∷ []) }
    {
        self.unit.as_mut().unwrap().absorb(receipt);
    }
}

// The block of a unit that is alone, for writing.
fn block_of<O: Told>(unit: &mut Unit<Stored<O>>) -> &mut Block
    requires { IsTrue unit.old.alone }
    ensures* lends { sem 𝓛 (lends_unit_block O.row unit.entry result) }
    ensures value { result.now ≡ unit.old.payload.block }
{
    &mut unit.alone_mut().block
}

impl<O: Release> Managed<O> {
    /// Gives the hold back. At the last the storage is released by its way. No memory.
    pub fn give_back(self) -> Back<O>
        ensures back { GivesBack O.runs O.last self result }
        ensures nothing { (result ≡ Back.Nothing) ↔ (self.share.number ≡ None) }
        ensures totals { KeepsTotals (held self.share ∷ []) (stakes_of result) }
    {
        let Managed { unit } = self;
        let Some(unit) = unit else {
            return Back::Nothing;
        };
        match unit.give_back() {
            Given::Last(stored, receipt) => stored.end().with(receipt),
            Given::Kept(receipt) => Back::Kept(receipt),
        }
    }
}
