//! Holds on storages and on borrowed bytes.
ghost use Rattle.std.specs.Prelude.{◌≡◌, ◌+◌, ◌≤◌, ◌↔◌, List, [], ◌∷◌, Option, Some, None, IsTrue, IsOk, IfOk, IfErr, OnErr, OnOk, MatchResult, replicate};
ghost use Rattle.buffer_model.specs.Share.{IsShare, IsWhole, IsAlone, IsOfStorage, wrapped, absorbed_in, own, user, lent, tagged};
ghost use Rattle.buffer_model.specs.Stake.{held, counted, KeepsTotals};
ghost use Rattle.storage.specs.Made.{Makes};
ghost use Rattle.storage.specs.Looks.{Stands, Claims};
ghost use Rattle.storage.specs.Back.{GivesBack, stakes_of};

use crate::back::{Back, Receipt};
use crate::managed::Managed;
use crate::release::{NoOwner, Release, Told};
use relay_ports::Lent;
use share_count::{Mint, Standing};
use std::alloc::{AllocError, Global};
use std::fmt;
use std::marker::Model;
use thiserror::Error;

/// A hold on a storage, or on bytes that are only borrowed. A drop gives the hold back: at the last an owner is told,
/// but a lent block and a tag go nowhere, and the receipt is lost. Contracts see the bytes of the block and what the
/// hold has of the storage.
#[derive(Drop)]
pub struct Hold<'a, O: Told = NoOwner> {
    wrapped: Option<&'a [u8]>,
    managed: Managed<O>,
}

impl<'a, O: Told> Model for Hold<'a, O> {
    ghost use Rattle.buffer_model.specs.Share.{Held};

    ghost Value = { Held O };

    ghost use Rattle.storage.specs.Held.{held_on};

    ghost view = { λ h. held_on h.wrapped h.managed };
}

/// Why a hold may not be written.
#[derive(Debug, Clone, Copy, PartialEq, Eq, Error)]
pub enum Barred {
    /// Others may hold the storage: the weight of all live holds as it was found.
    #[error("others may hold the storage: the weight that was found is {found}")]
    SharedNow { found: u64 },
    /// The bytes are only borrowed.
    #[error("the bytes are only borrowed")]
    Unmanaged,
}

impl<O: Told> Hold<'static, O> {
    /// A new storage of `cap` zero bytes. O(cap). Four allocations: the block, and three for its count.
    pub fn own(alloc: Global, cap: usize, mint: &mut Mint) -> Result<Hold<'static, O>, AllocError>
        ensures hold { IfOk result (Makes mint.old mint.new own (replicate cap 0)) }
        ensures refused { OnErr result (mint.new ≡ mint.old) }
    {
        match Managed::own(alloc, cap, mint) {
            Ok(managed) => Ok(on(managed)),
            Err(e) => Err(e),
        }
    }

    /// A new storage of these bytes, where they are, whose owner is told when it ends. No copy, three allocations for
    /// the count. At want of memory both are handed back.
    pub fn user(
        alloc: Global,
        bytes: Vec<u8>,
        owner: O,
        mint: &mut Mint,
    ) -> Result<Hold<'static, O>, (Vec<u8>, O)>
        ensures hold { IfOk result (Makes mint.old mint.new (user owner) bytes.items) }
        ensures refused { IfErr result (λ back. back ≡ (bytes, owner)) }
        ensures refused_mint { OnErr result (mint.new ≡ mint.old) }
    {
        match Managed::user(alloc, bytes, owner, mint) {
            Ok(managed) => Ok(on(managed)),
            Err(back) => Err(back),
        }
    }

    /// A new storage of a lent block's bytes, where they are. No copy, three allocations for the count. At want of
    /// memory the block is handed back.
    pub fn lent(alloc: Global, block: Lent, mint: &mut Mint) -> Result<Hold<'static, O>, Lent>
        ensures hold { IfOk result (Makes mint.old mint.new (lent block.number) block.bytes.items) }
        ensures refused { IfErr result (λ b. b ≡ block) }
        ensures refused_mint { OnErr result (mint.new ≡ mint.old) }
    {
        match Managed::lent(alloc, block, mint) {
            Ok(managed) => Ok(on(managed)),
            Err(block) => Err(block),
        }
    }

    /// A new storage of these bytes, where they are, which answers the tag when it ends. No copy, three allocations
    /// for the count. At want of memory the bytes are handed back.
    pub fn tagged(
        alloc: Global,
        bytes: Vec<u8>,
        tag: u32,
        mint: &mut Mint,
    ) -> Result<Hold<'static, O>, Vec<u8>>
        ensures hold { IfOk result (Makes mint.old mint.new (tagged tag) bytes.items) }
        ensures refused { IfErr result (λ b. b ≡ bytes) }
        ensures refused_mint { OnErr result (mint.new ≡ mint.old) }
    {
        match Managed::tagged(alloc, bytes, tag, mint) {
            Ok(managed) => Ok(on(managed)),
            Err(bytes) => Err(bytes),
        }
    }
}

// The hold that is managed so.
fn on<O: Told>(managed: Managed<O>) -> Hold<'static, O>
    ensures { result ≡ managed }
{
    Hold {
        wrapped: None,
        managed,
    }
}

impl<'a, O: Told> Hold<'a, O> {
    ghost use Rattle.std.specs.Borrow.{sem};
    ghost use Rattle.storage.specs.Held.{with_share, SharesAs};
    ghost use Rattle.storage.specs.HoldLends.{lends_bytes};

    /// A hold on bytes that stay where they are. O(1), and no memory.
    pub fn wrap(bytes: &'a [u8]) -> Hold<'a, O>
        ensures { result ≡ record { bytes = bytes.now; share = wrapped } }
    {
        Hold {
            wrapped: Some(bytes),
            managed: Managed::none(),
        }
    }

    /// The number of the storage. Wrapped bytes have none.
    pub fn number(&self) -> Option<u64>
        ensures number { result ≡ self.now.share.number }
        ensures share { IsShare self.now.share }
    {
        match self.wrapped {
            Some(_) => None,
            None => self.managed.number(),
        }
    }

    /// The hold's own weight, of 2^62 in all, and 0 for wrapped bytes.
    pub fn weight(&self) -> u64
        ensures weight { result ≡ self.now.share.weight }
        ensures share { IsShare self.now.share }
    {
        match self.wrapped {
            Some(_) => 0,
            None => self.managed.weight(),
        }
    }

    /// Whether the hold has all weight of its storage. Takes no look at the count.
    pub fn whole(&self) -> bool
        ensures whole { IsTrue result ↔ IsWhole self.now.share }
        ensures share { IsShare self.now.share }
    {
        self.wrapped.is_none() && self.managed.whole()
    }

    /// Looks whether others hold the storage, by one load of its count. Wrapped bytes always stand as `Shared {
    /// found: 0 }`.
    pub fn standing(&mut self) -> Standing
        ensures bytes { self.new ≡ with_share self.old self.new.share }
        ensures found { Stands self.old.share self.new.share result }
        ensures whole { IsWhole self.old.share → result ≡ Standing.Sole }
        ensures alone { IsAlone self.old.share → result ≡ Standing.Sole }
    {
        if self.wrapped.is_some() {
            return Standing::Shared { found: 0 };
        }
        self.managed.standing()
    }

    /// The bytes of the block.
    pub fn bytes(&self) -> &[u8]
        ensures { result.now ≡ self.now.bytes }
    {
        match self.wrapped {
            Some(bytes) => bytes,
            None => self.managed.bytes(),
        }
    }

    /// Claims the storage for writing, where a look finds that nobody else holds it: `bytes_mut` may then be called
    /// until the next share. No memory.
    pub fn write(&mut self) -> Result<(), Barred>
        ensures bytes { self.new ≡ with_share self.old self.new.share }
        ensures claim { Claims self.old.share self.new.share result }
        ensures whole { IsWhole self.old.share → IsOk result }
        ensures alone { IsAlone self.old.share → IsOk result }
    {
        if self.wrapped.is_some() {
            return Err(Barred::Unmanaged);
        }
        self.managed.write()
    }

    /// The bytes of the block, for writing. Takes no look.
    pub fn bytes_mut(&mut self) -> &mut [u8]
        requires { IsAlone self.old.share }
        ensures* lends { sem 𝓛 (lends_bytes O.row self.entry result) }
        ensures value { result.now ≡ self.old.bytes }
    {
        self.managed.bytes_mut()
    }

    /// A second hold with the same bytes. On a storage it has a part of the weight: `max(1, min(w / 1024, 2^40))` of
    /// the weight w, and `Ok(None)` comes exactly at weight 1. Wrapped bytes always share, without memory.
    pub fn share(&mut self) -> Result<Option<Hold<'a, O>>, AllocError>
        ensures shares { IfOk result (SharesAs self.old self.new) }
        ensures wrapped { self.old.share.number ≡ None → IsOk result }
        ensures refused { OnErr result (self.new ≡ self.old) }
    {
        if self.wrapped.is_some() {
            return Ok(Some(Hold {
                wrapped: self.wrapped,
                managed: Managed::none(),
            }));
        }
        match self.managed.share() {
            Ok(Some(managed)) => Ok(Some(Hold {
                wrapped: None,
                managed,
            })),
            Ok(None) => Ok(None),
            Err(e) => Err(e),
        }
    }

    /// Takes a receipt of the storage in. Its weight counts as this hold's from then on. No memory.
    pub fn absorb(&mut self, receipt: Receipt<O>)
        requires { IsOfStorage self.old.share receipt }
        ensures lasts { receipt.lasts ≡ 0 }
        ensures hold { self.new ≡ with_share self.old (absorbed_in receipt.weight self.old.share) }
        ensures totals { KeepsTotals (held self.old.share ∷ counted receipt ∷ []) (held self.new.share ∷ []) }
    {
        self.managed.absorb(receipt);
    }
}

impl<'a, O: Release> Hold<'a, O> {
    /// Gives the hold back. At the last the storage is released by its way. No memory.
    pub fn give_back(self) -> Back<O>
        ensures back { GivesBack O.runs O.last self.entry result }
        ensures nothing { (result ≡ Back.Nothing) ↔ (self.entry.share.number ≡ None) }
        ensures totals { KeepsTotals (held self.entry.share ∷ []) (stakes_of result) }
    {
        let Hold { wrapped, managed } = self;
        match wrapped {
            Some(_) => Back::Nothing,
            None => managed.give_back(),
        }
    }
}

impl<'a, O: Told> fmt::Debug for Hold<'a, O> {
    fn fmt<W: fmt::Write>(&self, f: &mut fmt::Formatter<W>) -> fmt::Result {
        write!(
            f,
            "Hold {{ number: {:?}, weight: {}, bytes: {} }}",
            self.number(),
            self.weight(),
            self.bytes().len()
        )
    }
}
