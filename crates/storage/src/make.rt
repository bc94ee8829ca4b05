//! How storages are made.
ghost use Rattle.std.specs.Prelude.{◌≡◌, List, [], ◌∷◌, ◌++◌, IsTrue, Ok, Err, IfOk, IfErr, OnErr, OnOk, MatchResult, replicate, length};
ghost use Rattle.std.specs.Borrow.{sem};
ghost use Rattle.buffer_model.specs.Share.{own, user, lent, tagged};
ghost use Rattle.storage.specs.Stored.{way_of, held_by};
ghost use Rattle.storage.specs.Made.{Makes, IsMade};

use crate::managed::Managed;
use crate::release::Told;
use crate::stored::{Stored, Way};
use crate::untold::Untold;
use raw_block::Block;
use relay_ports::Lent;
use share_count::{Mint, Unit, make};
use std::alloc::{AllocError, Global};
use std::mem;

impl<O: Told> Managed<O> {
    /// A new storage of `cap` zero bytes. O(cap). Four allocations: the block, and three for its count.
    pub fn own(alloc: Global, cap: usize, mint: &mut Mint) -> Result<Managed<O>, AllocError>
        ensures hold { IfOk result (Makes mint.old mint.new own (replicate cap 0)) }
        ensures refused { OnErr result (mint.new ≡ mint.old) }
    {
        hold_on(alloc, Stored::own(Block::new(alloc, cap)?), mint)
    }

    /// A new storage of a copy of some bytes. One copy. Four allocations: the block, and three for its count.
    pub fn copy(alloc: Global, bytes: &[u8], mint: &mut Mint) -> Result<Managed<O>, AllocError>
        ensures hold { IfOk result (Makes mint.old mint.new own bytes.now) }
        ensures refused { OnErr result (mint.new ≡ mint.old) }
    {
        let block = Block::from_vec(Vec::from_slice(alloc, bytes)?);
        hold_on(alloc, Stored::own(block), mint)
    }

    /// A new storage of these bytes, where they are, whose owner is told when it ends. No copy, three allocations for
    /// the count. At want of memory both are handed back.
    pub fn user(
        alloc: Global,
        bytes: Vec<u8>,
        owner: O,
        mint: &mut Mint,
    ) -> Result<Managed<O>, (Vec<u8>, O)>
        ensures hold { IfOk result (Makes mint.old mint.new (user owner) bytes.items) }
        ensures refused { IfErr result (λ back. back ≡ (bytes, owner)) }
        ensures refused_mint { OnErr result (mint.new ≡ mint.old) }
    {
        let Ok(unit) = empty(alloc, mint) else {
            return Err((bytes, owner));
        };
        Ok(filled(
            unit,
            Stored {
                block: Block::from_vec(bytes),
                way: Way::User(Untold::new(owner)),
            },
        ))
    }

    /// A new storage of a lent block's bytes, where they are. No copy, three allocations for the count. At want of
    /// memory the block is handed back.
    pub fn lent(alloc: Global, block: Lent, mint: &mut Mint) -> Result<Managed<O>, Lent>
        ensures hold { IfOk result (Makes mint.old mint.new (lent block.number) block.bytes.items) }
        ensures refused { IfErr result (λ b. b ≡ block) }
        ensures refused_mint { OnErr result (mint.new ≡ mint.old) }
    {
        let Ok(unit) = empty(alloc, mint) else {
            return Err(block);
        };
        let Lent { number, bytes } = block;
        Ok(filled(
            unit,
            Stored {
                block: Block::from_vec(bytes),
                way: Way::Lent(number),
            },
        ))
    }

    /// A new storage of these bytes, where they are, which answers the tag when it ends. No copy, three allocations
    /// for the count. At want of memory the bytes are handed back.
    pub fn tagged(
        alloc: Global,
        bytes: Vec<u8>,
        tag: u32,
        mint: &mut Mint,
    ) -> Result<Managed<O>, Vec<u8>>
        ensures hold { IfOk result (Makes mint.old mint.new (tagged tag) bytes.items) }
        ensures refused { IfErr result (λ b. b ≡ bytes) }
        ensures refused_mint { OnErr result (mint.new ≡ mint.old) }
    {
        let Ok(unit) = empty(alloc, mint) else {
            return Err(bytes);
        };
        Ok(filled(
            unit,
            Stored {
                block: Block::from_vec(bytes),
                way: Way::Tagged(tag),
            },
        ))
    }
}

impl<O: Told> Stored<O> {
    // A block that is dropped at its end.
    fn own(block: Block) -> Stored<O>
        ensures { result ≡ record { block = block; way = Way.Own } }
    {
        Stored {
            block,
            way: Way::Own,
        }
    }
}

// A hold on a new storage.
fn hold_on<O: Told>(
    alloc: Global,
    stored: Stored<O>,
    mint: &mut Mint,
) -> Result<Managed<O>, AllocError>
    ensures hold { IfOk result (Makes mint.old mint.new (way_of stored.way) stored.block) }
    ensures refused { OnErr result (mint.new ≡ mint.old) }
{
    match make(alloc, stored, mint) {
        Ok(unit) => Ok(Managed { unit: Some(unit) }),
        Err(stored) => {
            drop(stored);
            Err(AllocError)
        }
    }
}

// A unit with a storage of no bytes, which is yet to be filled: so that nothing is handed over before the memory is
// there.
fn empty<O: Told>(alloc: Global, mint: &mut Mint) -> Result<Unit<Stored<O>>, AllocError>
    ensures unit { IfOk result (λ u. IsMade mint.old mint.new u) }
    ensures refused { OnErr result (mint.new ≡ mint.old) }
{
    match make(alloc, Stored::own(Block::from_vec(Vec::new(alloc))), mint) {
        Ok(unit) => Ok(unit),
        Err(stored) => {
            drop(stored);
            Err(AllocError)
        }
    }
}

// The hold of a unit whose storage this is from now on.
fn filled<O: Told>(mut unit: Unit<Stored<O>>, stored: Stored<O>) -> Managed<O>
    requires { IsTrue unit.alone }
    ensures { result ≡ held_by (record unit { payload = stored }) }
{
    drop(mem::replace(unit.alone_mut(), stored));
    Managed { unit: Some(unit) }
}
