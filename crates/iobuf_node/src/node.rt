//! Nodes.
ghost use Rattle.std.specs.Prelude.{◌≡◌, ◌+◌, ◌-◌, ◌≤◌, ◌<◌, ◌^◌, ◌↔◌, List, [], ◌∷◌, Option, Some, None, IsTrue, IsOk, IfOk, IfErr, length};
ghost use Rattle.buffer_model.specs.Share.{IsShare, IsWhole, IsManaged, IsAlone, IsOfStorage, wrapped, claimed, absorbed_in};
ghost use Rattle.buffer_model.specs.Segment.{Segment, whole_window, trimmed_start, trimmed_end, appended, prepended, block_of, hold_of, shared_as};
ghost use Rattle.buffer_model.specs.Stake.{held, counted, KeepsTotals};
ghost use Rattle.storage.specs.Back.{GivesBack, stakes_of};
ghost use Rattle.storage.specs.Looks.{Stands, Claims, Bars};

use crate::mine::Mine;
use crate::wrapped::Wrapped;
use share_count::Standing;
use std::fmt;
use std::marker::Model;
use storage::{Back, Barred, Managed, NoOwner, Receipt, Release, Told};

/// A window on a block: some bytes, with the room before and after them. A drop gives the node's storage back: at the
/// last an owner is told, but a lent block and a tag go nowhere, and the receipt is lost. Contracts see the three
/// lists, and what the node has of the storage. `W` are the bytes that the node may wrap: a borrowed slice, in `IoBuf`.
#[derive(Drop)]
pub struct IoBufOf<W: Wrapped, O: Told> {
    pub(crate) wrapped: Option<W>,
    pub(crate) window: Mine<O>,
}

/// A node that may wrap a borrowed slice.
pub type IoBuf<'a, O = NoOwner> = IoBufOf<&'a [u8], O>;

impl<W: Wrapped, O: Told> Model for IoBufOf<W, O> {
    ghost use Rattle.buffer_model.specs.Segment.{Segment};

    ghost Value = { Segment O };

    ghost use Rattle.iobuf_node.specs.Mine.{shown};

    ghost view = { λ n. shown W.bytes n.wrapped n.window };
}

impl<'a, O: Told> IoBuf<'a, O> {
    /// A node on bytes that stay where they are, all of them data. O(1), and no memory.
    pub fn wrap(bytes: &'a [u8]) -> IoBuf<'a, O>
        ensures { result ≡ whole_window bytes.now wrapped }
    {
        let len = bytes.len();
        IoBuf {
            wrapped: Some(bytes),
            window: Mine {
                hold: Managed::none(),
                start: 0,
                len,
            },
        }
    }
}

impl<W: Wrapped, O: Told> IoBufOf<W, O> {
    ghost use Rattle.iobuf_node.specs.Mine.{size};

    /// A node without bytes and without a storage. O(1), and no memory.
    #[inline(always)]
    pub fn empty() -> IoBufOf<W, O>
        ensures { result ≡ whole_window [] wrapped }
    {
        IoBufOf {
            wrapped: None,
            window: Mine {
                hold: Managed::none(),
                start: 0,
                len: 0,
            },
        }
    }

    /// All bytes of the block: both rooms, with the data between them.
    #[inline(always)]
    pub fn block(&self) -> &[u8]
        ensures { result.now ≡ block_of self.now }
    {
        match &self.wrapped {
            Some(wrapped) => wrapped.as_bytes(),
            None => self.window.hold.bytes(),
        }
    }

    /// The data.
    #[inline(always)]
    pub fn bytes(&self) -> &[u8]
        ensures { result.now ≡ self.now.window }
    {
        let start = self.headroom();
        let end = start + self.length();
        &self.block()[start..end]
    }

    /// How many bytes of data there are.
    #[inline(always)]
    pub fn length(&self) -> usize
        ensures { result ≡ length self.now.window }
    {
        let rest = self.block().len() - self.headroom();
        self.window.len.min(rest)
    }

    /// How many bytes lie before the data.
    #[inline(always)]
    pub fn headroom(&self) -> usize
        ensures value { result ≡ length self.now.before }
        ensures fits { size self.now < 2 ^ 64 }
    {
        self.window.start.min(self.block().len())
    }

    /// How many bytes lie after the data.
    #[inline(always)]
    pub fn tailroom(&self) -> usize
        ensures { result ≡ length self.now.after }
    {
        self.block().len() - self.headroom() - self.length()
    }

    /// How many bytes the block has.
    pub fn capacity(&self) -> usize
        ensures { result ≡ length (block_of self.now) }
    {
        self.block().len()
    }

    /// The number of the storage. A wrapped node has none.
    #[inline(always)]
    pub fn number(&self) -> Option<u64>
        ensures number { result ≡ self.now.share.number }
        ensures share { IsShare self.now.share }
    {
        match self.wrapped {
            Some(_) => None,
            None => self.window.hold.number(),
        }
    }

    /// The node's own weight, of 2^62 in all, and 0 for a wrapped node.
    #[inline(always)]
    pub fn weight(&self) -> u64
        ensures weight { result ≡ self.now.share.weight }
        ensures share { IsShare self.now.share }
    {
        match self.wrapped {
            Some(_) => 0,
            None => self.window.hold.weight(),
        }
    }

    /// Whether the node has all weight of its storage. Takes no look at the count.
    pub fn whole(&self) -> bool
        ensures whole { IsTrue result ↔ IsWhole self.now.share }
        ensures share { IsShare self.now.share }
    {
        self.wrapped.is_none() && self.window.hold.whole()
    }

    /// Leaves the first `n` bytes of the data to the room before it. O(1), and no memory.
    #[inline(always)]
    pub fn trim_start(&mut self, n: usize)
        requires { n ≤ length self.old.window }
        ensures window { self.new ≡ trimmed_start n self.old }
        ensures totals { KeepsTotals (held self.old.share ∷ []) (held self.new.share ∷ []) }
    {
        let start = self.headroom();
        let len = self.length();
        let _tail = self.tailroom();
        self.window.start = start + n;
        self.window.len = len - n;
    }

    /// Leaves the last `n` bytes of the data to the room after it. O(1), and no memory.
    #[inline(always)]
    pub fn trim_end(&mut self, n: usize)
        requires { n ≤ length self.old.window }
        ensures window { self.new ≡ trimmed_end n self.old }
        ensures totals { KeepsTotals (held self.old.share ∷ []) (held self.new.share ∷ []) }
    {
        let start = self.headroom();
        let len = self.length();
        self.window.start = start;
        self.window.len = len - n;
    }

    /// Takes the next `n` bytes behind the data in. O(1), and no memory.
    pub fn append(&mut self, n: usize)
        requires { n ≤ length self.old.after }
        ensures window { self.new ≡ appended n self.old }
        ensures totals { KeepsTotals (held self.old.share ∷ []) (held self.new.share ∷ []) }
    {
        let start = self.headroom();
        let len = self.length();
        let _room = self.tailroom();
        self.window.start = start;
        self.window.len = len + n;
    }

    /// Takes the `n` bytes before the data in. O(1), and no memory.
    pub fn prepend(&mut self, n: usize)
        requires { n ≤ length self.old.before }
        ensures window { self.new ≡ prepended n self.old }
        ensures totals { KeepsTotals (held self.old.share ∷ []) (held self.new.share ∷ []) }
    {
        let start = self.headroom();
        let len = self.length();
        self.window.start = start - n;
        self.window.len = len + n;
    }
}

impl<W: Wrapped, O: Told> IoBufOf<W, O> {
    ghost use Rattle.std.specs.Borrow.{sem};
    ghost use Rattle.iobuf_node.specs.Mine.{seen};
    ghost use Rattle.iobuf_node.specs.NodeLends.{lends_mine, lends_alone, refused_by};

    /// Lends the window for writing, where a look finds that nobody else holds the node's storage. No memory.
    pub fn mine(&mut self) -> Result<&mut Mine<O>, Barred>
        ensures* lends { sem 𝓛 (lends_mine W.row O.row W.Wrapped self.entry result) }
        ensures window { IfOk result (λ m. seen m.now ≡ shared_as (claimed self.old.share) self.old) }
        ensures alone { IfOk result (λ m. IsAlone (seen m.now).share) }
        ensures totals { IfOk result (λ m. KeepsTotals (held self.old.share ∷ []) (held (seen m.now).share ∷ [])) }
        ensures managed { IsOk result → IsManaged self.old.share }
        ensures barred { IfErr result (λ reason. Bars self.old.share (refused_by reason self.old.share) reason) }
        ensures whole { IsWhole self.old.share → IsOk result }
        ensures already { IsAlone self.old.share → IsOk result }
    {
        self.claim()?;
        Ok(&mut self.window)
    }

    /// Lends the window of a node that is alone for writing. Takes no look and no memory.
    pub fn alone_mut(&mut self) -> &mut Mine<O>
        requires { IsAlone self.old.share }
        ensures* lends { sem 𝓛 (lends_alone W.row O.row W.Wrapped self.entry result) }
        ensures window { seen result.now ≡ self.old }
    {
        &mut self.window
    }

    // Claims the storage for writing, by one look.
    fn claim(&mut self) -> Result<(), Barred>
        ensures lists { self.new ≡ shared_as self.new.share self.old }
        ensures claim { Claims self.old.share self.new.share result }
        ensures whole { IsWhole self.old.share → IsOk result }
        ensures already { IsAlone self.old.share → IsOk result }
    {
        if self.wrapped.is_some() {
            return Err(Barred::Unmanaged);
        }
        self.window.hold.write()
    }

    // Looks whether others hold the storage. Wrapped bytes always stand as shared.
    pub(crate) fn standing(&mut self) -> Standing
        ensures lists { self.new ≡ shared_as self.new.share self.old }
        ensures found { Stands self.old.share self.new.share result }
        ensures whole { IsWhole self.old.share → result ≡ Standing.Sole }
        ensures alone { IsAlone self.old.share → result ≡ Standing.Sole }
    {
        if self.wrapped.is_some() {
            return Standing::Shared { found: 0 };
        }
        self.window.hold.standing()
    }

    /// Takes a receipt of the node's storage in. Its weight counts as this node's from then on. No memory.
    pub fn absorb(&mut self, receipt: Receipt<O>)
        requires { IsOfStorage self.old.share receipt }
        ensures lasts { receipt.lasts ≡ 0 }
        ensures window { self.new ≡ shared_as (absorbed_in receipt.weight self.old.share) self.old }
        ensures totals { KeepsTotals (held self.old.share ∷ counted receipt ∷ []) (held self.new.share ∷ []) }
    {
        self.window.hold.absorb(receipt);
    }
}

impl<W: Wrapped, O: Release> IoBufOf<W, O> {
    /// Gives the node's storage back, as a hold does. No memory.
    pub fn give_back(self) -> Back<O>
        ensures back { GivesBack O.runs O.last (hold_of self) result }
        ensures nothing { (result ≡ Back.Nothing) ↔ (self.share.number ≡ None) }
        ensures totals { KeepsTotals (held self.share ∷ []) (stakes_of result) }
    {
        let IoBufOf { wrapped, window } = self;
        let Mine { hold, .. } = window;
        match wrapped {
            Some(_) => Back::Nothing,
            None => hold.give_back(),
        }
    }
}

impl<W: Wrapped, O: Told> fmt::Debug for IoBufOf<W, O> {
    fn fmt<F: fmt::Write>(&self, f: &mut fmt::Formatter<F>) -> fmt::Result {
        write!(
            f,
            "IoBuf {{ number: {:?}, headroom: {}, length: {}, tailroom: {} }}",
            self.number(),
            self.headroom(),
            self.length(),
            self.tailroom()
        )
    }
}
