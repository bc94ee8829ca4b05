//! Batches.
ghost use Rattle.std.specs.Prelude.{◌≡◌, ℕ, ◌+◌, ◌≤◌, ◌<◌, List, [], ◌∷◌, ◌++◌, ◌↔◌, IsTrue, Some, IfErr, IfOk, OnErr, OnOk, length, take, drop, slice_get};
ghost use Rattle.std.specs.List.{AllZip};
ghost use Rattle.buffer_model.specs.Segment.{bytes_of};
ghost use Rattle.buffer_model.specs.Minted.{AddsAtMost};
ghost use Rattle.buffer_model.specs.Stake.{KeepsTotalsBeside};
ghost use Rattle.iobuf_chain.specs.Accounts.{held_by};
ghost use Rattle.iobuf_chain.specs.Copies.{CopiesNoData, HasWeight, IsShareable, WithData};
ghost use Rattle.iobuf_chain.specs.Shares.{AreReturnable, ClonesEach, Regains, RejoinsEach};
ghost use Rattle.iobuf_chain.specs.Many.{Lasts, StayOn};
ghost use Rattle.iobuf_chain.specs.Lists.{Each};
ghost use Rattle.frame_batch.specs.Batches.{AreIn, chain_in, frame_in, frames_in, whole_of};

use crate::frames::Frames;
use crate::window::Window;
use crate::window_list::WindowList;
use iobuf_chain::Frame;
use share_count::Mint;
use std::alloc::{AllocError, Global};
use std::fmt;
use std::marker::Model;

/// Frames that lie in the bytes of one chain. Contracts see the chain's nodes, and the list of the frames' bytes.
#[derive(Drop)]
pub struct Batch {
    chain: Frame,
    windows: WindowList,
}

impl Model for Batch {
    ghost use Rattle.buffer_model.specs.Segment.{bytes_of};
    ghost use Rattle.frame_batch.specs.Batches.{AreIn, Batched, batched};

    ghost Value = { Batched };

    ghost view = { λ b. batched b.chain b.windows };

    ghost invariant = { λ b. AreIn (bytes_of b.chain) b.windows };
}

impl Batch {
    /// A batch of one frame, which has all bytes of the chain. O(1), and no memory.
    pub fn of(chain: Frame) -> Batch
        ensures chain { result.chain ≡ chain.entry }
        ensures frames { result.frames ≡ bytes_of chain.entry ∷ [] }
    {
        let windows = WindowList::one(whole(&chain));
        Batch { chain, windows }
    }

    /// The frames in these windows on the chain's bytes, in the order of the list. Windows may overlap, and may stand
    /// in any order; in the order of their places they are read in linear time. `Window::are_in` tests whether they lie
    /// in the chain. One allocation. At want of memory the chain is handed back.
    pub fn new(alloc: Global, chain: Frame, windows: Vec<Window>) -> Result<Batch, Frame>
        requires { AreIn (bytes_of chain) windows.items }
        ensures chain { IfOk result (λ b. b.chain ≡ chain.entry) }
        ensures frames { IfOk result (λ b. b.frames ≡ frames_in (bytes_of chain.entry) windows.items) }
        ensures refused { IfErr result (λ c. c ≡ chain.entry) }
    {
        match WindowList::new(alloc, windows) {
            Ok(windows) => Ok(Batch { chain, windows }),
            Err(_) => Err(chain),
        }
    }

    /// The same of a list that is there already. O(1), and no memory. The windows of a batch that was taken apart lie in
    /// any chain with at least as many bytes as its own has.
    pub fn from_parts(chain: Frame, windows: WindowList) -> Batch
        requires { AreIn (bytes_of chain) windows }
        ensures chain { result.chain ≡ chain.entry }
        ensures frames { result.frames ≡ frames_in (bytes_of chain.entry) windows }
    {
        Batch { chain, windows }
    }

    /// The chain, and the windows on it. O(1), and no memory.
    pub fn into_parts(self) -> (Frame, WindowList)
        ensures chain { result.0 ≡ self.chain }
        ensures frames { frames_in (bytes_of result.0) result.1 ≡ self.frames }
        ensures within { AreIn (bytes_of result.0) result.1 }
    {
        (self.chain, self.windows)
    }

    /// How many frames there are. O(1).
    #[inline(always)]
    pub fn len(&self) -> usize
        ensures { result ≡ length self.now.frames }
    {
        self.windows.len()
    }

    /// Whether there is no frame. O(1).
    pub fn is_empty(&self) -> bool
        ensures { IsTrue result ↔ (self.now.frames ≡ []) }
    {
        self.len() == 0
    }

    /// Only the first `k` frames stay. The chain keeps its bytes. O(1).
    pub fn keep_first(&mut self, k: usize)
        requires { k ≤ length self.old.frames }
        ensures { self.new ≡ record self.old { frames = take k self.old.frames } }
    {
        self.windows.keep_first(k);
    }

    /// The first `k` frames go. The chain keeps its bytes. O(1).
    pub fn drop_first(&mut self, k: usize)
        requires { k ≤ length self.old.frames }
        ensures { self.new ≡ record self.old { frames = drop k self.old.frames } }
    {
        self.windows.drop_first(k);
    }

    /// The chain in which the frames lie. It may have bytes that are in no frame.
    #[inline(always)]
    pub fn chain(&self) -> &Frame
        ensures { result.now ≡ self.now.chain }
    {
        &self.chain
    }

    /// The chain alone. O(1), but where this was the last to have the list of windows that list is freed.
    pub fn into_chain(self) -> Frame
        ensures { result ≡ self.chain }
    {
        self.chain
    }

    /// Where frame `i` lies. O(1).
    #[inline(always)]
    pub fn window(&self, i: usize) -> Window
        requires { i < length self.now.frames }
        ensures frame { slice_get self.now.frames i ≡ Some (frame_in (bytes_of self.now.chain) result) }
        ensures within { result.place + result.size ≤ length (bytes_of self.now.chain) }
    {
        self.windows.window(i)
    }

    /// The frames in these windows take the place of those that were there; the chain stays. For a stage that drops
    /// frames, or bytes at their ends. One allocation. Shares of this batch keep their own frames. At want of memory
    /// all stays.
    pub fn set_windows(&mut self, alloc: Global, windows: Vec<Window>) -> Result<(), AllocError>
        requires { AreIn (bytes_of self.old.chain) windows.items }
        ensures frames { OnOk result (self.new
            ≡ record self.old { frames = frames_in (bytes_of self.old.chain) windows.items }) }
        ensures refused { OnErr result (self.new ≡ self.old) }
    {
        self.windows = match WindowList::new(alloc, windows) {
            Ok(list) => list,
            Err(e) => return Err(e),
        };
        Ok(())
    }

    /// The frames in order, each as its parts. Nothing is copied, and no memory is taken. All frames with their parts
    /// are O(frames + nodes) where the windows stand in the order of their places and don't overlap; a window that lies
    /// before the node in which the last began is looked for from the first node on.
    pub fn frames(&self) -> Frames<'_>
        ensures { result ≡ self.now.frames }
    {
        Frames::new(&self.chain, self.windows.in_turn())
    }
}

impl Batch {
    /// A second batch of the same frames: its chain is a share of this one's, and the list of windows is the same.
    /// Wrapped nodes and those of a weight over 1 share their bytes with their clones; a node of the weight 1 is
    /// copied. It takes memory only where the chain's share does. At want of memory the shares that were made are
    /// given back and absorbed. O(nodes), whatever the number of frames. `left` says how often a batch can be shared
    /// without a copy.
    pub fn share(&mut self, alloc: Global, mint: &mut Mint) -> Result<Batch, AllocError>
        ensures frames { IfOk result (λ b. b.frames ≡ self.old.frames) }
        ensures same { self.new.frames ≡ self.old.frames }
        ensures shares { IfOk result (λ b. ClonesEach mint.old mint.new self.old.chain self.new.chain b.chain) }
        ensures bytes { IfOk result (λ b. bytes_of b.chain ≡ bytes_of self.old.chain) }
        ensures kept { bytes_of self.new.chain ≡ bytes_of self.old.chain }
        ensures left { (k : ℕ) → k ≤ 1024 → WithData (HasWeight (k + 2)) self.old.chain
            → OnOk result (WithData (HasWeight (k + 1)) self.new.chain) }
        ensures refused { OnErr result (AllZip Regains self.old.chain self.new.chain) }
        ensures mint { AddsAtMost (length self.old.chain) mint.old mint.new }
        ensures numbers { Each (Lasts 1) self.old.chain → mint.new ≡ mint.old }
        ensures totals { KeepsTotalsBeside mint.old mint.new (held_by self.old.chain)
            (held_by (self.new.chain ++ chain_in result)) }
        ensures copies { WithData IsShareable self.old.chain
            → IfOk result (λ b. CopiesNoData self.old.chain b.chain) }
    {
        let windows = match self.windows.again() {
            Ok(windows) => windows,
            Err(e) => return Err(e),
        };
        let chain = match self.chain.share_all(alloc, mint) {
            Ok(chain) => chain,
            Err(e) => return Err(e),
        };
        Ok(Batch { chain, windows })
    }

    /// Gives back a batch that was made of this one by `share`, as `Chain::rejoin` does its chain: this batch absorbs the
    /// receipts, and its frames stay. O(nodes), and no memory.
    pub fn rejoin(&mut self, share: Batch)
        requires { AreReturnable self.old.chain share.chain }
        ensures frames { self.new.frames ≡ self.old.frames }
        ensures rejoins { RejoinsEach self.old.chain share.chain self.new.chain }
        ensures kept { bytes_of self.new.chain ≡ bytes_of self.old.chain }
        ensures storages { StayOn self.old.chain self.new.chain }
    {
        self.chain.rejoin(share.into_chain());
    }

    /// The first `k` frames leave, as a batch over a share of the chain; the others stay. It copies, takes memory and
    /// costs as `share` does, wherever the cut is. At want of memory the frames stay as they were.
    pub fn cut(&mut self, k: usize, alloc: Global, mint: &mut Mint) -> Result<Batch, AllocError>
        requires { k ≤ length self.old.frames }
        ensures front { IfOk result (λ b. b.frames ≡ take k self.old.frames) }
        ensures rest { OnOk result (self.new.frames ≡ drop k self.old.frames) }
        ensures same { OnErr result (self.new.frames ≡ self.old.frames) }
        ensures shares { IfOk result (λ b. ClonesEach mint.old mint.new self.old.chain self.new.chain b.chain) }
        ensures bytes { IfOk result (λ b. bytes_of b.chain ≡ bytes_of self.old.chain) }
        ensures kept { bytes_of self.new.chain ≡ bytes_of self.old.chain }
        ensures left { (n : ℕ) → n ≤ 1024 → WithData (HasWeight (n + 2)) self.old.chain
            → OnOk result (WithData (HasWeight (n + 1)) self.new.chain) }
        ensures refused { OnErr result (AllZip Regains self.old.chain self.new.chain) }
        ensures mint { AddsAtMost (length self.old.chain) mint.old mint.new }
        ensures totals { KeepsTotalsBeside mint.old mint.new (held_by self.old.chain)
            (held_by (self.new.chain ++ chain_in result)) }
        ensures copies { WithData IsShareable self.old.chain
            → IfOk result (λ b. CopiesNoData self.old.chain b.chain) }
    {
        let mut front = match self.share(alloc, mint) {
            Ok(front) => front,
            Err(e) => return Err(e),
        };
        front.keep_first(k);
        self.drop_first(k);
        Ok(front)
    }
}

// The window on all bytes.
fn whole(chain: &Frame) -> Window
    ensures { result ≡ whole_of chain.now }
{
    Window {
        place: 0,
        size: chain.length() as u64,
    }
}

impl From<Frame> for Batch {
    ghost use Rattle.std.specs.Prelude.{◌≡◌, [], ◌∷◌};
    ghost use Rattle.buffer_model.specs.Segment.{bytes_of};

    ghost from_gives = { λ chain b. b ≡ record { chain = chain; frames = bytes_of chain ∷ [] } };

    fn from(chain: Frame) -> Batch {
        Batch::of(chain)
    }
}

impl fmt::Debug for Batch {
    fn fmt<W: fmt::Write>(&self, f: &mut fmt::Formatter<W>) -> fmt::Result {
        write!(
            f,
            "Batch {{ frames: {}, bytes: {} }}",
            self.len(),
            self.chain.length()
        )
    }
}
