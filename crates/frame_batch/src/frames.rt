//! The frames of a batch, read in turn.
ghost use Rattle.std.specs.Prelude.{◌≡◌, ◌+◌, ◌≤◌, length};
ghost use Rattle.buffer_model.specs.Segment.{bytes_of};
ghost use Rattle.frame_batch.specs.Batches.{AreIn, frames_in};
ghost use Rattle.frame_batch.specs.Spots.{IsAt};

use crate::parts::Parts;
use crate::spot::{Spot, find, front};
use crate::window::Windows;
use iobuf_chain::Frame;
use std::marker::Model;

/// The frames of a batch in order, each as its `Parts`. Contracts see the list of the frames that are left.
#[derive(Drop)]
pub struct Frames<'a> {
    chain: &'a Frame,
    // The node in which a frame began last.
    spot: Spot<'a>,
    windows: Windows<'a>,
}

impl<'a> Model for Frames<'a> {
    ghost use Rattle.std.specs.Prelude.{ℕ, List};
    ghost use Rattle.buffer_model.specs.Segment.{bytes_of};
    ghost use Rattle.frame_batch.specs.Batches.{AreIn, frames_in};
    ghost use Rattle.frame_batch.specs.Spots.{IsAt};

    ghost Value = { List (List ℕ) };

    ghost view = { λ f. frames_in (bytes_of f.chain.now) f.windows };

    ghost invariant = { λ f. IsAt f.chain.now f.spot × AreIn (bytes_of f.chain.now) f.windows };
}

impl<'a> Frames<'a> {
    pub(crate) fn new(chain: &'a Frame, windows: Windows<'a>) -> Frames<'a>
        requires { AreIn (bytes_of chain.now) windows }
        ensures { result ≡ frames_in (bytes_of chain.now) windows.entry }
    {
        Frames {
            chain,
            spot: front(chain),
            windows,
        }
    }
}

impl<'a> Iterator for Frames<'a> {
    ghost use Rattle.std.specs.List.{concat};
    ghost use Rattle.std.specs.Iterator.{item_count, YieldsFirstBy};

    type Item = Parts<'a>;

    ghost next_gives = { YieldsFirstBy concat (λ s. s) };

    ghost remaining = { item_count (λ s. s) };

    #[inline(always)]
    fn next(&mut self) -> Option<Parts<'a>> {
        let window = self.windows.next()?;
        let place = window.place as usize;
        let size = window.size as usize;
        let spot = begin(self.chain, self.spot, place, size);
        self.spot = spot;
        Some(Parts::new(self.chain, spot, place, size))
    }
}

// The node in which so many bytes begin, looked for from a node on: that node itself where there are none.
#[inline(always)]
fn begin<'a>(chain: &'a Frame, from: Spot<'a>, place: usize, size: usize) -> Spot<'a>
    requires at { IsAt chain.now from }
    requires there { place + size ≤ length (bytes_of chain.now) }
    ensures { IsAt chain.now result }
{
    if size == 0 {
        return from;
    }
    find(chain, from, place)
}
