//! Windows on the bytes of a chain.
ghost use Rattle.std.specs.Prelude.{◌≡◌, ◌+◌, ◌≤◌, ◌↔◌, IsTrue, [], ◌∷◌, MatchOption};
ghost use Rattle.std.specs.List.{All};

use std::marker::Model;

/// Where a frame lies in a chain: the place of its first byte, counted from the chain's first, and how many bytes it
/// has.
#[derive(Clone, Copy, Debug, PartialEq, Eq)]
pub struct Window {
    pub place: u64,
    pub size: u64,
}

impl Window {
    /// Whether the window lies within so many bytes. O(1).
    pub fn is_in(&self, length: usize) -> bool
        ensures { IsTrue result ↔ (self.now.place + self.now.size ≤ length) }
    {
        let length = length as u64;
        self.place <= length && self.size <= length - self.place
    }

    /// Whether each of these windows does. O(windows).
    pub fn are_in(windows: &[Window], length: usize) -> bool
        ensures { IsTrue result ↔ All (λ w. w.place + w.size ≤ length) windows.now }
    {
        windows.iter().all(|w| w.is_in(length))
    }
}

/// Windows that are taken in turn: one, if it is there, and then those of a list. Contracts see the list of those that
/// are left.
#[derive(Drop)]
pub(crate) struct Windows<'a> {
    first: Option<Window>,
    others: &'a [Window],
}

impl<'a> Model for Windows<'a> {
    ghost use Rattle.std.specs.Prelude.{List, ◌++◌};
    ghost use Rattle.frame_batch.specs.declared.window.Window.{Window};
    ghost use Rattle.frame_batch.specs.Batches.{window_in};

    ghost Value = { List Window };

    ghost view = { λ w. window_in w.first ++ w.others.now };
}

impl<'a> Windows<'a> {
    pub(crate) fn one(window: Window) -> Windows<'a>
        ensures { result ≡ window ∷ [] }
    {
        Windows {
            first: Some(window),
            others: &[],
        }
    }

    pub(crate) fn of(list: &'a [Window]) -> Windows<'a>
        ensures { result ≡ list.now }
    {
        Windows {
            first: None,
            others: list,
        }
    }

    #[inline(always)]
    pub(crate) fn next(&mut self) -> Option<Window>
        ensures { MatchOption result ((self.old ≡ []) × (self.new ≡ [])) (λ w. self.old ≡ w ∷ self.new) }
    {
        if let Some(window) = self.first {
            self.first = None;
            return Some(window);
        }
        let (window, behind) = self.others.split_first()?;
        self.others = behind;
        Some(*window)
    }
}
