//! The windows of a batch.
ghost use Rattle.std.specs.Prelude.{◌≡◌, ◌+◌, ◌≤◌, ◌<◌, ◌↔◌, IsTrue, [], ◌∷◌, Some, IfOk, length, take, drop, slice_get};
ghost use Rattle.std.specs.List.{All};

use crate::listed::Listed;
use crate::window::{Window, Windows};
use std::alloc::{AllocError, Global};
use std::fmt;
use std::marker::Model;

/// Windows in order, as a batch holds them. A list never changes once it is made, and all batches that were made of one
/// share it; each has some of its windows that stand behind one another. One window alone takes no memory. Contracts
/// see the list of the windows.
#[derive(Drop)]
pub struct WindowList {
    // Where there is no list, this window alone.
    one: Window,
    many: Option<Listed>,
    // The windows from one up to another.
    from: usize,
    to: usize,
}

impl Model for WindowList {
    ghost use Rattle.std.specs.Prelude.{List, ◌≤◌, length};
    ghost use Rattle.iobuf_chain.specs.Lists.{between};
    ghost use Rattle.frame_batch.specs.declared.window.Window.{Window};
    ghost use Rattle.frame_batch.specs.Batches.{many_or};

    ghost Value = { List Window };

    ghost view = { λ l. between l.from l.to (many_or l.one l.many) };

    ghost invariant = { λ l. (l.from ≤ l.to) × (l.to ≤ length (many_or l.one l.many)) };
}

impl WindowList {
    /// These windows, in order. One allocation, beside that of the list which is handed in.
    pub fn new(alloc: Global, windows: Vec<Window>) -> Result<WindowList, AllocError>
        ensures { IfOk result (λ l. l ≡ windows.items) }
    {
        let to = windows.len();
        match Listed::new(alloc, windows) {
            Ok(list) => Ok(WindowList {
                one: Window { place: 0, size: 0 },
                many: Some(list),
                from: 0,
                to,
            }),
            Err(e) => Err(e),
        }
    }

    /// One window. No memory.
    pub fn one(window: Window) -> WindowList
        ensures { result ≡ window ∷ [] }
    {
        WindowList {
            one: window,
            many: None,
            from: 0,
            to: 1,
        }
    }

    /// How many windows there are. O(1).
    #[inline(always)]
    pub fn len(&self) -> usize
        ensures { result ≡ length self.now }
    {
        self.to - self.from
    }

    /// Whether there is none. O(1).
    pub fn is_empty(&self) -> bool
        ensures { IsTrue result ↔ (self.now ≡ []) }
    {
        self.len() == 0
    }

    /// Window `i`. O(1).
    #[inline(always)]
    pub fn window(&self, i: usize) -> Window
        requires { i < length self.now }
        ensures { slice_get self.now i ≡ Some result }
    {
        match &self.many {
            Some(list) => list.windows()[self.from + i],
            None => self.one,
        }
    }

    // Only the first `k` stay.
    pub(crate) fn keep_first(&mut self, k: usize)
        requires { k ≤ length self.old }
        ensures { self.new ≡ take k self.old }
    {
        let _to = self.to;
        self.to = self.from + k;
    }

    // The first `k` go.
    pub(crate) fn drop_first(&mut self, k: usize)
        requires { k ≤ length self.old }
        ensures { self.new ≡ drop k self.old }
    {
        let _to = self.to;
        self.from += k;
    }

    // The same windows. No memory.
    pub(crate) fn again(&self) -> Result<WindowList, AllocError>
        ensures { IfOk result (λ l. l ≡ self.now) }
    {
        let many = match &self.many {
            None => None,
            Some(list) => match list.again() {
                Ok(list) => Some(list),
                Err(e) => return Err(e),
            },
        };
        Ok(WindowList {
            one: self.one,
            many,
            from: self.from,
            to: self.to,
        })
    }

    // The windows in turn.
    pub(crate) fn in_turn(&self) -> Windows<'_>
        ensures { result ≡ self.now }
    {
        match &self.many {
            Some(list) => Windows::of(&list.windows()[self.from..self.to]),
            None if self.from < self.to => Windows::one(self.one),
            None => Windows::of(&[]),
        }
    }
}

impl fmt::Debug for WindowList {
    fn fmt<W: fmt::Write>(&self, f: &mut fmt::Formatter<W>) -> fmt::Result {
        write!(f, "WindowList {{ windows: {} }}", self.len())
    }
}
