//! What one word or several words list.
ghost use Rattle.std.specs.Prelude.{◌≡◌, ◌==◌, ◌<◌, [], Some, length, slice_get};

use std::alloc::Global;
use std::marker::Model;

/// What words list, in order. Contracts see it as a list.
#[derive(Debug, Drop)]
pub struct WordList<T> {
    list: Vec<T>,
}

impl<T> Model for WordList<T> {
    ghost use Rattle.std.specs.Prelude.{List};

    ghost Value = { List T };

    ghost view = { λ l. l.list.items };
}

impl<T> WordList<T> {
    /// It takes no memory.
    pub fn len(&self) -> usize
        ensures { result ≡ length self.now }
    {
        self.list.len()
    }

    /// Whether nothing is listed.
    pub fn is_empty(&self) -> bool
        ensures { result ≡ (length self.now == 0) }
    {
        self.list.is_empty()
    }

    /// It takes no memory and is O(1).
    pub fn get(&self, i: usize) -> &T
        requires { i < length self.now }
        ensures { slice_get self.now i ≡ Some result.now }
    {
        &self.list[i]
    }

    pub(crate) fn none(alloc: Global) -> WordList<T>
        ensures { result ≡ [] }
    {
        WordList {
            list: Vec::new(alloc),
        }
    }

    pub(crate) fn of(list: Vec<T>) -> WordList<T>
        ensures { result ≡ list.items }
    {
        WordList { list }
    }
}
