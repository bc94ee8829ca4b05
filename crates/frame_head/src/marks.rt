//! Delimiters.
ghost use Rattle.std.specs.Prelude.{◌≡◌, ◌<◌, ◌==◌, Some, length, nat_lt, slice_get};
ghost use Rattle.std.specs.List.{list_any};

use std::marker::Model;

/// A delimiter. Contracts see its bytes.
#[derive(Debug, Drop)]
pub struct Mark {
    bytes: Vec<u8>,
}

impl Model for Mark {
    ghost use Rattle.std.specs.Prelude.{ℕ, List};

    ghost Value = { List ℕ };

    ghost view = { λ m. m.bytes.items };
}

impl Mark {
    /// The delimiter of these bytes. It takes no memory.
    pub fn new(bytes: Vec<u8>) -> Mark
        ensures { result ≡ bytes.items }
    {
        Mark { bytes }
    }

    pub fn bytes(&self) -> &[u8]
        ensures { result.now ≡ self.now }
    {
        &self.bytes
    }
}

/// Delimiters in order. Contracts see them as a list.
#[derive(Debug, Drop)]
pub struct Marks {
    list: Vec<Mark>,
}

impl Model for Marks {
    ghost use Rattle.std.specs.Prelude.{ℕ, List};

    ghost Value = { List (List ℕ) };

    ghost view = { λ m. m.list.items };
}

impl Marks {
    /// The delimiters of a list. It takes no memory.
    pub fn new(list: Vec<Mark>) -> Marks
        ensures { result ≡ list.items }
    {
        Marks { list }
    }

    pub fn len(&self) -> usize
        ensures { result ≡ length self.now }
    {
        self.list.len()
    }

    pub fn is_empty(&self) -> bool
        ensures { result ≡ (length self.now == 0) }
    {
        self.list.is_empty()
    }

    /// Whether some delimiter has no bytes.
    pub fn has_empty(&self) -> bool
        ensures { result ≡ list_any (λ m. length m == 0) self.now }
    {
        self.list.iter().any(|m| m.bytes().is_empty())
    }

    /// Whether some delimiter has more than `n` bytes.
    pub fn has_longer_than(&self, n: usize) -> bool
        ensures { result ≡ list_any (λ m. nat_lt n (length m)) self.now }
    {
        self.list.iter().any(|m| m.bytes().len() > n)
    }

    pub fn mark(&self, i: usize) -> &Mark
        requires { i < length self.now }
        ensures { slice_get self.now i ≡ Some result.now }
    {
        &self.list[i]
    }
}
