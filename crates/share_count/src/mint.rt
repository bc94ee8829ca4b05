//! Where storages come from, with their numbers.
ghost use Rattle.std.specs.Prelude.{◌≡◌, ◌+◌, ◌<◌, ◌^◌, ◌↔◌, IsTrue, [], ◌∷◌, ◌++◌, length, Some, None};

use counted_payload::{Numbers, Word};
use std::fmt;
use std::marker::Model;

/// Hands out the numbers 0, 1, 2 and so on, each once. Contracts see the list of the storages that it numbered, in
/// order, with `None` for a number that was handed out by itself. So two storages of one number are one.
#[derive(Drop)]
pub struct Mint {
    count: u64,
    numbers: Numbers,
}

impl Model for Mint {
    ghost use Rattle.std.specs.Prelude.{◌≡◌, ◌≤◌, ◌^◌, List, Option, length};
    ghost use Rattle.atomic_table.specs.Seated.{TableId};
    ghost use Rattle.counted_payload.specs.Numbers.{numbers_coded};

    ghost Value = { List (Option TableId) };

    ghost coded = { numbers_coded };

    ghost view = { λ m. m.numbers.words };

    ghost invariant = { λ m. (m.count ≡ length m.numbers.words) × (m.count ≤ 2 ^ 63) };
}

impl Mint {
    /// A mint that handed out nothing yet.
    pub fn new() -> Mint
        ensures { result ≡ [] }
    {
        Mint {
            count: 0,
            numbers: Numbers::new(),
        }
    }

    /// The next number, for no storage of this crate. O(1), and no memory.
    pub fn next(&mut self) -> u64
        requires { length self.old < 2 ^ 63 }
        ensures number { result ≡ length self.old }
        ensures mint { self.new ≡ self.old ++ None ∷ [] }
    {
        let number = self.count;
        self.numbers.skip();
        self.count += 1;
        number
    }

    /// Whether there is a next number.
    pub fn ready(&self) -> bool
        ensures { IsTrue result ↔ (length self.now < 2 ^ 63) }
    {
        self.count < 1 << 63
    }

    // The next number, for this storage.
    pub(crate) fn number(&mut self, word: &Word) -> u64
        requires { length self.old < 2 ^ 63 }
        ensures number { result ≡ length self.old }
        ensures mint { self.new ≡ self.old ++ Some word.now.table_id ∷ [] }
    {
        let number = self.count;
        self.numbers.add(word);
        self.count += 1;
        number
    }
}

impl fmt::Debug for Mint {
    fn fmt<W: fmt::Write>(&self, f: &mut fmt::Formatter<W>) -> fmt::Result {
        write!(f, "Mint {{ count: {} }}", self.count)
    }
}
