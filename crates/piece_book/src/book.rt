//! The book of lent blocks.
ghost use Rattle.std.specs.Prelude.{◌≡◌, ◌+◌, ◌≤◌, ◌++◌, [], ◌∷◌, true, false, None, OnOk, OnErr};
ghost use Rattle.piece_book.specs.Books.{noted, knows, is_settled, with_receipt, without, Suits, piece_of, lasts_in_piece};

use crate::piece::{Piece, find};
use std::alloc::{AllocError, Global};
use std::marker::Model;
use storage::Receipt;

/// For each lent block whose storage number was entered, the receipts that came back for its weight. Contracts see the
/// list of these, in the order in which they were entered.
#[derive(Drop)]
pub struct PieceBook {
    pieces: Vec<Piece>,
}

impl Model for PieceBook {
    ghost use Rattle.std.specs.Prelude.{List};
    ghost use Rattle.piece_book.specs.Books.{Noted};

    ghost Value = { List Noted };

    ghost view = { λ b. b.pieces.items };
}

impl PieceBook {
    /// No block yet. It takes no memory.
    pub fn new(alloc: Global) -> PieceBook
        ensures { result ≡ [] }
    {
        PieceBook {
            pieces: Vec::new(alloc),
        }
    }

    /// Enters the storage number of a block that was lent. Amortized O(known), one allocation now and then. At want of
    /// memory nothing is entered.
    pub fn lent(&mut self, number: u64) -> Result<(), AllocError>
        requires { knows number self.old ≡ false }
        ensures entered { OnOk result (self.new ≡ self.old ++ noted number None ∷ []) }
        ensures refused { OnErr result (self.new ≡ self.old) }
    {
        self.pieces.push(Piece::new(number)).map_err(|_| AllocError)
    }

    /// Whether the number was entered and not forgotten. O(known), and no memory.
    pub fn knows(&self, number: u64) -> bool
        ensures { result ≡ knows number self.now }
    {
        find(&self.pieces, number).is_some()
    }

    /// Joins a receipt to those of its number. At most one of all is a last. O(known), and no memory.
    pub fn add(&mut self, receipt: Receipt)
        requires known { knows receipt.number self.old ≡ true }
        requires suits { Suits receipt self.old }
        ensures joined { self.new ≡ with_receipt receipt self.old }
        ensures most { lasts_in_piece (piece_of receipt.number self.old) + receipt.lasts ≤ 1 }
    {
        let Some(i) = find(&self.pieces, receipt.number()) else {
            unreachable!()
        };
        self.pieces[i].join(receipt);
    }

    /// Whether all weight of the storage came back: then exactly one of its receipts was a last. O(known), and no
    /// memory.
    pub fn settled(&self, number: u64) -> bool
        requires { knows number self.now ≡ true }
        ensures full { result ≡ is_settled number self.now }
        ensures last { result ≡ true → lasts_in_piece (piece_of number self.now) ≡ 1 }
    {
        let Some(i) = find(&self.pieces, number) else {
            unreachable!()
        };
        self.pieces[i].is_settled()
    }

    /// The number isn't known any more; all others stay. O(known), and no memory.
    pub fn forget(&mut self, number: u64)
        requires known { knows number self.old ≡ true }
        requires settled { is_settled number self.old ≡ true }
        ensures { self.new ≡ without number self.old }
    {
        let Some(i) = find(&self.pieces, number) else {
            unreachable!()
        };
        let _settled = self.pieces.remove(i);
    }
}
