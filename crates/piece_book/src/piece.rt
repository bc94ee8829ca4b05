//! What is remembered of one lent block.
ghost use Rattle.std.specs.Prelude.{◌≡◌, ◌==◌, ◌+◌, ◌≤◌, true, IfSome, Some, None};
ghost use Rattle.share_count.specs.Weights.{full};
ghost use Rattle.piece_book.specs.Books.{noted, IsAt, joined_with, weight_of, lasts_of};

use std::marker::Model;
use storage::Receipt;

const FULL: u64 = 1 << 62;

// The receipts that came back for weight of a storage, joined.
#[derive(Drop)]
pub(crate) struct Piece {
    number: u64,
    joined: Option<Receipt>,
}

impl Model for Piece {
    ghost use Rattle.piece_book.specs.Books.{Noted, noted};

    ghost Value = { Noted };

    ghost view = { λ p. noted p.number p.joined };
}

impl Piece {
    // Nothing came back yet.
    pub(crate) fn new(number: u64) -> Piece
        ensures { result ≡ noted number None }
    {
        Piece {
            number,
            joined: None,
        }
    }

    pub(crate) fn number(&self) -> u64
        ensures { result ≡ self.now.number }
    {
        self.number
    }

    // One more receipt. At most one of all is the last.
    pub(crate) fn join(&mut self, receipt: Receipt)
        requires { IfSome self.old.joined (λ t. t.table ≡ receipt.table) }
        ensures joined { self.new ≡ noted self.old.number (Some (joined_with receipt self.old.joined)) }
        ensures most { lasts_of self.old.joined + receipt.lasts ≤ 1 }
    {
        let all = match self.joined.take() {
            Some(some) => some.join(receipt),
            None => receipt,
        };
        let _lasts = all.lasts();
        self.joined = Some(all);
    }

    // Whether all weight came back. Then exactly one receipt was the last.
    pub(crate) fn is_settled(&self) -> bool
        ensures full { result ≡ (weight_of self.now.joined == full) }
        ensures last { result ≡ true → lasts_of self.now.joined ≡ 1 }
    {
        match &self.joined {
            Some(all) => {
                let _lasts = all.lasts();
                all.weight() == FULL
            }
            None => false,
        }
    }
}

// The place of the first piece of this number.
pub(crate) fn find(pieces: &[Piece], number: u64) -> Option<usize>
    ensures { IsAt number pieces.now result }
{
    'pieces: for i in 0..pieces.len() {
        if pieces[i].number() == number {
            return Some(i);
        }
    }
    None
}
