//! Laws of the book, each a function that does nothing and ensures it.
ghost use Rattle.piece_book.specs.Owing.{OwesOn, NothingIsOut, Lends, Forgets};

/// A call that keeps totals keeps what is owed.
pub fn owes_on<O: Drop>()
    ensures { OwesOn O }
{}

/// Once nothing is held any more no block is out.
pub fn nothing_is_out<O: Drop>()
    ensures { NothingIsOut O }
{}

/// A block is lent, and a hold is made on it: the block is owed.
pub fn lends<O: Drop>()
    ensures { Lends O }
{}

/// Where the last receipt of a number came, the number may be forgotten.
pub fn forgets<O: Drop>()
    ensures { Forgets O }
{}
