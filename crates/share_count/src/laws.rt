//! Laws of the definitions: each is the contract of a function that does nothing.
ghost use Rattle.share_count.specs.Accounting.{StaysRight, RunsOnce, SoleIsAlone, KeepsBytes, WorkedWeights, WorkedHistory};
ghost use Rattle.share_count.specs.Numbered.{NumbersOneStorage, KeepsNumbers, NumbersNew};

/// After every list of events the accounts are right: of the word, of all weight, of the lasts, and of the payload;
/// and each live hold's bytes are its storage's.
pub fn stays_right()
    ensures { StaysRight }
{}

/// At most one release of a storage runs, exactly where its last was given and its payload taken out.
pub fn runs_once()
    ensures { RunsOnce }
{}

/// A hold whose weight is the word of its storage is the only live one.
pub fn sole_is_alone()
    ensures { SoleIsAlone }
{}

/// No event but its own write changes a hold's bytes.
pub fn keeps_bytes()
    ensures { KeepsBytes }
{}

/// Equal numbers of one mint are one storage.
pub fn numbers_one_storage()
    ensures { NumbersOneStorage }
{}

/// A mint that goes on keeps the numbers that it gave.
pub fn keeps_numbers()
    ensures { KeepsNumbers }
{}

/// A new storage has the next number.
pub fn numbers_new()
    ensures { NumbersNew }
{}

/// Shares of shares, in numbers.
pub fn worked_weights()
    ensures { WorkedWeights }
{}

/// A storage that is made, shared, written, given back and released.
pub fn worked_history()
    ensures { WorkedHistory }
{}
