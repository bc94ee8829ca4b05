//! Laws of the definitions: each is the contract of a function that does nothing.
ghost use Rattle.buffer_model.specs.Laws.{CutKeepsBlock, TrimsCompose, TrimsKeepBlock, RoomsKeepBlock, AppendUndoesTrim, PrependUndoesTrim, JoinsBytes, TotalsAdd};
ghost use Rattle.buffer_model.specs.Laws.{KeepsAfterKeeps, KeepsBesideKeeps, KeepsAsMintGoesOn, ShareKeepsTotals, AbsorbKeepsTotals, CloneKeepsTotals};
ghost use Rattle.buffer_model.specs.Laws.{NothingNumberedKeepsAll, NoOtherStorage};
ghost use Rattle.buffer_model.specs.Laws.{OneMintOneStorage, AddsCompose, NewStaysNew, NewAfterwardsIsNew};

/// Wherever a block is cut, the three lists join to it.
pub fn cut_keeps_block<O: Drop>()
    ensures { CutKeepsBlock O }
{}

/// Two trims at the front are one.
pub fn trims_compose<O: Drop>()
    ensures { TrimsCompose O }
{}

/// A trim at either end keeps all bytes of the block.
pub fn trims_keep_block<O: Drop>()
    ensures { TrimsKeepBlock O }
{}

/// Taking room in at either end keeps all bytes of the block.
pub fn rooms_keep_block<O: Drop>()
    ensures { RoomsKeepBlock O }
{}

/// Taking `n` bytes behind the window in undoes a trim of `n` at its end.
pub fn append_undoes_trim<O: Drop>()
    ensures { AppendUndoesTrim O }
{}

/// Taking `n` bytes before the window in undoes a trim of `n` at its front.
pub fn prepend_undoes_trim<O: Drop>()
    ensures { PrependUndoesTrim O }
{}

/// The bytes of two lists of windows that are joined are the bytes of each.
pub fn joins_bytes<O: Drop>()
    ensures { JoinsBytes O }
{}

/// The total of what two lists have is the sum of their totals.
pub fn totals_add<O: Drop>()
    ensures { TotalsAdd O }
{}

/// A call that keeps totals, after one that does, keeps them.
pub fn keeps_after_keeps<O: Drop>()
    ensures { KeepsAfterKeeps O }
{}

/// Two calls that keep totals, each on its own part, keep them together.
pub fn keeps_beside_keeps<O: Drop>()
    ensures { KeepsBesideKeeps O }
{}

/// A call that keeps totals beside what the mint numbers in it, and one that follows and does, are together one that
/// does.
pub fn keeps_as_mint_goes_on<O: Drop>()
    ensures { KeepsAsMintGoesOn O }
{}

/// A call in which the mint numbers nothing keeps all totals.
pub fn nothing_numbered_keeps_all<O: Drop>()
    ensures { NothingNumberedKeepsAll O }
{}

/// Storages come from two places alone: those that were there as a call began, and those that its mint numbered in it.
pub fn no_other_storage<O: Drop>()
    ensures { NoOtherStorage O }
{}

/// A share that is given away stays in sum with what is left.
pub fn share_keeps_totals<O: Drop>()
    ensures { ShareKeepsTotals O }
{}

/// A receipt that a hold of its storage absorbs stays in sum.
pub fn absorb_keeps_totals<O: Drop>()
    ensures { AbsorbKeepsTotals O }
{}

/// A clone keeps totals.
pub fn clone_keeps_totals<O: Drop>()
    ensures { CloneKeepsTotals O }
{}

/// Equal numbers of one mint are one storage: what absorbing a receipt asks for.
pub fn one_mint_one_storage<O: Drop>()
    ensures { OneMintOneStorage O }
{}

/// What two calls number, one after the other, adds up.
pub fn adds_compose()
    ensures { AddsCompose }
{}

/// A hold on a storage that a call made is one that a longer call made, which goes on.
pub fn new_stays_new<O: Drop>()
    ensures { NewStaysNew O }
{}

/// The same for a longer call, which began before.
pub fn new_afterwards_is_new<O: Drop>()
    ensures { NewAfterwardsIsNew O }
{}
