//! Laws of turns, each the contract of a function that does nothing.
ghost use Rattle.observer.specs.Laws.{AfterAllTurns, BetweenTurns, TurnsJoin};

/// What a drainer did in some turns and then in others is what it did in all: the items of all were taken, and their
/// frames written out and counted.
pub fn turns_join()
    ensures { TurnsJoin }
{}

/// What is collected, and what the tap learns, between two turns, changes nothing of that.
pub fn between_turns()
    ensures { BetweenTurns }
{}

/// What a sink has after all turns: the framed text of all frames that were taken, or once a call of it failed a
/// beginning of that; and the count is of all frames, or of the most whose text isn't longer than that beginning.
pub fn after_all_turns()
    ensures { AfterAllTurns }
{}
