//! Laws over the definitions, each a function that does nothing and ensures it.
ghost use Rattle.relay_model.specs.Laws.{BeginStands, TurnStands, OverTells, StandsBegins};
ghost use Rattle.relay_model.specs.Examples.{WorkedTurns};

/// A relay that was begun stands for no frame.
pub fn begin_stands<X>()
    ensures { BeginStands X }
{}

/// A turn keeps what a relay stands for, with the frames that were read in it behind the others.
pub fn turn_stands<X>()
    ensures { TurnStands X }
{}

/// A relay that is over has given each subscriber the frames of its range, each once and in order; or those up to a
/// crowded place of this range, if it was left behind there.
pub fn over_tells<X>()
    ensures { OverTells X }
{}

/// At every moment each subscriber has a beginning of the frames from its first place on.
pub fn stands_begins<X>()
    ensures { StandsBegins X }
{}

/// The worked turns, one after another.
pub fn worked_turns()
    ensures { WorkedTurns }
{}
