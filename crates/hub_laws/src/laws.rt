//! Laws over the definitions, each a function that does nothing and ensures it.
ghost use Rattle.hub_laws.specs.Laws.{NewStands, CloseStands};

/// A new hub stands for the empty machine.
pub fn new_stands()
    ensures { NewStands }
{}

/// A hub that is closed: one event.
pub fn close_stands()
    ensures { CloseStands }
{}
