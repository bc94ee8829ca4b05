//! Laws over the definitions, each a function that does nothing and ensures it.
ghost use Rattle.hub_model.specs.Laws.{ServesAll, BlocksFirst};
ghost use Rattle.hub_model.specs.Examples.{WorkedEvents};

/// After every list of events from the empty hub, for each subscription: what was taken and what its queue holds are
/// together what was sent; what was taken is a beginning of the frames that were published while it was there; and its
/// queue isn't over its cap.
pub fn serves_all<X>()
    ensures { ServesAll X }
{}

/// A publication is blocked by the live subscription with the least id among those whose queue is full, and by nobody
/// exactly where each live one has room.
pub fn blocks_first<X>()
    ensures { BlocksFirst X }
{}

/// The worked events, one after another.
pub fn worked_events()
    ensures { WorkedEvents }
{}
