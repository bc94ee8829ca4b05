//! Laws of stages: each is the contract of a function that does nothing.
ghost use Rattle.pipeline.specs.Laws.{AnswersJoin, CutsAreWindows, StatesJoin};

/// What a stage that copies nothing leaves of a frame are so many of its bytes from some place on.
pub fn cuts_are_windows()
    ensures { CutsAreWindows }
{}

/// A pipeline says of a frame what its first stages say, and where they pass it on, what the others then say.
pub fn answers_join()
    ensures { AnswersJoin }
{}

/// The first stages of a pipeline change as by themselves; the others do where the first pass the frame on.
pub fn states_join()
    ensures { StatesJoin }
{}
