//! Laws over the definitions, each a function that does nothing and ensures it.
ghost use Rattle.frame_writer.specs.Laws.{RefusedFrames};

/// A frame is refused exactly where its length doesn't fit the field before it, and a list exactly where some frame is.
pub fn refused_frames()
    ensures { RefusedFrames }
{}
