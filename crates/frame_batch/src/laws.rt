//! Laws of windows: each is the contract of a function that does nothing.
ghost use Rattle.frame_batch.specs.Laws.{NarrowerWindow, PartsAreTheFrame, WindowHasItsSize};

/// A frame has as many bytes as its window says.
pub fn window_has_its_size()
    ensures { WindowHasItsSize }
{}

/// A window within a window has its bytes of the wider one: so a stage that drops bytes at the ends of a frame need only
/// change the window.
pub fn narrower_window()
    ensures { NarrowerWindow }
{}

/// The parts of a frame are its bytes, in order, and none is empty.
pub fn parts_are_the_frame()
    ensures { PartsAreTheFrame }
{}
