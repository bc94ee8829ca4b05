//! Laws of windows: each is the contract of a function that does nothing.
ghost use Rattle.iobuf_node.specs.Laws.{WritesTail, WritesWindow};

use storage::Told;

/// Where as many bytes as the window has are written through `Mine::bytes_mut`, the window has these bytes and all
/// else stays.
pub fn writes_window<O: Told>()
    ensures { WritesWindow O }
{}

/// Where bytes are written through `Mine::tail_mut`, they stand at the front of the room after the data, and all else
/// stays.
pub fn writes_tail<O: Told>()
    ensures { WritesTail O }
{}
