//! Laws over the definitions, each a function that does nothing and ensures it.
ghost use Rattle.frame_head.specs.Bounds.{BoundedFrames};
ghost use Rattle.frame_head.specs.Examples.{Examples};
ghost use Rattle.frame_head.specs.FramedExamples.{FramedExamples};
ghost use Rattle.frame_head.specs.FramedLaws.{FieldNumbers, FramedPieces, KnownFields, WholeFrames};
ghost use Rattle.frame_head.specs.Laws.{AnyCutting, FindsFirstEnding, StableUnits};
ghost use Rattle.frame_head.specs.ReadingBack.{DelimitedReadBack, EndingsOnce, LengthsReadBack, LinesReadBack};

/// More input changes no unit that is there, of any codec that `check` passes.
pub fn stable_units()
    ensures { StableUnits }
{}

/// Each piece of a stream adds the units of the longer stream that weren't units before, and its end the rest:
/// together they are the units of the whole stream at its end, whatever the cutting and of any codec that `check`
/// passes.
pub fn any_cutting()
    ensures { AnyCutting }
{}

/// The ending that ends a frame is the one that ends first, and of several that end there the longest.
pub fn first_endings()
    ensures { FindsFirstEnding }
{}

/// The units of a few streams, each written out by hand.
pub fn worked_examples()
    ensures { Examples }
{}

/// No frame among the units of a stream of bytes, or among those at its end, is longer than the codec's `longest`,
/// where `check` passes it.
pub fn bounded_frames()
    ensures { BoundedFrames }
{}

/// What `check_out` passes can be asked for its `header`.
pub fn known_fields()
    ensures { KnownFields }
{}

/// What the field before a frame holds, which is the frame's length wherever that fits.
pub fn field_numbers()
    ensures { FieldNumbers }
{}

/// The framed text of joined lists, of one frame more, and of the first frames of a list with that of the others.
pub fn framed_pieces()
    ensures { FramedPieces }
{}

/// How many whole frames are in the first bytes of a framed text: the most whose text isn't longer, all of them at the
/// full length, and never fewer in more bytes.
pub fn whole_frames()
    ensures { WholeFrames }
{}

/// The framed text of a few frames, written out by hand.
pub fn framed_examples()
    ensures { FramedExamples }
{}

/// Framed text reads back: frames behind their lengths, by the codec with the same field and order.
pub fn lengths_read_back()
    ensures { LengthsReadBack }
{}

/// Framed text reads back: lines, by the codec of lines with the same ending.
pub fn lines_read_back()
    ensures { LinesReadBack }
{}

/// Framed text reads back: frames before a delimiter, by the codec with this delimiter alone.
pub fn delimited_read_back()
    ensures { DelimitedReadBack }
{}

/// When the ending of a frame stands once, as reading back asks.
pub fn endings_once()
    ensures { EndingsOnce }
{}
