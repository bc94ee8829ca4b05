//! Frames in parts, and lists of frames.
ghost use Rattle.std.specs.Prelude.{◌≡◌, Some, None, true, OnErr, OnOk, MatchResult, flat_map, length, map};
ghost use Rattle.buffered_io.specs.Writing.{PrintsTo, outlet};
ghost use Rattle.frame_head.specs.Framed.{framed, framed_text, has_known_field};
ghost use Rattle.frame_writer.specs.Over.{first_over, over_of};

use crate::over::{FrameOver, check_all, field_value, size_of};
use crate::writing::{print_frame, print_header};
use buffered_io::Printer;
use frame_head::{Out, ending};
use relay_ports::Sink;

/// Prints a frame whose bytes stand in several parts, one behind another, as `write_frame` prints it from one.
///
/// It refuses as `write_frame` does, by the length of all parts. It takes no memory and is O(length of the frame +
/// number of parts): the parts aren't joined before.
pub fn write_parts<W: Sink>(
    printer: &mut Printer,
    sink: &mut W,
    out: &Out,
    parts: &[&[u8]],
) -> Result<(), FrameOver>
    requires { has_known_field out.now ≡ true }
    ensures refused { let frame = flat_map (λ p. p.now) parts.now in
        MatchResult result (λ _. over_of out.now (length frame) ≡ None)
        (λ f. over_of out.now (length frame) ≡ Some f) }
    ensures printed { let frame = flat_map (λ p. p.now) parts.now in OnOk result (PrintsTo (framed out.now frame)
        (outlet printer.old (W.state sink.old)) (outlet printer.new (W.state sink.new))) }
    ensures kept { OnErr result
        (outlet printer.new (W.state sink.new) ≡ outlet printer.old (W.state sink.old)) }
{
    let n = field_value(out, size_of(parts))?;
    print_header(printer, sink, out, n);
    print_parts(printer, sink, parts);
    printer.put(sink, ending(out));
    Ok(())
}

fn print_parts<W: Sink>(printer: &mut Printer, sink: &mut W, parts: &[&[u8]])
    ensures { PrintsTo (flat_map (λ p. p.now) parts.now)
        (outlet printer.old (W.state sink.old)) (outlet printer.new (W.state sink.new)) }
{
    for part in parts {
        printer.put(sink, part);
    }
}

/// Prints the framed text of a list of frames.
///
/// It refuses a list of which some frame's length doesn't fit the field of a `Length`, by the first such frame; then
/// nothing is printed, of the frames before it either, and the printer and the sink are as before. It takes no memory
/// and is O(length of the frames + number of frames).
pub fn write_frames<W: Sink>(
    printer: &mut Printer,
    sink: &mut W,
    out: &Out,
    frames: &[&[u8]],
) -> Result<(), FrameOver>
    requires { has_known_field out.now ≡ true }
    ensures refused { let list = map (λ f. f.now) frames.now in
        MatchResult result (λ _. first_over out.now list ≡ None) (λ f. first_over out.now list ≡ Some f) }
    ensures printed { let list = map (λ f. f.now) frames.now in OnOk result (PrintsTo (framed_text out.now list)
        (outlet printer.old (W.state sink.old)) (outlet printer.new (W.state sink.new))) }
    ensures kept { OnErr result
        (outlet printer.new (W.state sink.new) ≡ outlet printer.old (W.state sink.old)) }
{
    check_all(out, frames)?;
    print_all(printer, sink, out, frames);
    Ok(())
}

fn print_all<W: Sink>(printer: &mut Printer, sink: &mut W, out: &Out, frames: &[&[u8]])
    requires { has_known_field out.now ≡ true }
    ensures { PrintsTo (framed_text out.now (map (λ f. f.now) frames.now))
        (outlet printer.old (W.state sink.old)) (outlet printer.new (W.state sink.new)) }
{
    for frame in frames {
        print_frame(printer, sink, out, frame);
    }
}
