//! Frames on their way to a sink.
ghost use Rattle.std.specs.Prelude.{◌≡◌, Some, None, true, OnErr, OnOk, MatchResult, length};
ghost use Rattle.buffered_io.specs.Writing.{PrintsTo, outlet};
ghost use Rattle.frame_head.specs.Framed.{framed, has_known_field, header_of};
ghost use Rattle.frame_writer.specs.Over.{over_of};

use crate::over::{FrameOver, check_size};
use buffered_io::Printer;
use frame_head::{Out, ending, header};
use relay_ports::Sink;

/// Prints a frame: what `out` puts before it, its bytes and what `out` puts behind it.
///
/// It refuses a frame whose length doesn't fit the field of a `Length`, and no other; then nothing is printed, and the
/// printer and the sink are as before. It takes no memory and is O(length of the frame).
pub fn write_frame<W: Sink>(
    printer: &mut Printer,
    sink: &mut W,
    out: &Out,
    frame: &[u8],
) -> Result<(), FrameOver>
    requires { has_known_field out.now ≡ true }
    ensures refused { MatchResult result (λ _. over_of out.now (length frame.now) ≡ None)
        (λ f. over_of out.now (length frame.now) ≡ Some f) }
    ensures printed { OnOk result (PrintsTo (framed out.now frame.now)
        (outlet printer.old (W.state sink.old)) (outlet printer.new (W.state sink.new))) }
    ensures kept { OnErr result
        (outlet printer.new (W.state sink.new) ≡ outlet printer.old (W.state sink.old)) }
{
    check_size(out, frame.len() as u128)?;
    print_frame(printer, sink, out, frame);
    Ok(())
}

/// Prints a frame, whether its length fits or not.
pub(crate) fn print_frame<W: Sink>(printer: &mut Printer, sink: &mut W, out: &Out, frame: &[u8])
    requires { has_known_field out.now ≡ true }
    ensures { PrintsTo (framed out.now frame.now)
        (outlet printer.old (W.state sink.old)) (outlet printer.new (W.state sink.new)) }
{
    print_header(printer, sink, out, frame.len() as u64);
    printer.put(sink, frame);
    printer.put(sink, ending(out));
}

/// Prints what stands before a frame of `n` bytes.
pub(crate) fn print_header<W: Sink>(printer: &mut Printer, sink: &mut W, out: &Out, n: u64)
    requires { has_known_field out.now ≡ true }
    ensures { PrintsTo (header_of out.now n)
        (outlet printer.old (W.state sink.old)) (outlet printer.new (W.state sink.new)) }
{
    let head = header(out, n);
    printer.put(sink, &head.bytes[..head.used]);
}
