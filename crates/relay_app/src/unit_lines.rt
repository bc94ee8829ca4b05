ghost use Rattle.std.specs.Prelude.{◌≡◌, ◌++◌, codes, decimal, length};
ghost use Rattle.hex.specs.Hex.{encode_lower};
ghost use Rattle.frame_rule.specs.Units.{unit_of};
ghost use Rattle.buffer_model.specs.Segment.{bytes_of};
ghost use Rattle.buffered_io.specs.Writing.{PrintsTo, outlet};
ghost use Rattle.relay_app.specs.Text.{end_line, fault_line, frame_line, hex_or_dash, kind_name, unit_line};

use buffered_io::Printer;
use frame_rule::{FaultKind, FrameUnit};
use iobuf_chain::Frame;
use relay_ports::Sink;

/// Prints the line of a unit.
pub(crate) fn print_unit<W: Sink>(printer: &mut Printer, sink: &mut W, unit: &FrameUnit)
    ensures { PrintsTo (unit_line (unit_of unit.now))
        (outlet printer.old (W.state sink.old)) (outlet printer.new (W.state sink.new)) }
{
    match unit {
        FrameUnit::Frame { at, chain } => print_frame(printer, sink, *at, chain),
        FrameUnit::Fault { at, kind } => print_fault(printer, sink, *at, *kind),
    }
}

/// Prints the last line: how many bytes were read.
pub(crate) fn print_end<W: Sink>(printer: &mut Printer, sink: &mut W, read: u64)
    ensures { PrintsTo (end_line read) (outlet printer.old (W.state sink.old)) (outlet printer.new (W.state sink.new)) }
{
    printer.put(sink, b"end ");
    printer.put_decimal(sink, read);
    printer.put(sink, b"\n");
}

fn print_frame<W: Sink>(printer: &mut Printer, sink: &mut W, at: u64, frame: &Frame)
    ensures { PrintsTo (frame_line at (bytes_of frame.now))
        (outlet printer.old (W.state sink.old)) (outlet printer.new (W.state sink.new)) }
{
    printer.put_entry(sink, b'F', at, frame.length() as u64);
    print_bytes(printer, sink, frame);
    printer.put(sink, b"\n");
}

fn print_fault<W: Sink>(printer: &mut Printer, sink: &mut W, at: u64, kind: FaultKind)
    ensures { PrintsTo (fault_line at kind)
        (outlet printer.old (W.state sink.old)) (outlet printer.new (W.state sink.new)) }
{
    printer.put(sink, b"X ");
    printer.put_decimal(sink, at);
    printer.put(sink, b" ");
    printer.put(sink, name_of(kind));
    printer.put(sink, b"\n");
}

fn name_of(kind: FaultKind) -> &'static [u8]
    ensures { result.now ≡ kind_name kind }
{
    match kind {
        FaultKind::TooSmall => b"TooSmall",
        FaultKind::TooLong => b"TooLong",
        FaultKind::StripOver => b"StripOver",
        FaultKind::Cut => b"Cut",
        FaultKind::BadLine => b"BadLine",
    }
}

// A frame's bytes in hexadecimal, or a dash for none.
fn print_bytes<W: Sink>(printer: &mut Printer, sink: &mut W, frame: &Frame)
    ensures { PrintsTo (hex_or_dash (bytes_of frame.now))
        (outlet printer.old (W.state sink.old)) (outlet printer.new (W.state sink.new)) }
{
    if frame.length() == 0 {
        printer.put(sink, b"-");
        return;
    }
    print_nodes(printer, sink, frame);
}

// The bytes of a frame's nodes in hexadecimal, in order.
fn print_nodes<W: Sink>(printer: &mut Printer, sink: &mut W, frame: &Frame)
    ensures { PrintsTo (encode_lower (bytes_of frame.now))
        (outlet printer.old (W.state sink.old)) (outlet printer.new (W.state sink.new)) }
{
    'nodes: for i in 0..frame.elements() {
        printer.put_hexadecimal(sink, frame.node(i).bytes());
    }
}
