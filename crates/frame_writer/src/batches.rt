//! Frames that lie in nodes.
ghost use Rattle.std.specs.Prelude.{◌≡◌, Some, None, true, OnErr, OnOk, MatchResult, length};
ghost use Rattle.std.specs.List.{concat};
ghost use Rattle.buffer_model.specs.Segment.{bytes_of};
ghost use Rattle.buffered_io.specs.Writing.{PrintsTo, outlet};
ghost use Rattle.frame_head.specs.Framed.{framed, framed_text, has_known_field};
ghost use Rattle.frame_writer.specs.Over.{first_over, over_of};

use crate::over::{FrameOver, check_size, field_value};
use crate::writing::print_header;
use buffered_io::Printer;
use frame_batch::laws::window_has_its_size;
use frame_batch::{Batch, Parts};
use frame_head::{Out, ending};
use iobuf_chain::Frame;
use relay_ports::Sink;

/// Prints a frame whose bytes are those of a chain, as `write_frame` prints it from one slice.
///
/// It refuses as `write_frame` does. It takes no memory and is O(length of the frame + number of nodes): the nodes'
/// bytes are copied into the printer's room alone.
pub fn write_chain<W: Sink>(
    printer: &mut Printer,
    sink: &mut W,
    out: &Out,
    frame: &Frame,
) -> Result<(), FrameOver>
    requires { has_known_field out.now ≡ true }
    ensures refused { MatchResult result (λ _. over_of out.now (length (bytes_of frame.now)) ≡ None)
        (λ f. over_of out.now (length (bytes_of frame.now)) ≡ Some f) }
    ensures printed { OnOk result (PrintsTo (framed out.now (bytes_of frame.now))
        (outlet printer.old (W.state sink.old)) (outlet printer.new (W.state sink.new))) }
    ensures kept { OnErr result
        (outlet printer.new (W.state sink.new) ≡ outlet printer.old (W.state sink.old)) }
{
    let n = field_value(out, frame.length() as u128)?;
    print_header(printer, sink, out, n);
    print_nodes(printer, sink, frame);
    printer.put(sink, ending(out));
    Ok(())
}

fn print_nodes<W: Sink>(printer: &mut Printer, sink: &mut W, frame: &Frame)
    ensures { PrintsTo (bytes_of frame.now)
        (outlet printer.old (W.state sink.old)) (outlet printer.new (W.state sink.new)) }
{
    'nodes: for i in 0..frame.elements() {
        printer.put(sink, frame.node(i).bytes());
    }
}

/// Prints the framed text of the frames of a batch.
///
/// It refuses as `write_frames` does: by the first frame whose length doesn't fit the field of a `Length`, and then
/// nothing is printed. It takes no memory and is O(length of the frames + number of frames + number of nodes).
pub fn write_batch<W: Sink>(
    printer: &mut Printer,
    sink: &mut W,
    out: &Out,
    batch: &Batch,
) -> Result<(), FrameOver>
    requires { has_known_field out.now ≡ true }
    ensures refused { MatchResult result (λ _. first_over out.now batch.now.frames ≡ None)
        (λ f. first_over out.now batch.now.frames ≡ Some f) }
    ensures printed { OnOk result (PrintsTo (framed_text out.now batch.now.frames)
        (outlet printer.old (W.state sink.old)) (outlet printer.new (W.state sink.new))) }
    ensures kept { OnErr result
        (outlet printer.new (W.state sink.new) ≡ outlet printer.old (W.state sink.old)) }
{
    check_batch(out, batch)?;
    print_batch(printer, sink, out, batch);
    Ok(())
}

// Refuses a batch by its first frame that is refused. It is O(number of frames).
fn check_batch(out: &Out, batch: &Batch) -> Result<(), FrameOver>
    requires { has_known_field out.now ≡ true }
    ensures { MatchResult result (λ _. first_over out.now batch.now.frames ≡ None)
        (λ f. first_over out.now batch.now.frames ≡ Some f) }
{
    window_has_its_size();
    'frames: for i in 0..batch.len() {
        if let Err(f) = check_size(out, u128::from(batch.window(i).size)) {
            return Err(f);
        }
    }
    Ok(())
}

/// Prints the framed text of the frames of a batch without a look whether their lengths fit.
///
/// For batches whose frames are known to fit, as those are whose codec and stages let none through that is longer
/// than the field can say: then it prints what `write_batch` prints. It has no condition on the lengths, since framed
/// text is defined for every frame: before a frame that is too long stand the lowest bytes of its length, which name
/// another one. It takes no memory and is O(length of the frames + number of frames + number of nodes).
pub fn print_batch<W: Sink>(printer: &mut Printer, sink: &mut W, out: &Out, batch: &Batch)
    requires { has_known_field out.now ≡ true }
    ensures { PrintsTo (framed_text out.now batch.now.frames)
        (outlet printer.old (W.state sink.old)) (outlet printer.new (W.state sink.new)) }
{
    let mut frames = batch.frames();
    'frames: while let Some(frame) = frames.next() {
        print_in_parts(printer, sink, out, frame);
    }
}

// Prints a frame from where it lies.
fn print_in_parts<W: Sink>(printer: &mut Printer, sink: &mut W, out: &Out, frame: Parts<'_>)
    requires { has_known_field out.now ≡ true }
    ensures { PrintsTo (framed out.now (concat frame.entry))
        (outlet printer.old (W.state sink.old)) (outlet printer.new (W.state sink.new)) }
{
    print_header(printer, sink, out, frame.length() as u64);
    print_each(printer, sink, frame);
    printer.put(sink, ending(out));
}

fn print_each<W: Sink>(printer: &mut Printer, sink: &mut W, frame: Parts<'_>)
    ensures { PrintsTo (concat frame.entry)
        (outlet printer.old (W.state sink.old)) (outlet printer.new (W.state sink.new)) }
{
    let mut frame = frame;
    'parts: while let Some(part) = frame.next() {
        printer.put(sink, part);
    }
}
