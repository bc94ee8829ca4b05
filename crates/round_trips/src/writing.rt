ghost use Rattle.std.specs.Prelude.{◌≡◌, true};
ghost use Rattle.frame_head.specs.Framed.{has_known_field};

use buffered_io::Printer;
use frame_head::Out;
use frame_writer::write_frames;
use relay_ports::MemSink;
use std::alloc::Global;
use std::process::Abort;

// The framed text of frames, of at most 4,000 bytes.
pub(crate) fn written(rt: &impl Abort, alloc: Global, out: &Out, frames: &[&[u8]]) -> Vec<u8>
    requires { has_known_field out.now ≡ true }
{
    let mut sink = sink_of(rt, alloc);
    let mut printer = Printer::new(alloc).expect(rt, "memory for a printer");
    assert!(rt; write_frames(&mut printer, &mut sink, out, frames).is_ok());
    printer.flush(&mut sink);
    Vec::from_slice(alloc, sink.bytes()).expect(rt, "memory for a text")
}

fn sink_of(rt: &impl Abort, alloc: Global) -> MemSink {
    let sink = MemSink::new(alloc, 4000, Vec::new(alloc));
    sink.ok().expect(rt, "memory for a sink")
}
