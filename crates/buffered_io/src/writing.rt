ghost use Rattle.std.specs.Bool.{MatchBool};
ghost use Rattle.buffered_io.specs.Writing.{Wrote, Broke};

use relay_ports::Sink;

/// Writes all of a text by repeated writes, and answers whether none failed. After a failure nothing more is written.
pub fn write_all<W: Sink>(sink: &mut W, text: &[u8]) -> bool
    ensures { MatchBool result
        (Wrote text.now (W.state sink.old) (W.state sink.new))
        (Broke text.now (W.state sink.old) (W.state sink.new)) }
{
    let mut at = 0;
    'pieces: while at < text.len() {
        match sink.write(&text[at..]) {
            Ok(n) => at += n,
            Err(_) => return false,
        }
    }
    true
}
