ghost use Rattle.std.specs.Prelude.{◌≡◌, ◌*◌, ◌≤◌, false, [], length, decimal, IfOk};
ghost use Rattle.hex.specs.Hex.{encode_lower};
ghost use Rattle.relay_ports.specs.States.{SinkState};
ghost use Rattle.buffered_io.specs.Writing.{HasRoom, PrintsTo, outlet, entry_text};

use crate::texts::{write_bytes, write_decimal, write_entry, write_hexadecimal};
use crate::writing::write_all;
use relay_ports::Sink;
use std::alloc::{AllocError, Global};
use std::marker::Model;

// How many bytes wait at most.
const ROOM: usize = 65_536;

/// Text on its way to a sink, gathered into few large writes.
///
/// It takes 64 KiB when it is made, and no memory after that. Each call is linear in what it prints. The sink is called
/// where there is no room, and by `flush`. Once a write has failed nothing more is printed, and the sink isn't called
/// again.
#[derive(Debug, Drop)]
pub struct Printer {
    room: Vec<u8>,
    used: usize,
    failed: bool,
}

impl Model for Printer {
    ghost use Rattle.std.specs.Prelude.{◌≡◌, ℕ, ◌≤◌, true, take, vec_len};
    ghost use Rattle.buffered_io.specs.Writing.{Waiting};

    ghost Value = { Waiting };

    ghost view = { λ p. record { text = take p.used p.room.items; failed = p.failed } };

    ghost invariant = { λ p. (vec_len p.room ≡ 65536) × (p.used ≤ 65536) × (p.failed ≡ true → p.used ≡ 0) };
}

impl Printer {
    /// A printer with no text.
    pub fn new(alloc: Global) -> Result<Printer, AllocError>
        ensures { IfOk result (λ p. p ≡ record { text = []; failed = false }) }
    {
        Ok(Printer {
            room: vec![in alloc; 0u8; ROOM]?,
            used: 0,
            failed: false,
        })
    }

    /// Whether a write failed.
    pub fn failed(&self) -> bool
        ensures { result ≡ self.now.failed }
    {
        self.failed
    }

    /// Prints bytes as they are. Those that don't fit into the room beside what waits, and are as many as it holds or
    /// more, are written from where they lie, behind what waits.
    #[inline(always)]
    pub fn put<W: Sink>(&mut self, sink: &mut W, bytes: &[u8])
        ensures prints { PrintsTo bytes.now (outlet self.old (W.state sink.old)) (outlet self.new (W.state sink.new)) }
        ensures waits { HasRoom (length bytes.now) self.old → sink.new ≡ sink.old }
    {
        if bytes.len() <= ROOM - self.used {
            self.keep(bytes);
        } else {
            self.put_long(sink, bytes);
        }
    }

    // The long way, where there is no room for all.
    #[inline(never)]
    fn put_long<W: Sink>(&mut self, sink: &mut W, bytes: &[u8])
        ensures { PrintsTo bytes.now (outlet self.old (W.state sink.old)) (outlet self.new (W.state sink.new)) }
    {
        if bytes.len() < ROOM {
            self.put_in_pieces(sink, bytes);
        } else {
            self.flush(sink);
            self.put_from_place(sink, bytes);
        }
    }

    // Writes bytes from where they lie, behind no others.
    fn put_from_place<W: Sink>(&mut self, sink: &mut W, bytes: &[u8])
        requires { self.old.failed ≡ false → self.old.text ≡ [] }
        ensures { PrintsTo bytes.now (outlet self.old (W.state sink.old)) (outlet self.new (W.state sink.new)) }
    {
        if self.failed {
            return;
        }
        self.failed = !write_all(sink, bytes);
        self.used = 0;
    }

    // Keeps as much as fits, and writes it out for the next.
    fn put_in_pieces<W: Sink>(&mut self, sink: &mut W, bytes: &[u8])
        ensures { PrintsTo bytes.now (outlet self.old (W.state sink.old)) (outlet self.new (W.state sink.new)) }
    {
        let mut at = 0;
        'pieces: while at < bytes.len() {
            self.make_room(sink, 1);
            let n = (bytes.len() - at).min(ROOM - self.used);
            self.keep(&bytes[at..at + n]);
            at += n;
        }
    }

    /// Prints a number in decimal. It looks for room for 20 digits.
    #[inline]
    pub fn put_decimal<W: Sink>(&mut self, sink: &mut W, n: u64)
        ensures prints { PrintsTo (decimal n)
            (outlet self.old (W.state sink.old)) (outlet self.new (W.state sink.new)) }
        ensures waits { HasRoom 20 self.old → sink.new ≡ sink.old }
    {
        self.make_room(sink, 20);
        self.keep_decimal(n);
    }

    /// Prints a letter and two numbers in decimal, with a space behind each: the head of a line. It looks
    /// once for room, for 44 bytes.
    #[inline(always)]
    pub fn put_entry<W: Sink>(&mut self, sink: &mut W, letter: u8, first: u64, second: u64)
        ensures prints { PrintsTo (entry_text letter first second)
            (outlet self.old (W.state sink.old)) (outlet self.new (W.state sink.new)) }
        ensures waits { HasRoom 44 self.old → sink.new ≡ sink.old }
    {
        self.make_room(sink, 44);
        self.keep_entry(letter, first, second);
    }

    /// Prints bytes in lower-case hexadecimal, two digits a byte.
    #[inline]
    pub fn put_hexadecimal<W: Sink>(&mut self, sink: &mut W, bytes: &[u8])
        ensures prints { PrintsTo (encode_lower bytes.now)
            (outlet self.old (W.state sink.old)) (outlet self.new (W.state sink.new)) }
        ensures waits { HasRoom (2 * length bytes.now) self.old → sink.new ≡ sink.old }
    {
        if bytes.len() <= (ROOM - self.used) / 2 {
            self.keep_hexadecimal(bytes);
        } else {
            self.put_hexadecimal_in_pieces(sink, bytes);
        }
    }

    // The long way, where there is no room for all.
    #[inline(never)]
    fn put_hexadecimal_in_pieces<W: Sink>(&mut self, sink: &mut W, bytes: &[u8])
        ensures { PrintsTo (encode_lower bytes.now)
            (outlet self.old (W.state sink.old)) (outlet self.new (W.state sink.new)) }
    {
        let mut at = 0;
        'pieces: while at < bytes.len() {
            self.make_room(sink, 2);
            let n = (bytes.len() - at).min((ROOM - self.used) / 2);
            self.keep_hexadecimal(&bytes[at..at + n]);
            at += n;
        }
    }

    /// Writes out all that waits.
    pub fn flush<W: Sink>(&mut self, sink: &mut W)
        ensures prints { PrintsTo [] (outlet self.old (W.state sink.old)) (outlet self.new (W.state sink.new)) }
        ensures empty { self.new.failed ≡ false → self.new.text ≡ [] }
    {
        if self.failed {
            return;
        }
        self.write_out(sink);
    }

    // Writes out all that waits where there is no room for so many bytes more.
    #[inline]
    fn make_room<W: Sink>(&mut self, sink: &mut W, bytes: usize)
        requires { bytes ≤ 65536 }
        ensures prints { PrintsTo [] (outlet self.old (W.state sink.old)) (outlet self.new (W.state sink.new)) }
        ensures room { HasRoom bytes self.new }
        ensures waits { HasRoom bytes self.old → sink.new ≡ sink.old }
    {
        if ROOM - self.used < bytes {
            self.write_out(sink);
        }
    }

    #[inline(never)]
    fn write_out<W: Sink>(&mut self, sink: &mut W)
        requires { self.old.failed ≡ false }
        ensures prints { PrintsTo [] (outlet self.old (W.state sink.old)) (outlet self.new (W.state sink.new)) }
        ensures empty { self.new.text ≡ [] }
    {
        self.failed = !write_all(sink, &self.room[..self.used]);
        self.used = 0;
    }

    // Adds bytes for which there is room.
    #[inline(always)]
    fn keep(&mut self, bytes: &[u8])
        requires { HasRoom (length bytes.now) self.old }
        ensures { (w : SinkState) → PrintsTo bytes.now (outlet self.old w) (outlet self.new w) }
    {
        if self.failed {
            return;
        }
        write_bytes(&mut self.room, self.used, bytes);
        self.used += bytes.len();
    }

    // Adds a number, for which there is room.
    #[inline]
    fn keep_decimal(&mut self, n: u64)
        requires { HasRoom 20 self.old }
        ensures { (w : SinkState) → PrintsTo (decimal n) (outlet self.old w) (outlet self.new w) }
    {
        if self.failed {
            return;
        }
        self.used += write_decimal(&mut self.room, self.used, n);
    }

    // Adds a letter and two numbers, for which there is room.
    #[inline]
    fn keep_entry(&mut self, letter: u8, first: u64, second: u64)
        requires { HasRoom 44 self.old }
        ensures { (w : SinkState) → PrintsTo (entry_text letter first second)
            (outlet self.old w) (outlet self.new w) }
    {
        if self.failed {
            return;
        }
        self.used += write_entry(&mut self.room, self.used, letter, first, second);
    }

    // Adds bytes in hexadecimal, for which there is room.
    #[inline]
    fn keep_hexadecimal(&mut self, bytes: &[u8])
        requires { HasRoom (2 * length bytes.now) self.old }
        ensures { (w : SinkState) → PrintsTo (encode_lower bytes.now) (outlet self.old w) (outlet self.new w) }
    {
        if self.failed {
            return;
        }
        write_hexadecimal(&mut self.room, self.used, bytes);
        self.used += 2 * bytes.len();
    }
}
