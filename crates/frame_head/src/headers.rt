//! The pieces that stand about a frame where it is written.
ghost use Rattle.std.specs.Prelude.{◌≡◌, ◌≤◌, true, length, take};
ghost use Rattle.frame_head.specs.Checks.{is_field};
ghost use Rattle.frame_head.specs.Framed.{ending_of, field_bytes, fits_field, has_known_field, header_of, low_bytes};

use crate::lengths::most_in_field;
use crate::out::Out;

/// What stands before a frame: the first `used` bytes of `bytes`, at most 8.
#[derive(Clone, Copy, Debug)]
pub struct LengthHead {
    pub bytes: [u8; 8],
    pub used: usize,
}

/// What is written before a frame of `n` bytes: for a `Length` the number `n` in its field, and for the others nothing.
///
/// It never refuses: of an `n` that `fits_field` refuses it writes the lowest bytes, which name another length. It
/// takes no memory and is O(1).
pub fn header(out: &Out, n: u64) -> LengthHead
    requires { has_known_field out.now ≡ true }
    ensures text { take result.used result.bytes ≡ header_of out.now n }
    ensures used { result.used ≤ 8 }
{
    match out {
        Out::Length { field, little } => in_field(*field, *little, n),
        Out::Line { .. } => no_header(),
        Out::Delim { .. } => no_header(),
        Out::Raw => no_header(),
    }
}

fn no_header() -> LengthHead
    ensures { result.used ≡ 0 }
{
    LengthHead {
        bytes: [0; 8],
        used: 0,
    }
}

fn in_field(field: u8, little: bool, n: u64) -> LengthHead
    requires { is_field field ≡ true }
    ensures text { take result.used result.bytes ≡ field_bytes field little n }
    ensures used { result.used ≤ 8 }
{
    let used = usize::from(field);
    let mut bytes = [0; 8];
    let room = &mut bytes[..used];
    write_low(n, room);
    if !little {
        room.reverse();
    }
    LengthHead { bytes, used }
}

// Fills a field with the lowest bytes of a number, the one that weighs least first.
fn write_low(n: u64, field: &mut [u8])
    ensures { field.new ≡ low_bytes (length field.old) n }
{
    let mut left = n;
    for i in 0..field.len() {
        field[i] = (left % 256) as u8;
        left /= 256;
    }
}

/// What is written behind a frame: LF or CRLF, the delimiter, or nothing. It takes no memory and is O(1).
pub fn ending(out: &Out) -> &[u8]
    ensures { result.now ≡ ending_of out.now }
{
    match out {
        Out::Length { .. } => b"",
        Out::Line { crlf } => line_ending(*crlf),
        Out::Delim { mark } => mark.bytes(),
        Out::Raw => b"",
    }
}

fn line_ending(crlf: bool) -> &'static [u8]
    ensures { result.now ≡ ending_of (Out.Line crlf) }
{
    if crlf { b"\r\n" } else { b"\n" }
}

/// Whether the field before a frame can hold its length of `n` bytes. Where there is no field, each length is fine.
pub fn fits_field(out: &Out, n: u64) -> bool
    requires { has_known_field out.now ≡ true }
    ensures { result ≡ fits_field out.now n }
{
    match out {
        Out::Length { field, .. } => n <= most_in_field(*field),
        Out::Line { .. } => true,
        Out::Delim { .. } => true,
        Out::Raw => true,
    }
}
