//! Delimiters in hexadecimal.
ghost use Rattle.std.specs.Prelude.{◌≡◌, ◌<◌, true, IfOk};
ghost use Rattle.relay_words.specs.Hex.{hex_byte, hex_bytes, hex_list, hex_value, is_hex_digit};

use crate::numbers::is_digit;
use crate::parts::cut;
use frame_head::{Mark, Marks};
use std::alloc::{AllocError, Global};

fn is_hex_digit(b: u8) -> bool
    ensures { result ≡ is_hex_digit b }
{
    is_digit(b) || b'a' <= b && b <= b'f'
}

fn hex_value(b: u8) -> u8
    requires { is_hex_digit b ≡ true }
    ensures value { result ≡ hex_value b }
    ensures small { result < 16 }
{
    if is_digit(b) { b - b'0' } else { b - b'a' + 10 }
}

fn hex_byte(high: u8, low: u8) -> Option<u8>
    ensures { result ≡ hex_byte high low }
{
    if !is_hex_digit(high) || !is_hex_digit(low) {
        return None;
    }
    Some(16 * hex_value(high) + hex_value(low))
}

/// The bytes that pairs of lower-case digits are. One allocation.
pub(crate) fn read_mark(alloc: Global, w: &[u8]) -> Result<Option<Mark>, AllocError>
    ensures { IfOk result (λ m. m ≡ hex_bytes w.now) }
{
    let mut bytes = Vec::with_capacity(alloc, w.len() / 2)?;
    let mut rest = w;
    while let [high, low, others @ ..] = rest {
        let Some(byte) = hex_byte(*high, *low) else {
            return Ok(None);
        };
        bytes.push(byte)?;
        rest = others;
    }
    if !rest.is_empty() {
        return Ok(None);
    }
    Ok(Some(Mark::new(bytes)))
}

/// The delimiters that bars separate; no text is none of them.
pub(crate) fn read_marks(alloc: Global, w: &[u8]) -> Result<Option<Marks>, AllocError>
    ensures { IfOk result (λ m. m ≡ hex_list w.now) }
{
    let mut list = Vec::new(alloc);
    if w.is_empty() {
        return Ok(Some(Marks::new(list)));
    }
    let parts = cut(alloc, w, b'|')?;
    for part in &parts {
        let Some(mark) = read_mark(alloc, part.bytes())? else {
            return Ok(None);
        };
        list.push(mark)?;
    }
    Ok(Some(Marks::new(list)))
}
