//! Codec words.
ghost use Rattle.std.specs.Prelude.{◌≡◌, ◌≤◌, [], ◌∷◌, IfOk, IfSome, codes};
ghost use Rattle.relay_words.specs.Numbers.{number, number_in};
ghost use Rattle.relay_words.specs.Parts.{value_of, where_keyed, with};
ghost use Rattle.relay_words.specs.Hex.{hex_list};
ghost use Rattle.relay_words.specs.Codecs.{adjust_of, byte_order, end_of, field_of, line_end, max_of, number_or};
ghost use Rattle.relay_words.specs.Codecs.{order_of, strip_of, yes_or_no, delim_keys};
ghost use Rattle.relay_words.specs.Codecs.{length_keys, line_keys};
ghost use Rattle.relay_words.specs.Codecs.{codec_by, codec_of, delim_codec, fixed_codec, length_codec, line_codec};

use crate::hex::read_marks;
use crate::numbers::{adjustment, number, number_in};
use crate::parts::{Kinded, Part, value_of};
use frame_head::{Codec, LineEnd, Marks};
use std::alloc::{AllocError, Global};

/// The codec that a word names, where it has the form of one. It is O(length of the word).
#[tactic(auto, using(crate::proofs::Named::named_by))]
pub(crate) fn read_codec(alloc: Global, w: &[u8]) -> Result<Option<Codec>, AllocError>
    ensures { IfOk result (λ c. c ≡ codec_of w.now) }
{
    let word = Kinded::new(alloc, w)?;
    codec_by(alloc, &word)
}

fn codec_by(alloc: Global, word: &Kinded) -> Result<Option<Codec>, AllocError>
    ensures { IfOk result (λ c. c ≡ codec_by word.now.kind word.now.parts) }
{
    if word.is(b"length") {
        return Ok(keyed_length(word));
    }
    if word.is(b"line") {
        return Ok(keyed_line(word));
    }
    if word.is(b"delim") {
        return keyed_delim(alloc, word);
    }
    if word.is(b"fixed") {
        return Ok(keyed_fixed(word));
    }
    Ok(None)
}

fn keyed_length(word: &Kinded) -> Option<Codec>
    ensures { result ≡ where_keyed length_keys word.now.parts (length_codec word.now.parts) }
{
    length_codec(word.keyed(&[
        Part::new(b"field="),
        Part::new(b"offset="),
        Part::new(b"adjust="),
        Part::new(b"strip="),
        Part::new(b"order="),
        Part::new(b"max="),
    ])?)
}

fn keyed_line(word: &Kinded) -> Option<Codec>
    ensures { result ≡ where_keyed line_keys word.now.parts (line_codec word.now.parts) }
{
    line_codec(word.keyed(&[Part::new(b"end="), Part::new(b"strip="), Part::new(b"max=")])?)
}

fn keyed_delim(alloc: Global, word: &Kinded) -> Result<Option<Codec>, AllocError>
    ensures { IfOk result (λ c. c ≡ where_keyed delim_keys word.now.parts (delim_codec word.now.parts)) }
{
    let keys = [Part::new(b"hex="), Part::new(b"strip="), Part::new(b"max=")];
    let Some(parts) = word.keyed(&keys) else {
        return Ok(None);
    };
    match list_of(alloc, parts)? {
        None => Ok(None),
        Some(list) => Ok(delim_codec(list, parts)),
    }
}

fn keyed_fixed(word: &Kinded) -> Option<Codec>
    ensures { result ≡ where_keyed (codes "size=" ∷ []) word.now.parts (fixed_codec word.now.parts) }
{
    let parts = word.keyed(&[Part::new(b"size=")])?;
    let size = number(value_of(parts, b"size=")?)?;
    Some(Codec::Fixed { size })
}

fn length_codec(parts: &[Part]) -> Option<Codec>
    ensures { result ≡ length_codec parts.now }
{
    let field = field_of(parts)?;
    let offset = small_or_none(parts, b"offset=")?;
    let adjust = adjust_of(parts)?;
    let strip = small_or_none(parts, b"strip=")?;
    let little = order_of(parts)?;
    let max = max_of(parts)?;
    Some(Codec::Length {
        field,
        offset,
        adjust,
        strip,
        little,
        max,
    })
}

fn line_codec(parts: &[Part]) -> Option<Codec>
    ensures { result ≡ line_codec parts.now }
{
    let ending = end_of(parts)?;
    let strip = strip_of(parts)?;
    let max = max_of(parts)?;
    Some(Codec::Line { ending, strip, max })
}

fn delim_codec(list: Marks, parts: &[Part]) -> Option<Codec>
    ensures { result ≡ with (strip_of parts.now) (λ strip.
        with (max_of parts.now) (λ greatest. Some (Codec.Delim list strip greatest))) }
{
    let strip = strip_of(parts)?;
    let max = max_of(parts)?;
    Some(Codec::Delim { list, strip, max })
}

// The size of a length field in bytes; 255 at most, which `check` narrows.
pub(crate) fn field_of(parts: &[Part]) -> Option<u8>
    ensures { result ≡ field_of parts.now }
{
    let n = number_in(value_of(parts, b"field=")?, 0, 255)?;
    Some(n as u8)
}

// A number of bytes of 16 MiB at most, or else 0.
fn small_or_none(parts: &[Part], key: &[u8]) -> Option<u32>
    ensures { result ≡ number_or 0 16777216 key.now parts.now }
{
    match value_of(parts, key) {
        None => Some(0),
        Some(w) => {
            let n = number_in(w, 0, 16_777_216)?;
            Some(n as u32)
        }
    }
}

fn adjust_of(parts: &[Part]) -> Option<i32>
    ensures { result ≡ adjust_of parts.now }
{
    match value_of(parts, b"adjust=") {
        None => Some(0),
        Some(w) => adjustment(w),
    }
}

pub(crate) fn order_of(parts: &[Part]) -> Option<bool>
    ensures { result ≡ order_of parts.now }
{
    match value_of(parts, b"order=") {
        None => Some(false),
        Some(w) => byte_order(w),
    }
}

fn max_of(parts: &[Part]) -> Option<u64>
    ensures { result ≡ max_of parts.now }
{
    match value_of(parts, b"max=") {
        None => Some(1_048_576),
        Some(w) => number(w),
    }
}

fn strip_of(parts: &[Part]) -> Option<bool>
    ensures { result ≡ strip_of parts.now }
{
    match value_of(parts, b"strip=") {
        None => Some(true),
        Some(w) => yes_or_no(w),
    }
}

fn end_of(parts: &[Part]) -> Option<LineEnd>
    ensures { result ≡ end_of parts.now }
{
    match value_of(parts, b"end=") {
        None => Some(LineEnd::Any),
        Some(w) => line_end(w),
    }
}

fn list_of(alloc: Global, parts: &[Part]) -> Result<Option<Marks>, AllocError>
    ensures { IfOk result (λ m. m ≡ with (value_of (codes "hex=") parts.now) hex_list) }
{
    match value_of(parts, b"hex=") {
        None => Ok(None),
        Some(w) => read_marks(alloc, w),
    }
}

fn byte_order(w: &[u8]) -> Option<bool>
    ensures { result ≡ byte_order w.now }
{
    match w {
        b"be" => Some(false),
        b"le" => Some(true),
        _ => None,
    }
}

fn yes_or_no(w: &[u8]) -> Option<bool>
    ensures { result ≡ yes_or_no w.now }
{
    match w {
        b"yes" => Some(true),
        b"no" => Some(false),
        _ => None,
    }
}

fn line_end(w: &[u8]) -> Option<LineEnd>
    ensures { result ≡ line_end w.now }
{
    match w {
        b"any" => Some(LineEnd::Any),
        b"lf" => Some(LineEnd::Lf),
        b"crlf" => Some(LineEnd::Crlf),
        _ => None,
    }
}
