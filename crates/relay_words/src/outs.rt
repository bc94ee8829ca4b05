//! Words for ways of writing frames.
ghost use Rattle.std.specs.Prelude.{◌≡◌, [], ◌∷◌, IfOk, Some, codes};
ghost use Rattle.relay_words.specs.Parts.{value_of, where_keyed, with};
ghost use Rattle.relay_words.specs.Hex.{hex_bytes};
ghost use Rattle.relay_words.specs.Outs.{delim_out, length_out, line_out, out_by, out_of, written_end};

use crate::codecs::{field_of, order_of};
use crate::hex::read_mark;
use crate::parts::{Kinded, Part, value_of};
use frame_head::{Mark, Out};
use std::alloc::{AllocError, Global};

/// The way of writing that a word names, where it has the form of one. It is O(length of the word).
#[tactic(auto, using(crate::proofs::Named::named_by))]
pub(crate) fn read_out(alloc: Global, w: &[u8]) -> Result<Option<Out>, AllocError>
    ensures { IfOk result (λ o. o ≡ out_of w.now) }
{
    let word = Kinded::new(alloc, w)?;
    out_by(alloc, &word)
}

fn out_by(alloc: Global, word: &Kinded) -> Result<Option<Out>, AllocError>
    ensures { IfOk result (λ o. o ≡ out_by word.now.kind word.now.parts) }
{
    if word.is(b"length") {
        return Ok(keyed_length(word));
    }
    if word.is(b"line") {
        return Ok(keyed_line(word));
    }
    if word.is(b"delim") {
        return keyed_delim(alloc, word);
    }
    if word.is(b"raw") {
        return Ok(keyed_raw(word));
    }
    Ok(None)
}

fn keyed_length(word: &Kinded) -> Option<Out>
    ensures { result
        ≡ where_keyed (codes "field=" ∷ codes "order=" ∷ []) word.now.parts (length_out word.now.parts) }
{
    let parts = word.keyed(&[Part::new(b"field="), Part::new(b"order=")])?;
    let field = field_of(parts)?;
    let little = order_of(parts)?;
    Some(Out::Length { field, little })
}

fn keyed_line(word: &Kinded) -> Option<Out>
    ensures { result ≡ where_keyed (codes "end=" ∷ []) word.now.parts (line_out word.now.parts) }
{
    let parts = word.keyed(&[Part::new(b"end=")])?;
    match value_of(parts, b"end=") {
        None => Some(Out::Line { crlf: false }),
        Some(w) => {
            let crlf = written_end(w)?;
            Some(Out::Line { crlf })
        }
    }
}

fn keyed_delim(alloc: Global, word: &Kinded) -> Result<Option<Out>, AllocError>
    ensures { IfOk result (λ o. o ≡ where_keyed (codes "hex=" ∷ []) word.now.parts (delim_out word.now.parts)) }
{
    let Some(parts) = word.keyed(&[Part::new(b"hex=")]) else {
        return Ok(None);
    };
    match mark_of(alloc, parts)? {
        None => Ok(None),
        Some(mark) => Ok(Some(Out::Delim { mark })),
    }
}

fn keyed_raw(word: &Kinded) -> Option<Out>
    ensures { result ≡ where_keyed [] word.now.parts (Some Out.Raw) }
{
    word.keyed(&[])?;
    Some(Out::Raw)
}

fn mark_of(alloc: Global, parts: &[Part]) -> Result<Option<Mark>, AllocError>
    ensures { IfOk result (λ m. m ≡ with (value_of (codes "hex=") parts.now) hex_bytes) }
{
    match value_of(parts, b"hex=") {
        None => Ok(None),
        Some(w) => read_mark(alloc, w),
    }
}

fn written_end(w: &[u8]) -> Option<bool>
    ensures { result ≡ written_end w.now }
{
    match w {
        b"lf" => Some(false),
        b"crlf" => Some(true),
        _ => None,
    }
}
