//! Words for subscribers.
ghost use Rattle.std.specs.Prelude.{◌≡◌, ◌≤◌, IfOk, length};
ghost use Rattle.std.specs.Option.{is_some};
ghost use Rattle.relay_words.specs.Subscribers.{before, from, is_sub, name_part, ordered, places_of};
ghost use Rattle.relay_words.specs.Subscribers.{range_of, same_name, sub_of, sub_places};

use crate::name::{Name, is_name};
use crate::numbers::number;
use crate::parts::{part_value, place_of};
use crate::word_list::WordList;
use std::alloc::{AllocError, Global};

/// A subscriber: its name, and its places from `first` up to and without `until`, or to the end.
#[derive(Debug, Drop)]
pub struct SubWord {
    pub name: Name,
    pub first: u64,
    pub until: Option<u64>,
}

/// Subscribers in order, at least one and at most 64, whose names differ.
pub type SubWords = WordList<SubWord>;

/// A subscriber of this word, where it has the form of one. One allocation.
pub(crate) fn read_sub(alloc: Global, w: &[u8]) -> Result<Option<SubWord>, AllocError>
    ensures { IfOk result (λ s. s ≡ sub_of w.now) }
{
    let name = name_part(w);
    if !is_name(name) {
        return Ok(None);
    }
    let Some((first, until)) = places_of(from(w, b'@')) else {
        return Ok(None);
    };
    let name = Name::of(alloc, name)?;
    Ok(Some(SubWord { name, first, until }))
}

pub(crate) fn is_sub(w: &[u8]) -> bool
    ensures { result ≡ is_sub w.now }
{
    is_name(name_part(w)) && places_of(from(w, b'@')).is_some()
}

pub(crate) fn same_name(w: &[u8], other: &[u8]) -> bool
    ensures { result ≡ same_name w.now other.now }
{
    name_part(w) == name_part(other)
}

// What stands before a subscriber's `@`.
pub(crate) fn name_part(w: &[u8]) -> &[u8]
    ensures { result.now ≡ name_part w.now }
{
    before(w, b'@')
}

// A word up to the first such byte.
pub(crate) fn before(w: &[u8], byte: u8) -> &[u8]
    ensures text { result.now ≡ before byte w.now }
    ensures within { length result.now ≤ length w.now }
{
    match place_of(w, byte) {
        None => w,
        Some(at) => &w[..at],
    }
}

// A word from the first such byte on.
fn from(w: &[u8], byte: u8) -> &[u8]
    ensures { result.now ≡ from byte w.now }
{
    &w[before(w, byte).len()..]
}

// The places behind a subscriber's name: all where there are none.
fn places_of(w: &[u8]) -> Option<(u64, Option<u64>)>
    ensures { result ≡ places_of w.now }
{
    if w.is_empty() {
        return Some((0, None));
    }
    range_of(&w[1..])
}

// `J`, or `J..K` with J at most K.
fn range_of(w: &[u8]) -> Option<(u64, Option<u64>)>
    ensures { result ≡ range_of w.now }
{
    let behind = from(w, b'.');
    if behind.is_empty() {
        let first = number(w)?;
        return Some((first, None));
    }
    let first = number(before(w, b'.'))?;
    let until = number(part_value(behind, b"..")?)?;
    if first <= until {
        Some((first, Some(until)))
    } else {
        None
    }
}
