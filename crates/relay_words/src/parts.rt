//! Words that are cut at a byte, and values behind keys.
ghost use Rattle.std.specs.Prelude.{◌≡◌, ◌==◌, ◌<◌, ⊤, true, false, [], ◌∷◌, IfOk, MatchOption, bytes_eq};
ghost use Rattle.std.specs.Prelude.{count_by, length, nat_le, option_copied, position};
ghost use Rattle.std.specs.List.{list_all, list_any, slice_split};
ghost use Rattle.relay_words.specs.Parts.{between_commas, has_key, is_keyed, part_value, value_of};

use std::alloc::{AllocError, Global};
use std::marker::Model;

// A part of a word. Contracts see its bytes.
#[derive(Drop)]
pub(crate) struct Part<'a> {
    bytes: &'a [u8],
}

impl<'a> Model for Part<'a> {
    ghost use Rattle.std.specs.Prelude.{ℕ, List};

    ghost Value = { List ℕ };

    ghost view = { λ p. p.bytes.now };
}

impl<'a> Part<'a> {
    pub(crate) fn new(bytes: &'a [u8]) -> Part<'a>
        ensures { result ≡ bytes.now }
    {
        Part { bytes }
    }

    pub(crate) fn bytes(&self) -> &'a [u8]
        ensures { result.now ≡ self.now }
    {
        self.bytes
    }

    pub(crate) fn is(&self, word: &[u8]) -> bool
        ensures { result ≡ bytes_eq self.now word.now }
    {
        self.bytes == word
    }

    fn has_key(&self, key: &Part<'_>) -> bool
        ensures { result ≡ has_key key.now self.now }
    {
        self.bytes.starts_with(key.bytes)
    }
}

// The place of the first such byte.
pub(crate) fn place_of(w: &[u8], byte: u8) -> Option<usize>
    ensures { result ≡ position (λ b. b == byte) w.now }
{
    w.iter().position(|b| *b == byte)
}

// What stands before the first such byte, and what stands behind it, where there is one.
pub(crate) fn cut_once(w: &[u8], byte: u8) -> (&[u8], Option<&[u8]>)
    ensures parts { MatchOption result.1 (slice_split (λ b. b == byte) w.now ≡ result.0.now ∷ []) (λ rest.
        slice_split (λ b. b == byte) w.now ≡ result.0.now ∷ slice_split (λ b. b == byte) rest.now) }
    ensures shorter { MatchOption result.1 ⊤ (λ rest. length rest.now < length w.now) }
{
    match place_of(w, byte) {
        None => (w, None),
        Some(at) => (&w[..at], Some(&w[at + 1..])),
    }
}

// The parts of a word between such bytes: at least one. One allocation for each doubling of their number.
pub(crate) fn cut<'a>(alloc: Global, w: &'a [u8], byte: u8) -> Result<Vec<Part<'a>>, AllocError>
    ensures { IfOk result (λ v. v.items ≡ slice_split (λ b. b == byte) w.now) }
{
    let mut parts = Vec::new(alloc);
    let mut rest = w;
    loop {
        let (part, behind) = cut_once(rest, byte);
        parts.push(Part::new(part))?;
        match behind {
            None => return Ok(parts),
            Some(more) => rest = more,
        }
    }
}

/// A word that names a kind, and behind commas has parts, each a key with its value. Contracts see both.
#[derive(Drop)]
pub(crate) struct Kinded<'a> {
    kind: &'a [u8],
    parts: Vec<Part<'a>>,
}

impl<'a> Model for Kinded<'a> {
    ghost use Rattle.relay_words.specs.Parts.{OfKind};

    ghost Value = { OfKind };

    ghost view = { λ w. record { kind = w.kind.now; parts = w.parts.items } };
}

impl<'a> Kinded<'a> {
    /// Any word is one. One allocation for each doubling of the number of parts.
    pub(crate) fn new(alloc: Global, w: &'a [u8]) -> Result<Kinded<'a>, AllocError>
        ensures { IfOk result (λ word. between_commas w.now ≡ word.kind ∷ word.parts) }
    {
        let (kind, rest) = cut_once(w, b',');
        let parts = match rest {
            None => Vec::new(alloc),
            Some(rest) => cut(alloc, rest, b',')?,
        };
        Ok(Kinded { kind, parts })
    }

    pub(crate) fn is(&self, kind: &[u8]) -> bool
        ensures { result ≡ bytes_eq self.now.kind kind.now }
    {
        self.kind == kind
    }

    /// The parts, where each has one of the keys, and no key comes twice.
    pub(crate) fn keyed(&self, keys: &[Part]) -> Option<&[Part<'a>]>
        ensures { MatchOption result (is_keyed keys.now self.now.parts ≡ false)
            (λ parts. (is_keyed keys.now self.now.parts ≡ true) × (parts.now ≡ self.now.parts)) }
    {
        if is_keyed(&self.parts, keys) {
            Some(&self.parts)
        } else {
            None
        }
    }
}

// Whether each part has one of the keys, and no key comes twice.
#[tactic(auto, unfolding(crate::specs::Parts::is_keyed))]
fn is_keyed(parts: &[Part], keys: &[Part]) -> bool
    ensures { result ≡ is_keyed keys.now parts.now }
{
    each_has_a_key(parts, keys) && no_key_twice(parts, keys)
}

fn each_has_a_key(parts: &[Part], keys: &[Part]) -> bool
    ensures { result ≡ list_all (λ part. list_any (λ key. has_key key part) keys.now) parts.now }
{
    parts.iter().all(|part| has_some_key(part, keys))
}

fn no_key_twice(parts: &[Part], keys: &[Part]) -> bool
    ensures { result ≡ list_all (λ key. nat_le (count_by (λ part. has_key key part) parts.now) 1) keys.now }
{
    keys.iter().all(|key| count_of(parts, key) <= 1)
}

fn has_some_key(part: &Part, keys: &[Part]) -> bool
    ensures { result ≡ list_any (λ key. has_key key part.now) keys.now }
{
    keys.iter().any(|key| part.has_key(key))
}

fn count_of(parts: &[Part], key: &Part) -> usize
    ensures { result ≡ count_by (λ part. has_key key.now part) parts.now }
{
    parts.iter().filter(|part| part.has_key(key)).count()
}

pub(crate) fn part_value<'a>(part: &'a [u8], key: &[u8]) -> Option<&'a [u8]>
    ensures { option_copied result ≡ part_value key.now part.now }
{
    if !part.starts_with(key) {
        return None;
    }
    Some(&part[key.len()..])
}

pub(crate) fn value_of<'a>(parts: &[Part<'a>], key: &[u8]) -> Option<&'a [u8]>
    ensures { option_copied result ≡ value_of key.now parts.now }
{
    for part in parts {
        let value = part_value(part.bytes(), key);
        if value.is_some() {
            return value;
        }
    }
    None
}
