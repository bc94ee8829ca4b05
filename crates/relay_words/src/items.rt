//! The words behind a command, in items.
ghost use Rattle.std.specs.Prelude.{◌≡◌, ◌+◌, ◌-◌, ◌^◌, ◌<◌, ◌≤◌, ⊤, [], ◌∷◌, IfOk, MatchOption, bytes_eq};
ghost use Rattle.std.specs.Prelude.{length, map, option_copied, string_bytes};
ghost use Rattle.relay_words.specs.Item.{is_word, text_of};
ghost use Rattle.relay_words.specs.Items.{begins_with_dash, has_equals, items, one_word, option_name, takes, two_words};

use crate::subscribers::before;
use std::alloc::{AllocError, Global};
use std::marker::Model;

// An option with its value, where it has one, or a word by itself, which has no name. The places are those of the
// option and of the value among all words.
#[derive(Drop)]
pub(crate) struct Item<'a> {
    at: usize,
    name: &'a [u8],
    value: Option<&'a [u8]>,
    value_at: usize,
}

impl<'a> Model for Item<'a> {
    ghost use Rattle.std.specs.Prelude.{option_copied};
    ghost use Rattle.relay_words.specs.Item.{Item};

    ghost Value = { Item };

    ghost view = { λ i. record { at = i.at; name = i.name.now; value = option_copied i.value; value_at = i.value_at } };
}

impl<'a> Item<'a> {
    pub(crate) fn at(&self) -> usize
        ensures { result ≡ self.now.at }
    {
        self.at
    }

    pub(crate) fn name(&self) -> &'a [u8]
        ensures { result.now ≡ self.now.name }
    {
        self.name
    }

    pub(crate) fn value(&self) -> Option<&'a [u8]>
        ensures { option_copied result ≡ self.now.value }
    {
        self.value
    }

    pub(crate) fn value_at(&self) -> usize
        ensures { result ≡ self.now.value_at }
    {
        self.value_at
    }

    pub(crate) fn is_word(&self) -> bool
        ensures { result ≡ is_word self.now }
    {
        self.name.is_empty()
    }

    pub(crate) fn is_named(&self, name: &[u8]) -> bool
        ensures { result ≡ bytes_eq self.now.name name.now }
    {
        self.name == name
    }

    // The value, or no text where it is missing.
    pub(crate) fn text(&self) -> &'a [u8]
        ensures { result.now ≡ text_of self.now }
    {
        match self.value {
            None => &[],
            Some(text) => text,
        }
    }
}

fn begins_with_dash(w: &[u8]) -> bool
    ensures { result ≡ begins_with_dash w.now }
{
    !w.is_empty() && w[0] == b'-'
}

// The name of an option: all before its first `=`.
fn option_name(w: &[u8]) -> &[u8]
    ensures text { result.now ≡ option_name w.now }
    ensures within { length result.now ≤ length w.now }
{
    before(w, b'=')
}

fn has_equals(w: &[u8]) -> bool
    ensures { result ≡ has_equals w.now }
{
    option_name(w).len() < w.len()
}

fn takes(w: &[u8], next: &[u8]) -> bool
    ensures { result ≡ takes w.now next.now }
{
    begins_with_dash(w) && !has_equals(w) && !begins_with_dash(next)
}

fn two_words<'a>(at: usize, w: &'a [u8], next: &'a [u8]) -> Item<'a>
    requires { at + 1 < 2 ^ 64 }
    ensures { result ≡ two_words at w.now next.now }
{
    Item {
        at,
        name: w,
        value: Some(next),
        value_at: at + 1,
    }
}

fn one_word<'a>(at: usize, w: &'a [u8]) -> Item<'a>
    ensures { result ≡ one_word at w.now }
{
    if !begins_with_dash(w) {
        return Item {
            at,
            name: &[],
            value: Some(w),
            value_at: at,
        };
    }
    if !has_equals(w) {
        return Item {
            at,
            name: w,
            value: None,
            value_at: at,
        };
    }
    let name = option_name(w);
    Item {
        at,
        name,
        value: Some(&w[name.len() + 1..]),
        value_at: at,
    }
}

// The first item of some words, the first of which has the place `at`, and the words behind it.
fn first_item<'a>(at: usize, words: &'a [String]) -> Option<(Item<'a>, &'a [String])>
    requires { at + length words.now < 2 ^ 64 }
    ensures items { MatchOption result (length words.now ≡ 0) (λ r.
        items at (map (λ w. string_bytes w) words.now)
        ≡ r.0 ∷ items (at + (length words.now - length r.1.now)) (map (λ w. string_bytes w) r.1.now)) }
    ensures shorter { MatchOption result ⊤ (λ r. length r.1.now < length words.now) }
{
    let (word, behind) = words.split_first()?;
    if let Some((next, more)) = behind.split_first() {
        if takes(word.as_bytes(), next.as_bytes()) {
            return Some((two_words(at, word.as_bytes(), next.as_bytes()), more));
        }
    }
    Some((one_word(at, word.as_bytes()), behind))
}

/// The items of the words behind a command, whose places begin with 1. One allocation, O(length of the words).
pub(crate) fn read_items<'a>(
    alloc: Global,
    words: &'a [String],
) -> Result<Vec<Item<'a>>, AllocError>
    ensures { IfOk result (λ v. v.items ≡ items 1 (map (λ w. string_bytes w) words.now)) }
{
    let mut list = Vec::with_capacity(alloc, words.len())?;
    let mut rest = words;
    while let Some((item, behind)) = first_item(1 + (words.len() - rest.len()), rest) {
        list.push(item)?;
        rest = behind;
    }
    Ok(list)
}
