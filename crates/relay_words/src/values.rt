//! The values of options and of words by themselves.
ghost use Rattle.std.specs.Prelude.{◌≡◌, None, IfOk, IfSome, find, option_copied};
ghost use Rattle.frame_head.specs.Codecs.{fault_of};
ghost use Rattle.frame_head.specs.Outs.{out_fault};
ghost use Rattle.relay_words.specs.Numbers.{number_in};
ghost use Rattle.relay_words.specs.Codecs.{codec_of};
ghost use Rattle.relay_words.specs.Outs.{out_of};
ghost use Rattle.relay_words.specs.Item.{is_word};
ghost use Rattle.relay_words.specs.Orders.{block_of, cap_of, codec_given, drops_slow, input_of, limit_of};
ghost use Rattle.relay_words.specs.Orders.{n_given, option_in, out_given, passed_codec, passed_out};
ghost use Rattle.relay_words.specs.Orders.{stages_given, sub_given, subs_given, value_in, value_or};
ghost use Rattle.relay_words.specs.Orders.{written_as};

use crate::codecs::read_codec;
use crate::items::Item;
use crate::kinds::{behind_codec, slow_of};
use crate::name::{Name, is_name};
use crate::numbers::number_in;
use crate::outs::read_out;
use crate::stages::{StageWords, read_stages};
use crate::subscribers::{SubWord, name_part, read_sub};
use crate::word_list::WordList;
use frame_head::{Codec, Out, check, check_out};
use std::alloc::{AllocError, Global};

/// The option of this name.
pub(crate) fn option_in<'b, 'a>(items: &'b [Item<'a>], name: &[u8]) -> Option<&'b Item<'a>>
    ensures { option_copied result ≡ option_in name.now items.now }
{
    items.iter().find(|i| i.is_named(name))
}

fn first_word<'b, 'a>(items: &'b [Item<'a>]) -> Option<&'b Item<'a>>
    ensures { option_copied result ≡ find is_word items.now }
{
    items.iter().find(|i| i.is_word())
}

/// The first subscriber with a name.
pub(crate) fn written_as<'b, 'a>(items: &'b [Item<'a>], name: &[u8]) -> Option<&'b Item<'a>>
    ensures { option_copied result ≡ written_as name.now items.now }
{
    behind_codec(items)
        .iter()
        .find(|i| i.is_word() && name_part(i.text()) == name)
}

fn value_in<'a>(items: &[Item<'a>], name: &[u8]) -> Option<&'a [u8]>
    ensures { option_copied result ≡ value_in name.now items.now }
{
    option_in(items, name)?.value()
}

fn number_or(items: &[Item], name: &[u8], least: u64, greatest: u64, default: u64) -> u64
    ensures { result ≡ value_or default name.now (number_in least greatest) items.now }
{
    match value_in(items, name) {
        None => default,
        Some(w) => number_in(w, least, greatest).unwrap_or(default),
    }
}

/// The size of a block in bytes.
pub(crate) fn block_of(items: &[Item]) -> usize
    ensures { result ≡ block_of items.now }
{
    number_or(items, b"--block", 1, 1_048_576, 65_536) as usize
}

/// How many frames a queue holds.
pub(crate) fn cap_of(items: &[Item]) -> usize
    ensures { result ≡ cap_of items.now }
{
    number_or(items, b"--cap", 1, 1024, 64) as usize
}

/// How many bytes are read at most.
pub(crate) fn limit_of(items: &[Item]) -> u64
    ensures { result ≡ limit_of items.now }
{
    number_or(items, b"--limit", 0, 1_099_511_627_776, 1_099_511_627_776)
}

/// The name of the input.
pub(crate) fn input_of(alloc: Global, items: &[Item]) -> Result<Name, AllocError>
    ensures { IfOk result (λ n. n ≡ input_of items.now) }
{
    match value_in(items, b"--in") {
        Some(w) if is_name(w) => Name::of(alloc, w),
        _ => Ok(Name::none(alloc)),
    }
}

/// Whether a slow subscriber is dropped.
pub(crate) fn drops_slow(items: &[Item]) -> bool
    ensures { result ≡ drops_slow items.now }
{
    match value_in(items, b"--slow") {
        None => false,
        Some(w) => slow_of(w).unwrap_or(false),
    }
}

pub(crate) fn stages_given(alloc: Global, items: &[Item]) -> Result<StageWords, AllocError>
    ensures { IfOk result (λ s. s ≡ stages_given items.now) }
{
    let Some(w) = value_in(items, b"--stages") else {
        return Ok(WordList::none(alloc));
    };
    match read_stages(alloc, w)? {
        None => Ok(WordList::none(alloc)),
        Some(stages) => Ok(stages),
    }
}

fn passed_codec(alloc: Global, w: &[u8]) -> Result<Option<Codec>, AllocError>
    ensures codec { IfOk result (λ c. c ≡ passed_codec (codec_of w.now)) }
    ensures passed { IfOk result (λ o. IfSome o (λ c. fault_of c ≡ None)) }
{
    let Some(codec) = read_codec(alloc, w)? else {
        return Ok(None);
    };
    match check(&codec) {
        Ok(()) => Ok(Some(codec)),
        Err(_) => Ok(None),
    }
}

fn passed_out(alloc: Global, w: &[u8]) -> Result<Option<Out>, AllocError>
    ensures out { IfOk result (λ o. o ≡ passed_out (out_of w.now)) }
    ensures passed { IfOk result (λ o. IfSome o (λ out. out_fault out ≡ None)) }
{
    let Some(out) = read_out(alloc, w)? else {
        return Ok(None);
    };
    match check_out(&out) {
        Ok(()) => Ok(Some(out)),
        Err(_) => Ok(None),
    }
}

pub(crate) fn codec_given(alloc: Global, items: &[Item]) -> Result<Option<Codec>, AllocError>
    ensures codec { IfOk result (λ c. c ≡ codec_given items.now) }
    ensures passed { IfOk result (λ o. IfSome o (λ c. fault_of c ≡ None)) }
{
    match first_word(items) {
        None => Ok(None),
        Some(item) => passed_codec(alloc, item.text()),
    }
}

pub(crate) fn out_given(alloc: Global, items: &[Item]) -> Result<Option<Out>, AllocError>
    ensures out { IfOk result (λ o. o ≡ out_given items.now) }
    ensures passed { IfOk result (λ o. IfSome o (λ out. out_fault out ≡ None)) }
{
    match option_in(items, b"--out") {
        None => Ok(None),
        Some(item) => passed_out(alloc, item.text()),
    }
}

/// How many frames `mill` makes.
pub(crate) fn n_given(items: &[Item]) -> Option<u64>
    ensures { result ≡ n_given items.now }
{
    number_in(first_word(items)?.text(), 0, 100_000)
}

fn sub_given(alloc: Global, item: &Item) -> Result<Option<SubWord>, AllocError>
    ensures { IfOk result (λ s. s ≡ sub_given item.now) }
{
    if !item.is_word() {
        return Ok(None);
    }
    read_sub(alloc, item.text())
}

pub(crate) fn subs_given(alloc: Global, items: &[Item]) -> Result<Vec<SubWord>, AllocError>
    ensures { IfOk result (λ v. v.items ≡ subs_given items.now) }
{
    let mut subs = Vec::new(alloc);
    for item in behind_codec(items) {
        if let Some(sub) = sub_given(alloc, item)? {
            subs.push(sub)?;
        }
    }
    Ok(subs)
}
