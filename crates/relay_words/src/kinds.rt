//! What may stand where, and which word is blamed.
ghost use Rattle.std.specs.Prelude.{◌≡◌, ◌&&◌, [], IfOk, count_by, position};
ghost use Rattle.std.specs.List.{list_any};
ghost use Rattle.std.specs.Option.{is_none};
ghost use Rattle.relay_words.specs.Numbers.{number_in};
ghost use Rattle.relay_words.specs.Faults.{fault_where};
ghost use Rattle.relay_words.specs.Codecs.{codec_of};
ghost use Rattle.relay_words.specs.Outs.{out_of};
ghost use Rattle.relay_words.specs.Subscribers.{same_name};
ghost use Rattle.relay_words.specs.Item.{is_word, text_of};
ghost use Rattle.relay_words.specs.Kinds.{behind_codec, codec_fault, codec_kind, first_fault, has_form};
ghost use Rattle.relay_words.specs.Kinds.{is_given, item_fault, kind_of, option_fault, out_kind, slow_of};
ghost use Rattle.relay_words.specs.Kinds.{sub_fault, value_kind, word_fault};

use crate::codecs::read_codec;
use crate::command::{CommandName, has_option};
use crate::faults::{UsageKind, WordFault, usage, usage_of};
use crate::items::Item;
use crate::name::is_name;
use crate::numbers::number_in;
use crate::outs::read_out;
use crate::stages::read_stages;
use crate::subscribers::{is_sub, same_name};
use frame_head::{CodecFault, check, check_out};
use std::alloc::{AllocError, Global};

const MOST_SUBSCRIBERS: usize = 64;

/// The fault of the first bad item, if there is one.
pub(crate) fn first_fault(
    alloc: Global,
    command: CommandName,
    items: &[Item],
) -> Result<Option<WordFault>, AllocError>
    ensures { IfOk result (λ f. f ≡ first_fault command [] items.now) }
{
    for i in 0..items.len() {
        let fault = item_fault(alloc, command, &items[..i], &items[i])?;
        if fault.is_some() {
            return Ok(fault);
        }
    }
    Ok(None)
}

fn item_fault(
    alloc: Global,
    command: CommandName,
    before: &[Item],
    item: &Item,
) -> Result<Option<WordFault>, AllocError>
    ensures { IfOk result (λ f. f ≡ item_fault command before.now item.now) }
{
    if item.is_word() {
        word_fault(alloc, command, before, item)
    } else {
        option_fault(alloc, command, before, item)
    }
}

fn word_fault(
    alloc: Global,
    command: CommandName,
    before: &[Item],
    item: &Item,
) -> Result<Option<WordFault>, AllocError>
    ensures { IfOk result (λ f. f ≡ word_fault command before.now item.now) }
{
    let extra = some_word(before);
    match command {
        CommandName::Frames if extra => Ok(Some(usage(item.at(), UsageKind::Extra))),
        CommandName::Frames => codec_fault(alloc, item),
        CommandName::Chain => Ok(Some(usage(item.at(), UsageKind::Extra))),
        CommandName::Relay if extra => Ok(sub_fault(behind_codec(before), item)),
        CommandName::Relay => codec_fault(alloc, item),
        CommandName::Mill if extra => Ok(Some(usage(item.at(), UsageKind::Extra))),
        CommandName::Mill => Ok(frames_fault(item)),
    }
}

// A number of frames of `mill`.
fn frames_fault(item: &Item) -> Option<WordFault>
    ensures { result ≡ fault_where (is_none (number_in 0 100000 (text_of item.now))) item.now.at UsageKind.Value }
{
    if number_in(item.text(), 0, 100_000).is_none() {
        return Some(usage(item.at(), UsageKind::Value));
    }
    None
}

fn codec_fault(alloc: Global, item: &Item) -> Result<Option<WordFault>, AllocError>
    ensures { IfOk result (λ f. f ≡ codec_fault item.now) }
{
    let kind = codec_kind(alloc, item.text())?;
    Ok(usage_of(item.at(), kind))
}

fn codec_kind(alloc: Global, w: &[u8]) -> Result<Option<UsageKind>, AllocError>
    ensures { IfOk result (λ k. k ≡ codec_kind (codec_of w.now)) }
{
    let Some(codec) = read_codec(alloc, w)? else {
        return Ok(Some(UsageKind::Codec));
    };
    match check(&codec) {
        Ok(()) => Ok(None),
        Err(fault) => Ok(Some(kind_of(fault))),
    }
}

fn out_kind(alloc: Global, w: &[u8]) -> Result<Option<UsageKind>, AllocError>
    ensures { IfOk result (λ k. k ≡ out_kind (out_of w.now)) }
{
    let Some(out) = read_out(alloc, w)? else {
        return Ok(Some(UsageKind::Codec));
    };
    match check_out(&out) {
        Ok(()) => Ok(None),
        Err(fault) => Ok(Some(kind_of(fault))),
    }
}

fn kind_of(fault: CodecFault) -> UsageKind
    ensures { result ≡ kind_of fault }
{
    match fault {
        CodecFault::BadField => UsageKind::BadField,
        CodecFault::ZeroLen => UsageKind::ZeroLen,
        CodecFault::MaxOver => UsageKind::MaxOver,
        CodecFault::OffsetOver => UsageKind::OffsetOver,
        CodecFault::NoDelim => UsageKind::NoDelim,
        CodecFault::DelimOver => UsageKind::DelimOver,
    }
}

// A subscriber, with the items behind the codec that stand before it.
fn sub_fault(before: &[Item], item: &Item) -> Option<WordFault>
    ensures { result ≡ sub_fault before.now item.now }
{
    let good = is_sub(item.text());
    if good && names_again(before, item.text()) {
        return Some(usage(item.at(), UsageKind::Twice));
    }
    if !good || count_words(before) >= MOST_SUBSCRIBERS {
        return Some(usage(item.at(), UsageKind::Sub));
    }
    None
}

fn names_again(before: &[Item], w: &[u8]) -> bool
    ensures { result ≡ list_any (λ j. is_word j && same_name (text_of j) w.now) before.now }
{
    before.iter().any(|j| j.is_word() && same_name(j.text(), w))
}

fn count_words(items: &[Item]) -> usize
    ensures { result ≡ count_by is_word items.now }
{
    items.iter().filter(|i| i.is_word()).count()
}

fn some_word(items: &[Item]) -> bool
    ensures { result ≡ list_any is_word items.now }
{
    items.iter().any(|i| i.is_word())
}

fn first_word_place(items: &[Item]) -> Option<usize>
    ensures { result ≡ position is_word items.now }
{
    items.iter().position(|i| i.is_word())
}

/// The items behind the first word, which is the codec.
pub(crate) fn behind_codec<'b, 'a>(items: &'b [Item<'a>]) -> &'b [Item<'a>]
    ensures { result.now ≡ behind_codec items.now }
{
    match first_word_place(items) {
        None => &items[items.len()..],
        Some(at) => &items[at + 1..],
    }
}

fn option_fault(
    alloc: Global,
    command: CommandName,
    before: &[Item],
    item: &Item,
) -> Result<Option<WordFault>, AllocError>
    ensures { IfOk result (λ f. f ≡ option_fault command before.now item.now) }
{
    if !has_option(command, item.name()) {
        return Ok(Some(usage(item.at(), UsageKind::Option)));
    }
    if is_given(before, item.name()) {
        return Ok(Some(usage(item.at(), UsageKind::Twice)));
    }
    let Some(value) = item.value() else {
        return Ok(Some(usage(item.at(), UsageKind::Value)));
    };
    let kind = value_kind(alloc, item.name(), value)?;
    Ok(usage_of(item.value_at(), kind))
}

fn is_given(before: &[Item], name: &[u8]) -> bool
    ensures { result ≡ is_given name.now before.now }
{
    before.iter().any(|i| i.is_named(name))
}

fn value_kind(alloc: Global, name: &[u8], w: &[u8]) -> Result<Option<UsageKind>, AllocError>
    ensures { IfOk result (λ k. k ≡ value_kind name.now w.now) }
{
    if name == b"--out".as_slice() {
        return out_kind(alloc, w);
    }
    if has_form(alloc, name, w)? {
        return Ok(None);
    }
    Ok(Some(UsageKind::Value))
}

fn has_form(alloc: Global, name: &[u8], w: &[u8]) -> Result<bool, AllocError>
    ensures { IfOk result (λ b. b ≡ has_form name.now w.now) }
{
    if name == b"--block".as_slice() {
        return Ok(number_in(w, 1, 1_048_576).is_some());
    }
    if name == b"--cap".as_slice() {
        return Ok(number_in(w, 1, 1024).is_some());
    }
    if name == b"--limit".as_slice() {
        return Ok(number_in(w, 0, 1_099_511_627_776).is_some());
    }
    if name == b"--slow".as_slice() {
        return Ok(slow_of(w).is_some());
    }
    if name == b"--stages".as_slice() {
        let stages = read_stages(alloc, w)?;
        return Ok(stages.is_some());
    }
    Ok(is_name(w))
}

/// Whether a slow subscriber is dropped.
pub(crate) fn slow_of(w: &[u8]) -> Option<bool>
    ensures { result ≡ slow_of w.now }
{
    match w {
        b"wait" => Some(false),
        b"drop" => Some(true),
        _ => None,
    }
}
