//! The words as a whole.
ghost use Rattle.std.specs.Prelude.{◌≡◌, ◌≢◌, None, Ok, Err, IfOk, IfErr, codes, map, string_bytes};
ghost use Rattle.frame_head.specs.Codecs.{fault_of};
ghost use Rattle.frame_head.specs.Outs.{out_fault};
ghost use Rattle.relay_words.specs.Good.{IsGood};
ghost use Rattle.relay_words.specs.Orders.{option_in, order, order_behind, order_of, out_over, place_of, relay_by};

use crate::command::{CommandName, command_of};
use crate::faults::{UsageKind, WordFault, usage};
use crate::items::{Item, read_items};
use crate::kinds::first_fault;
use crate::order::Order;
use crate::subscribers::SubWord;
use crate::values::{
    block_of, cap_of, codec_given, drops_slow, input_of, limit_of, n_given, option_in, out_given,
    stages_given, subs_given, written_as,
};
use crate::word_list::WordList;
use frame_head::{Codec, Out, longest, most_in_field};
use std::alloc::{AllocError, Global};

/// Reads the words of the command line: the command with its values, or the first bad word, counted from 0, and why it
/// is bad. Beside that it answers want of memory.
///
/// It is linear in the words and their bytes; each of at most 64 subscribers is compared with those before it.
pub fn read_words(alloc: Global, words: &[String]) -> Result<Order, WordFault>
    ensures order { IfOk result (λ o. order (map (λ w. string_bytes w) words.now) ≡ Ok o) }
    ensures refused { IfErr result (λ f.
        f ≢ WordFault.NoMemory → order (map (λ w. string_bytes w) words.now) ≡ Err f) }
    ensures good { IfOk result IsGood }
{
    match read_order(alloc, words) {
        Ok(order) => order,
        Err(_) => Err(WordFault::NoMemory),
    }
}

fn read_order(alloc: Global, words: &[String]) -> Result<Result<Order, WordFault>, AllocError>
    ensures { IfOk result (λ r. r ≡ order (map (λ w. string_bytes w) words.now)) }
{
    let Some((first, behind)) = words.split_first() else {
        return Ok(Err(usage(0, UsageKind::Command)));
    };
    order_behind(alloc, command_of(first.as_bytes()), behind)
}

fn order_behind(
    alloc: Global,
    command: Option<CommandName>,
    words: &[String],
) -> Result<Result<Order, WordFault>, AllocError>
    ensures { IfOk result (λ r. r ≡ order_behind command (map (λ w. string_bytes w) words.now)) }
{
    let Some(command) = command else {
        return Ok(Err(usage(0, UsageKind::Command)));
    };
    let items = read_items(alloc, words)?;
    match first_fault(alloc, command, &items)? {
        Some(fault) => Ok(Err(fault)),
        None => order_of(alloc, command, words.len() + 1, &items),
    }
}

// What items without a bad one ask for, of so many words.
fn order_of(
    alloc: Global,
    command: CommandName,
    words: usize,
    items: &[Item],
) -> Result<Result<Order, WordFault>, AllocError>
    ensures { IfOk result (λ r. r ≡ order_of command words items.now) }
{
    match command {
        CommandName::Frames => frames_order(alloc, words, items),
        CommandName::Chain => {
            let input = input_of(alloc, items)?;
            Ok(Ok(Order::Chain { input }))
        }
        CommandName::Relay => relay_order(alloc, words, items),
        CommandName::Mill => match n_given(items) {
            None => Ok(Err(usage(words, UsageKind::Missing))),
            Some(n) => Ok(Ok(Order::Mill { n })),
        },
    }
}

fn frames_order(
    alloc: Global,
    words: usize,
    items: &[Item],
) -> Result<Result<Order, WordFault>, AllocError>
    ensures { IfOk result (λ r. r ≡ order_of CommandName.Frames words items.now) }
{
    let Some(codec) = codec_given(alloc, items)? else {
        return Ok(Err(usage(words, UsageKind::Missing)));
    };
    let input = input_of(alloc, items)?;
    Ok(Ok(Order::Frames {
        codec,
        block: block_of(items),
        limit: limit_of(items),
        input,
    }))
}

fn relay_order(
    alloc: Global,
    words: usize,
    items: &[Item],
) -> Result<Result<Order, WordFault>, AllocError>
    ensures { IfOk result (λ r. r ≡ order_of CommandName.Relay words items.now) }
{
    let Some(codec) = codec_given(alloc, items)? else {
        return Ok(Err(usage(words, UsageKind::Missing)));
    };
    let Some(out) = out_given(alloc, items)? else {
        return Ok(Err(usage(words, UsageKind::Missing)));
    };
    let subs = subs_given(alloc, items)?;
    relay_by(alloc, words, items, codec, out, subs)
}

fn relay_by(
    alloc: Global,
    words: usize,
    items: &[Item],
    codec: Codec,
    out: Out,
    subs: Vec<SubWord>,
) -> Result<Result<Order, WordFault>, AllocError>
    requires codec { fault_of codec ≡ None }
    requires out { out_fault out ≡ None }
    ensures { IfOk result (λ r. r ≡ relay_by words items.now codec out subs.items) }
{
    if subs.is_empty() {
        return Ok(Err(usage(words, UsageKind::Missing)));
    }
    if out_over(&codec, &out) {
        return Ok(Err(usage(out_place(items), UsageKind::OutOver)));
    }
    let input = input_of(alloc, items)?;
    if let Some(item) = written_as(items, input.as_str().as_bytes()) {
        return Ok(Err(usage(item.at(), UsageKind::InOut)));
    }
    let stages = stages_given(alloc, items)?;
    Ok(Ok(Order::Relay {
        codec,
        out,
        stages,
        block: block_of(items),
        cap: cap_of(items),
        drop_slow: drops_slow(items),
        limit: limit_of(items),
        input,
        subs: WordList::of(subs),
    }))
}

// Whether a frame can be too long for the field that its length is written in.
fn out_over(codec: &Codec, out: &Out) -> bool
    requires codec { fault_of codec.now ≡ None }
    requires out { out_fault out.now ≡ None }
    ensures { result ≡ out_over codec.now out.now }
{
    match out {
        Out::Length { field, .. } => longest(codec) > most_in_field(*field),
        Out::Line { .. } => false,
        Out::Delim { .. } => false,
        Out::Raw => false,
    }
}

// Where the value of `--out` stands.
fn out_place(items: &[Item]) -> usize
    ensures { result ≡ place_of (option_in (codes "--out") items.now) }
{
    match option_in(items, b"--out") {
        None => 0,
        Some(item) => item.value_at(),
    }
}
