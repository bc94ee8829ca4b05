//! How many frames are whole in the first bytes of their framed text.
ghost use Rattle.std.specs.Prelude.{◌≡◌, ◌+◌, ◌-◌, ◌≤◌, ◌<◌, length, slice_index_or, [], true, false};
ghost use Rattle.frame_head.specs.Framed.{framed, framed_text, has_known_field, whole_frames};
ghost use Rattle.observer.specs.Drains.{saturated};
ghost use Rattle.observer.specs.Meters.{CountsTaken};
ghost use Rattle.observer.specs.Items.{frames_in};

use crate::outflow::Outflow;
use frame_batch::Batch;
use frame_batch::laws::window_has_its_size;
use frame_head::{Out, ending, header};
use relay_ports::Sink;
use std::collections::VecDeque;

/// The count after a turn that began with this count: with the frames of these batches; after a failure in this turn,
/// with the first ones that the sink took whole; after one before it, as it was. O(number of batches), and at a failure
/// O(number of frames).
pub(crate) fn count_turn<S: Sink>(
    flow: &Outflow<S>,
    batches: &VecDeque<Batch>,
    failed: bool,
    count: u64,
) -> u64
    ensures stopped { failed ≡ true → result ≡ count }
    ensures all { failed ≡ false → flow.now.printer.failed ≡ false
        → result ≡ saturated (count + length (frames_in batches.now.items)) }
    ensures first { failed ≡ false → flow.now.printer.failed ≡ true
        → result ≡ saturated (count + whole_frames flow.now.out (frames_in batches.now.items) flow.now.meter.taken) }
    ensures counts { CountsTaken flow.now.meter }
{
    let taken = flow.taken();
    if failed {
        return count;
    }
    if flow.failed() {
        return count.saturating_add(whole_in_all(flow.out(), batches, taken));
    }
    count.saturating_add(all_frames(batches))
}

// The number of frames of some batches. O(number of batches).
fn all_frames(batches: &VecDeque<Batch>) -> u64
    ensures { result ≡ saturated (length (frames_in batches.now.items)) }
{
    let mut count = 0u64;
    'batches: for i in 0..batches.len() {
        count = count.saturating_add(batches[i].len() as u64);
    }
    count
}

// The number of first frames whose framed text has at most `n` bytes. O(number of frames).
fn whole_in_all(out: &Out, batches: &VecDeque<Batch>, n: u128) -> u64
    requires { has_known_field out.now ≡ true }
    ensures { result ≡ saturated (whole_frames out.now (frames_in batches.now.items) n) }
{
    let mut left = n;
    let mut count = 0u64;
    'batches: for i in 0..batches.len() {
        let batch = &batches[i];
        let whole = whole_in(out, batch, &mut left);
        count = count.saturating_add(whole as u64);
        if whole < batch.len() {
            return count;
        }
    }
    count
}

// The same of one batch. Where all frames are whole, their text is taken off.
fn whole_in(out: &Out, batch: &Batch, left: &mut u128) -> usize
    requires { has_known_field out.now ≡ true }
    ensures whole { result ≡ whole_frames out.now batch.now.frames left.old }
    ensures within { result ≤ length batch.now.frames }
    ensures rest { result ≡ length batch.now.frames
        → left.old ≡ length (framed_text out.now batch.now.frames) + left.new }
{
    'frames: for i in 0..batch.len() {
        let size = framed_size(out, batch, i);
        if *left < size {
            return i;
        }
        *left -= size;
    }
    batch.len()
}

// How many bytes the framed text of a frame has.
fn framed_size(out: &Out, batch: &Batch, i: usize) -> u128
    requires known { has_known_field out.now ≡ true }
    requires there { i < length batch.now.frames }
    ensures { result ≡ length (framed out.now (slice_index_or batch.now.frames i [])) }
{
    window_has_its_size();
    let size = batch.window(i).size;
    let head = header(out, size);
    head.used as u128 + size as u128 + ending(out).len() as u128
}
