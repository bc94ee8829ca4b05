//! Frames that are refused.
ghost use Rattle.std.specs.Prelude.{◌≡◌, Some, None, true, MatchResult, flat_map, length, map};
ghost use Rattle.frame_head.specs.Framed.{has_known_field, header_of};
ghost use Rattle.frame_writer.specs.Over.{first_over, over_most, over_of};

use frame_head::{Out, most_in_field};
use thiserror::Error;

/// A frame of `size` bytes has no place behind a field that holds lengths up to `most`.
#[derive(Clone, Copy, Debug, PartialEq, Eq, Error)]
#[error("a frame of {size} bytes is longer than the {most} that its field can hold")]
pub struct FrameOver {
    pub size: u128,
    pub most: u64,
}

/// What stands in the field before a frame of `size` bytes, where the field can hold that. Where there is no field the
/// number says nothing.
pub(crate) fn field_value(out: &Out, size: u128) -> Result<u64, FrameOver>
    requires { has_known_field out.now ≡ true }
    ensures { MatchResult result
        (λ n. (over_of out.now size ≡ None) × (header_of out.now n ≡ header_of out.now size))
        (λ f. over_of out.now size ≡ Some f) }
{
    match out {
        Out::Length { field, .. } => at_most(most_in_field(*field), size),
        Out::Line { .. } => Ok(0),
        Out::Delim { .. } => Ok(0),
        Out::Raw => Ok(0),
    }
}

fn at_most(most: u64, size: u128) -> Result<u64, FrameOver>
    ensures { MatchResult result (λ n. (over_most most size ≡ None) × (n ≡ size)) (λ f. over_most most size ≡ Some f) }
{
    if size > u128::from(most) {
        return Err(FrameOver { size, most });
    }
    Ok(size as u64)
}

/// Refuses a frame of `size` bytes that the field before it can't name.
pub(crate) fn check_size(out: &Out, size: u128) -> Result<(), FrameOver>
    requires { has_known_field out.now ≡ true }
    ensures { MatchResult result (λ _. over_of out.now size ≡ None) (λ f. over_of out.now size ≡ Some f) }
{
    match field_value(out, size) {
        Ok(_) => Ok(()),
        Err(f) => Err(f),
    }
}

/// Refuses a list by its first frame that is refused. It is O(number of frames).
pub(crate) fn check_all(out: &Out, frames: &[&[u8]]) -> Result<(), FrameOver>
    requires { has_known_field out.now ≡ true }
    ensures { let list = map (λ f. f.now) frames.now in
        MatchResult result (λ _. first_over out.now list ≡ None) (λ f. first_over out.now list ≡ Some f) }
{
    for frame in frames {
        check_size(out, frame.len() as u128)?;
    }
    Ok(())
}

/// The bytes of some parts in all. It is O(number of parts).
pub(crate) fn size_of(parts: &[&[u8]]) -> u128
    ensures { result ≡ length (flat_map (λ p. p.now) parts.now) }
{
    let mut size = 0u128;
    for part in parts {
        size += part.len() as u128;
    }
    size
}
