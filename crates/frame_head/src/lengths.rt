ghost use Rattle.std.specs.Prelude.{◌≡◌, ◌+◌, ◌^◌, ◌<◌, ◌≤◌, Some, None, true};
ghost use Rattle.frame_head.specs.Checks.{is_field};
ghost use Rattle.frame_head.specs.Endings.{line_endings};
ghost use Rattle.frame_head.specs.Numbers.{adjusted};
ghost use Rattle.frame_head.specs.Longest.{longest_ended, longest_length, longest_mark};
ghost use Rattle.frame_head.specs.Longest.{longest_up_to, most_in_field};

use crate::codecs::LineEnd;
use crate::marks::Marks;

pub(crate) fn longest_by_length(field: u8, offset: u32, adjust: i32, strip: u32, max: u64) -> u64
    requires { is_field field ≡ true }
    ensures { result ≡ longest_length field offset adjust strip max }
{
    let field_end = u64::from(offset) + u64::from(field);
    let furthest = u128::from(most_in_field(field)) + u128::from(field_end);
    match with_adjustment(furthest, adjust) {
        None => 0,
        Some(end) => less_stripped(end, strip, max),
    }
}

// A frame that ends at `end` and at `max` at most, without its first `strip` bytes.
fn less_stripped(end: u128, strip: u32, max: u64) -> u64
    ensures { result ≡ longest_up_to max strip (Some end) }
{
    let end = if end < u128::from(max) {
        end as u64
    } else {
        max
    };
    end.saturating_sub(u64::from(strip))
}

/// The greatest number that a length field of so many bytes can hold.
pub fn most_in_field(field: u8) -> u64
    requires { is_field field ≡ true }
    ensures { result ≡ most_in_field field }
{
    match field {
        1 => 0xff,
        2 => 0xffff,
        4 => 0xffff_ffff,
        _ => u64::MAX,
    }
}

// A number with an adjustment, where that isn't below zero.
fn with_adjustment(value: u128, adjust: i32) -> Option<u128>
    requires { value < 2 ^ 65 }
    ensures { result ≡ adjusted value adjust }
{
    let size = u128::from(adjust.unsigned_abs());
    if adjust >= 0 {
        return Some(value + size);
    }
    if value < size {
        return None;
    }
    Some(value - size)
}

pub(crate) fn longest_line(ending: LineEnd, strip: bool, max: u64) -> u64
    requires { max ≤ 16777216 }
    ensures { result ≡ longest_ended strip max (line_endings ending) }
{
    if strip {
        return max;
    }
    match ending {
        LineEnd::Lf => max + 1,
        LineEnd::Any => max + 2,
        LineEnd::Crlf => max + 2,
    }
}

pub(crate) fn longest_delimited(list: &Marks, strip: bool, max: u64) -> u64
    requires max { max ≤ 16777216 }
    requires mark { longest_mark list.now ≤ 64 }
    ensures { result ≡ longest_ended strip max list.now }
{
    if strip {
        return max;
    }
    max + longest_mark(list)
}

// It is O(number of delimiters).
fn longest_mark(list: &Marks) -> u64
    ensures { result ≡ longest_mark list.now }
{
    let mut most = 0u64;
    for i in 0..list.len() {
        most = most.max(list.mark(i).bytes().len() as u64);
    }
    most
}
