ghost use Rattle.std.specs.Prelude.{◌≡◌, ◌+◌, ◌*◌, ◌<◌, ◌≤◌, ◌++◌, length, take, map, decimal, slice_index, slice_range, All};
ghost use Rattle.hex.specs.Hex.{encode_lower, lower_digits};
ghost use Rattle.buffered_io.specs.Writing.{entry_text};

use itoa::write_digits;
use std::simd::prelude::*;

/// Writes bytes at a place of a room.
#[inline(always)]
pub(crate) fn write_bytes(room: &mut [u8], at: usize, bytes: &[u8])
    requires { at + length bytes.now ≤ length room.old }
    ensures { take (at + length bytes.now) room.new ≡ take at room.old ++ bytes.now }
{
    room[at..at + bytes.len()].copy_from_slice(bytes);
}

/// Writes a number in decimal at a place of a room, and answers how many digits it has.
#[inline(always)]
pub(crate) fn write_decimal(room: &mut [u8], at: usize, n: u64) -> usize
    requires { at + 20 ≤ length room.old }
    ensures digits { take (at + result) room.new ≡ take at room.old ++ decimal n }
    ensures count { result ≤ 20 }
{
    if n < 100 {
        return write_short(room, at, n);
    }
    write_long(room, at, n)
}

// Writes a number of any size.
#[inline(never)]
fn write_long(room: &mut [u8], at: usize, n: u64) -> usize
    requires { at + 20 ≤ length room.old }
    ensures digits { take (at + result) room.new ≡ take at room.old ++ decimal n }
    ensures count { result ≤ 20 }
{
    let count = count_digits(n);
    let _start = write_digits(n, room, at + count);
    count
}

// Writes a number of one or two digits.
#[inline]
fn write_short(room: &mut [u8], at: usize, n: u64) -> usize
    requires short { n < 100 }
    requires room { at + 20 ≤ length room.old }
    ensures digits { take (at + result) room.new ≡ take at room.old ++ decimal n }
    ensures count { result ≤ 20 }
{
    if n < 10 {
        room[at] = b'0' + n as u8;
        1
    } else {
        room[at] = b'0' + (n / 10) as u8;
        room[at + 1] = b'0' + (n % 10) as u8;
        2
    }
}

/// Writes a letter and two numbers in decimal at a place of a room, with a space behind each, and answers how many
/// bytes that takes.
#[inline(always)]
pub(crate) fn write_entry(room: &mut [u8], at: usize, letter: u8, first: u64, second: u64) -> usize
    requires { at + 44 ≤ length room.old }
    ensures text { take (at + result) room.new ≡ take at room.old ++ entry_text letter first second }
    ensures count { result ≤ 44 }
{
    room[at] = letter;
    room[at + 1] = b' ';
    let first_count = write_decimal(room, at + 2, first);
    room[at + 2 + first_count] = b' ';
    let second_count = write_decimal(room, at + 3 + first_count, second);
    room[at + 3 + first_count + second_count] = b' ';
    4 + first_count + second_count
}

// How many digits a number has in decimal.
#[inline]
fn count_digits(n: u64) -> usize
    ensures count { result ≡ length (decimal n) }
    ensures most { result ≤ 20 }
{
    let mut left = n;
    let mut count = 0;
    'fours: while left >= 10_000 {
        left /= 10_000;
        count += 4;
    }
    count + count_short(left)
}

// How many digits a number of at most four digits has.
#[inline]
#[tactic(auto, using(crate::proofs::Digits::short_length))]
fn count_short(n: u64) -> usize
    requires { n < 10000 }
    ensures { result ≡ length (decimal n) }
{
    match n {
        0..=9 => 1,
        10..=99 => 2,
        100..=999 => 3,
        _ => 4,
    }
}

/// Writes bytes in lower-case hexadecimal at a place of a room: two digits a byte, the high one first.
#[inline]
pub(crate) fn write_hexadecimal(room: &mut [u8], at: usize, bytes: &[u8])
    requires { at + 2 * length bytes.now ≤ length room.old }
    ensures { take (at + 2 * length bytes.now) room.new ≡ take at room.old ++ encode_lower bytes.now }
{
    encode(bytes, &mut room[at..at + 2 * bytes.len()]);
}

fn encode(bytes: &[u8], text: &mut [u8])
    requires { length text.old ≡ 2 * length bytes.now }
    ensures { text.new ≡ encode_lower bytes.now }
{
    if bytes.len() < BLOCK {
        encode_few(bytes, text);
    } else {
        encode_many(bytes, text);
    }
}

#[inline(never)]
fn encode_few(bytes: &[u8], text: &mut [u8])
    requires { length text.old ≡ 2 * length bytes.now }
    ensures { text.new ≡ encode_lower bytes.now }
{
    'bytes: for i in 0..bytes.len() {
        let byte = bytes[i];
        text[2 * i] = digit(byte / 16);
        text[2 * i + 1] = digit(byte % 16);
    }
}

// How many bytes become digits at once.
const BLOCK: usize = 16;

fn encode_many(bytes: &[u8], text: &mut [u8])
    requires some { 16 ≤ length bytes.now }
    requires room { length text.old ≡ 2 * length bytes.now }
    ensures { text.new ≡ encode_lower bytes.now }
{
    let n = bytes.len();
    let mut at = 0;
    while at + BLOCK <= n {
        encode_block(bytes, at, text);
        at += BLOCK;
    }
    // The last block begins in the one before it, and writes the same digits there: so none goes byte by byte.
    if at < n {
        encode_block(bytes, n - BLOCK, text);
    }
}

// Writes the digits of the 16 bytes at a place.
#[inline(always)]
fn encode_block(bytes: &[u8], at: usize, text: &mut [u8])
    requires within { at + 16 ≤ length bytes.now }
    requires room { length text.old ≡ 2 * length bytes.now }
    ensures { take (2 * (at + 16)) text.new
        ≡ take (2 * at) text.old ++ encode_lower (slice_range bytes.now at (at + 16)) }
{
    let lanes = u8x16::from_slice(&bytes[at..]);
    let high = digits_of(lanes / u8x16::splat(16));
    let low = digits_of(lanes % u8x16::splat(16));
    let (front, back) = high.interleave(low);
    front.copy_to_slice(&mut text[2 * at..]);
    back.copy_to_slice(&mut text[2 * at + BLOCK..]);
}

#[inline(always)]
fn digits_of(values: u8x16) -> u8x16
    requires { All (λ v. v < 16) values }
    ensures { result ≡ map (λ v. slice_index lower_digits v) values }
{
    let letters = values.simd_gt(u8x16::splat(9));
    values + letters.select(u8x16::splat(b'a' - 10), u8x16::splat(b'0'))
}

#[inline]
fn digit(value: u8) -> u8
    requires { value < 16 }
    ensures { result ≡ slice_index lower_digits value }
{
    let letter = if value < 10 { 0 } else { b'a' - 10 - b'0' };
    value + b'0' + letter
}
