//! Numbers of bytes, for each type of number.
ghost use Rattle.std.specs.Prelude.{◌≡◌, ◌≤◌, ◌<◌, ◌^◌, length, reverse};
ghost use Rattle.std.specs.Int.{w8, w16, w32, w64, w128, cast_signed};
ghost use Rattle.frame_head.specs.Numbers.{number};

/// A type of number that is read from `size` bytes.
pub trait Number: Copy {
    ghost use Rattle.std.specs.Prelude.{◌≡◌, ◌≤◌, ◌<◌, ◌^◌, ℕ};

    /// How many bytes it has.
    ghost size: { ℕ };

    /// The number of this type for the number of the bytes.
    ghost value: { ℕ → Self };

    /// How many bytes it has. O(1).
    fn size() -> usize
        ensures size { result ≡ size }
        ensures most { result ≤ 16 };

    /// The number of this type for the number of its bytes. O(1).
    fn from_number(n: u128) -> Self
        requires { n < 256 ^ size }
        ensures { result ≡ value n };
}

// The number of some bytes, the one that weighs most first.
pub(crate) fn most_first(bytes: &[u8]) -> u128
    requires { length bytes.now ≤ 16 }
    ensures number { result ≡ number bytes.now }
    ensures below { result < 256 ^ length bytes.now }
{
    let mut n: u128 = 0;
    for x in bytes {
        n = 256 * n + u128::from(*x);
    }
    n
}

// The number of some bytes, the one that weighs least first.
pub(crate) fn least_first(bytes: &[u8]) -> u128
    requires { length bytes.now ≤ 16 }
    ensures number { result ≡ number (reverse bytes.now) }
    ensures below { result < 256 ^ length bytes.now }
{
    let mut n: u128 = 0;
    let mut i = bytes.len();
    while i > 0 {
        i -= 1;
        n = 256 * n + u128::from(bytes[i]);
    }
    n
}

impl Number for u8 {
    ghost size = { 1 };

    ghost value = { λ n. n };

    fn size() -> usize {
        1
    }

    fn from_number(n: u128) -> u8 {
        n as u8
    }
}

impl Number for i8 {
    ghost size = { 1 };

    ghost value = { cast_signed w8 };

    fn size() -> usize {
        1
    }

    fn from_number(n: u128) -> i8 {
        (n as u8).cast_signed()
    }
}

impl Number for u16 {
    ghost size = { 2 };

    ghost value = { λ n. n };

    fn size() -> usize {
        2
    }

    fn from_number(n: u128) -> u16 {
        n as u16
    }
}

impl Number for i16 {
    ghost size = { 2 };

    ghost value = { cast_signed w16 };

    fn size() -> usize {
        2
    }

    fn from_number(n: u128) -> i16 {
        (n as u16).cast_signed()
    }
}

impl Number for u32 {
    ghost size = { 4 };

    ghost value = { λ n. n };

    fn size() -> usize {
        4
    }

    fn from_number(n: u128) -> u32 {
        n as u32
    }
}

impl Number for i32 {
    ghost size = { 4 };

    ghost value = { cast_signed w32 };

    fn size() -> usize {
        4
    }

    fn from_number(n: u128) -> i32 {
        (n as u32).cast_signed()
    }
}

impl Number for u64 {
    ghost size = { 8 };

    ghost value = { λ n. n };

    fn size() -> usize {
        8
    }

    fn from_number(n: u128) -> u64 {
        n as u64
    }
}

impl Number for i64 {
    ghost size = { 8 };

    ghost value = { cast_signed w64 };

    fn size() -> usize {
        8
    }

    fn from_number(n: u128) -> i64 {
        (n as u64).cast_signed()
    }
}

impl Number for u128 {
    ghost size = { 16 };

    ghost value = { λ n. n };

    fn size() -> usize {
        16
    }

    fn from_number(n: u128) -> u128 {
        n
    }
}

impl Number for i128 {
    ghost size = { 16 };

    ghost value = { cast_signed w128 };

    fn size() -> usize {
        16
    }

    fn from_number(n: u128) -> i128 {
        n.cast_signed()
    }
}
