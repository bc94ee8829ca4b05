//! Numbers as bytes.
ghost use Rattle.std.specs.Prelude.{◌≡◌, ◌≤◌, true, false};
ghost use Rattle.frame_head.specs.Framed.{field_bytes};

use std::marker::Model;

// The bytes of a number. Contracts see the list of them.
#[derive(Drop)]
pub(crate) struct Number {
    all: [u8; 16],
    from: usize,
    to: usize,
}

impl Model for Number {
    ghost use Rattle.std.specs.Prelude.{ℕ, ◌-◌, ◌≤◌, List, take, drop, length};

    ghost Value = { List ℕ };

    ghost view = { λ n. take (n.to - n.from) (drop n.from n.all) };

    ghost invariant = { λ n. (n.from ≤ n.to) × (n.to ≤ length n.all) };
}

impl Number {
    // The `size` lowest bytes of a number, the one that weighs least first.
    pub(crate) fn low_first(value: u128, size: u8) -> Number
        requires { size ≤ 16 }
        ensures { result ≡ field_bytes size true value }
    {
        Number {
            all: value.to_le_bytes(),
            from: 0,
            to: usize::from(size),
        }
    }

    // The same, the one that weighs most first.
    pub(crate) fn high_first(value: u128, size: u8) -> Number
        requires { size ≤ 16 }
        ensures { result ≡ field_bytes size false value }
    {
        Number {
            all: value.to_be_bytes(),
            from: 16 - usize::from(size),
            to: 16,
        }
    }

    // The bytes.
    pub(crate) fn as_bytes(&self) -> &[u8]
        ensures { result.now ≡ self.now }
    {
        &self.all[self.from..self.to]
    }
}
