//! Names.
ghost use Rattle.std.specs.Prelude.{◌≡◌, [], true, IfOk};
ghost use Rattle.std.specs.List.{list_all};
ghost use Rattle.relay_words.specs.Names.{is_lower, is_name, is_name_byte};

use crate::numbers::is_digit;
use std::alloc::{AllocError, Global};
use std::marker::Model;

/// The name of an input or of a subscriber; the empty one stands for standard input. Contracts see its bytes.
#[derive(Debug, Drop)]
pub struct Name {
    text: String,
}

impl Model for Name {
    ghost use Rattle.std.specs.Prelude.{ℕ, List};
    ghost use Rattle.std.specs.String.{string_bytes};

    ghost Value = { List ℕ };

    ghost view = { λ n. string_bytes n.text };
}

impl Name {
    /// It takes no memory and is O(1).
    pub fn as_str(&self) -> &str
        ensures { result.now ≡ self.now }
    {
        self.text.as_str()
    }

    pub(crate) fn none(alloc: Global) -> Name
        ensures { result ≡ [] }
    {
        Name {
            text: String::new(alloc),
        }
    }

    // One allocation.
    pub(crate) fn of(alloc: Global, word: &[u8]) -> Result<Name, AllocError>
        requires { is_name word.now ≡ true }
        ensures { IfOk result (λ n. n ≡ word.now) }
    {
        let mut text = String::with_capacity(alloc, word.len())?;
        for b in word {
            text.push(char::from(*b))?;
        }
        Ok(Name { text })
    }
}

fn is_lower(b: u8) -> bool
    ensures { result ≡ is_lower b }
{
    b'a' <= b && b <= b'z'
}

fn is_name_byte(b: u8) -> bool
    ensures { result ≡ is_name_byte b }
{
    is_lower(b) || is_digit(b) || b == b'_' || b == b'.' || b == b'-'
}

fn are_name_bytes(w: &[u8]) -> bool
    ensures { result ≡ list_all is_name_byte w.now }
{
    w.iter().all(|b| is_name_byte(*b))
}

pub(crate) fn is_name(w: &[u8]) -> bool
    ensures { result ≡ is_name w.now }
{
    let Some((first, others)) = w.split_first() else {
        return false;
    };
    is_lower(*first) && are_name_bytes(others) && others.len() <= 63
}
