ghost use Rattle.std.specs.Prelude.{◌≡◌, ℕ, List, IfOk, position, find, reverse, option_copied};
ghost use Rattle.std.specs.Str.{bytes_eq};
ghost use Rattle.relay_ports.specs.Told.{has_name};

use std::alloc::{AllocError, Global};
use std::marker::Model;

// The name of an input or an output, as its bytes.
#[derive(Debug, Drop)]
pub(crate) struct Name {
    text: String,
}

impl Model for Name {
    ghost use Rattle.std.specs.Prelude.{ℕ, List};
    ghost use Rattle.std.specs.String.{string_bytes};

    ghost Value = { List ℕ };

    ghost view = { λ n. string_bytes n.text };
}

impl Name {
    pub fn new(alloc: Global, name: &str) -> Result<Name, AllocError>
        ensures { IfOk result (λ n. n ≡ name.now) }
    {
        let text = String::from_str(alloc, name)?;
        Ok(Name { text })
    }

    // Whether it is this name.
    pub fn is(&self, name: &str) -> bool
        ensures { result ≡ bytes_eq name.now self.now }
    {
        name == self.text.as_str()
    }
}

// Whether a name is among these.
pub(crate) fn has_name(names: &[Name], name: &str) -> bool
    ensures { result ≡ has_name name.now names.now }
{
    names.iter().any(|n| n.is(name))
}

// The place of the first name that is this one.
pub(crate) fn place_of_name(names: &[Name], name: &str) -> Option<usize>
    ensures { result ≡ position (bytes_eq name.now) names.now }
{
    names.iter().position(|n| n.is(name))
}

// The place of the first entry under this name.
pub(crate) fn place_of_entry<T>(entries: &[(Name, T)], name: &str) -> Option<usize>
    ensures { result ≡ position (λ e. bytes_eq name.now e.0) entries.now }
{
    entries.iter().position(|e| e.0.is(name))
}

// The last entry under this name.
pub(crate) fn last_entry<'a, T>(entries: &'a [(Name, T)], name: &str) -> Option<&'a (Name, T)>
    ensures { option_copied result ≡ find (λ e. bytes_eq name.now e.0) (reverse entries.now) }
{
    entries.iter().rev().find(|e| e.0.is(name))
}
