ghost use Rattle.std.specs.Prelude.{◌≡◌, ℕ, List, [], ◌∷◌, Option, Contains, OnOk, OnErr, option_copied};
ghost use Rattle.std.specs.Option.{is_some};
ghost use Rattle.std.specs.List.{list_any};
ghost use Rattle.std.specs.Map.{keys_of};
ghost use Rattle.std.specs.Str.{bytes_eq};
ghost use Rattle.relay_ports.specs.Told.{has_name};
ghost use Rattle.relay_ports.specs.Entries.{after_opening, after_closing, finished_under};

use crate::name::{Name, has_name, last_entry, place_of_name};
use std::alloc::{AllocError, Global};
use std::marker::Model;

/// The names of the inputs or of the outputs of a host that are open, and what was kept of those that were finished.
#[derive(Debug, Drop)]
pub struct Openings<T> {
    opened: Vec<Name>,
    finished: Vec<(Name, T)>,
}

impl<T> Model for Openings<T> {
    ghost use Rattle.std.specs.Prelude.{◌+◌, ◌≤◌, vec_len, vec_capacity};
    ghost use Rattle.relay_ports.specs.Entries.{Opened};

    ghost Value = { Opened T };

    ghost view = { λ o. record { open_names = o.opened.items; finished = o.finished.items } };

    // Room for what is open now once it is finished.
    ghost invariant = { λ o. vec_len o.finished + vec_len o.opened ≤ vec_capacity o.finished };
}

impl<T> Openings<T> {
    /// Nothing is open, and nothing was finished. It takes no memory.
    pub fn new(alloc: Global) -> Openings<T>
        ensures { result ≡ record { open_names = []; finished = [] } }
    {
        Openings {
            opened: Vec::new(alloc),
            finished: Vec::new(alloc),
        }
    }

    /// Opens a name, and takes room for what closing it keeps. Where memory is refused nothing changes.
    pub fn open(&mut self, name: &str) -> Result<(), AllocError>
        ensures ok { OnOk result (self.new ≡ after_opening name.now self.old) }
        ensures err { OnErr result (self.new ≡ self.old) }
    {
        let noted = Name::new(*self.opened.allocator(), name)?;
        let room = self.opened.len() + 1;
        self.finished.reserve(room)?;
        self.opened.insert(0, noted)?;
        Ok(())
    }

    /// Whether a name is open. It takes time in the number of names that are.
    pub fn is_open(&self, name: &str) -> bool
        ensures { result ≡ has_name name.now self.now.open_names }
    {
        has_name(&self.opened, name)
    }

    /// Closes a name, and keeps something of what was open under it. It takes no memory.
    pub fn close(&mut self, name: &str, kept: T)
        requires { Contains self.old.open_names name.now }
        ensures { self.new ≡ after_closing name.now kept self.old }
    {
        match place_of_name(&self.opened, name) {
            Some(at) => {
                let noted = self.opened.remove(at);
                self.finished.push_reserved((noted, kept));
            }
            None => unreachable!(),
        }
    }

    /// What was kept of the one that was finished last under a name.
    pub fn finished(&self, name: &str) -> Option<&T>
        ensures kept { option_copied result ≡ finished_under name.now self.now }
        ensures found { is_some result ≡ list_any (bytes_eq name.now) (keys_of self.now.finished) }
    {
        match last_entry(&self.finished, name) {
            Some(entry) => Some(&entry.1),
            None => None,
        }
    }
}
