ghost use Rattle.std.specs.Prelude.{◌≡◌, ℕ, List, [], Option, None, Contains, IfOk, OnOk, OnErr, IsSome, option_copied};
ghost use Rattle.std.specs.Option.{is_some};
ghost use Rattle.std.specs.List.{list_any};
ghost use Rattle.std.specs.Map.{keys_of};
ghost use Rattle.std.specs.Str.{bytes_eq};
ghost use Rattle.relay_ports.specs.Entries.{waiting_under, finished_under, with_waiting, with_opened, with_finished};

use crate::name::{Name, place_of_entry};
use crate::openings::Openings;
use std::alloc::{AllocError, Global};
use std::marker::Model;

// The inputs or the outputs of a host in memory: those that wait to be opened, the names that are open, and what is
// kept of those that were finished.
#[derive(Debug, Drop)]
pub(crate) struct Register<T, K> {
    waiting: Vec<(Name, T)>,
    openings: Openings<K>,
}

impl<T, K> Model for Register<T, K> {
    ghost use Rattle.relay_ports.specs.Entries.{Entries};

    ghost Value = { Entries T K };

    ghost view = { λ r. record { waiting = r.waiting.items; openings = r.openings } };
}

impl<T, K> Register<T, K> {
    pub fn new(alloc: Global) -> Register<T, K>
        ensures { result ≡ record { waiting = []; openings = record { open_names = []; finished = [] } } }
    {
        Register {
            waiting: Vec::new(alloc),
            openings: Openings::new(alloc),
        }
    }

    // Opens what waits under a name; nothing where nothing does. Room for what finishing keeps is taken here.
    #[tactic(auto, using(crate::proofs::Places::entry_removed_at, crate::proofs::Places::entry_at))]
    pub fn open(&mut self, name: &str) -> Result<Option<T>, AllocError>
        ensures item { IfOk result (λ x. x ≡ waiting_under name.now self.old) }
        ensures opened { IfOk result (λ x. IsSome x → self.new ≡ with_opened name.now self.old) }
        ensures missing { IfOk result (λ x. x ≡ None → self.new ≡ self.old) }
        ensures err { OnErr result (self.new ≡ self.old) }
    {
        match place_of_entry(&self.waiting, name) {
            Some(at) => {
                self.openings.open(name)?;
                let (_, item) = self.waiting.remove(at);
                Ok(Some(item))
            }
            None => Ok(None),
        }
    }

    // Closes a name, and keeps something of what was open under it. It takes no memory.
    pub fn close(&mut self, name: &str, kept: K)
        requires { Contains self.old.openings.open_names name.now }
        ensures { self.new ≡ with_finished name.now kept self.old }
    {
        self.openings.close(name, kept);
    }

    // What was kept of the one that was finished last under a name.
    pub fn finished(&self, name: &str) -> Option<&K>
        ensures kept { option_copied result ≡ finished_under name.now self.now.openings }
        ensures found { is_some result ≡ list_any (bytes_eq name.now) (keys_of self.now.openings.finished) }
    {
        self.openings.finished(name)
    }
}

impl<T: Drop, K> Register<T, K> {
    // Adds something that waits under a name, in the place of what waited there.
    pub fn add(&mut self, alloc: Global, name: &str, item: T) -> Result<(), AllocError>
        ensures ok { OnOk result (self.new ≡ with_waiting name.now item self.old) }
        ensures err { OnErr result (self.new ≡ self.old) }
    {
        let replaced = place_of_entry(&self.waiting, name);
        let noted = Name::new(alloc, name)?;
        self.waiting.insert(0, (noted, item))?;
        match replaced {
            Some(at) => {
                let _replaced = self.waiting.remove(at + 1);
                Ok(())
            }
            None => Ok(()),
        }
    }
}
