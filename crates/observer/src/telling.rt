//! Watchers, told one after another.
ghost use Rattle.std.specs.Prelude.{◌≡◌, [], ◌∷◌, ◌++◌, map, OnErr, OnOk};
ghost use Rattle.observer.specs.Notes.{SomeHeard, each_heard, note_of};

use crate::watcher::AnyWatcher;
use iobuf_chain::Frame;
use std::alloc::AllocError;
use sub_queue::End;

/// What watchers are told.
#[derive(Clone, Copy)]
pub(crate) enum Word<'a> {
    Next { up: u32, frame: &'a Frame },
    Completed { up: u32 },
    Failed { up: u32, end: End },
}

fn tell_one(watcher: &mut AnyWatcher, word: &Word<'_>) -> Result<(), AllocError>
    ensures heard { OnOk result (heard watcher.new ≡ heard watcher.old ++ note_of word.now ∷ []) }
    ensures refused { OnErr result (heard watcher.new ≡ heard watcher.old) }
{
    match word {
        Word::Next { up, frame } => watcher.next(*up, frame),
        Word::Completed { up } => watcher.completed(*up),
        Word::Failed { up, end } => watcher.failed(*up, *end),
    }
}

fn tell_each(watchers: &mut [AnyWatcher], word: &Word<'_>) -> Result<(), AllocError>
    ensures heard { OnOk result (map (λ w. heard w) watchers.new
        ≡ each_heard (note_of word.now) (map (λ w. heard w) watchers.old)) }
    ensures refused { OnErr result
        (SomeHeard (note_of word.now) (map (λ w. heard w) watchers.old) (map (λ w. heard w) watchers.new)) }
{
    'watchers: for w in watchers.iter_mut() {
        if tell_one(w, word).is_err() {
            return Err(AllocError);
        }
    }
    Ok(())
}

/// Tells all of a list, up to the first that wants memory.
pub(crate) fn tell_all(watchers: &mut Vec<AnyWatcher>, word: &Word<'_>) -> Result<(), AllocError>
    ensures heard { OnOk result (map (λ w. heard w) watchers.new.items
        ≡ each_heard (note_of word.now) (map (λ w. heard w) watchers.old.items)) }
    ensures refused { OnErr result (SomeHeard (note_of word.now) (map (λ w. heard w) watchers.old.items)
        (map (λ w. heard w) watchers.new.items)) }
{
    match tell_each(watchers.as_mut_slice(), word) {
        Ok(()) => Ok(()),
        Err(e) => Err(e),
    }
}
