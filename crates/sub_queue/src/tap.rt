//! The end that taps.
ghost use Rattle.std.specs.Prelude.{◌≡◌, ◌≤◌, [], ◌∷◌, ◌++◌, length, MatchOption, None};
ghost use Rattle.sub_queue.specs.Ends.{Tapped, end_of, IsDry, TookOne, Took};

use crate::items::{End, Item, Taken};
use crate::rule::{Line, Log, Takes};
use crate::taking::Teller;
use crossbeam_queue::Pass;
use std::alloc::Global;
use std::marker::Model;
use std::sync::{Arc, Wait};

/// The end that taps. Contracts see its queue, all that was taken, and what the tap knows to be sent.
#[derive(Drop)]
pub struct Tap<T: Drop> {
    pub(crate) line: Arc<Line<T>, Global>,
    pub(crate) pass: Pass<Item<T>, Log<Item<T>>>,
    pub(crate) ended: Option<End>,
    pub(crate) teller: Teller,
}

impl<T: Drop> Model for Tap<T> {
    ghost use Rattle.std.specs.Arc.{arc_value};
    ghost use Rattle.crossbeam_queue.specs.Passes.{view as seen, IsPassOf};
    ghost use Rattle.sub_queue.specs.Ends.{Tapped, tapped, Counted};

    ghost Value = { Tapped T };

    ghost view = { λ t. tapped t.pass.table_id t.teller.table (seen t.pass).taken (seen t.pass).told };

    ghost invariant = { λ t. IsPassOf (arc_value t.line) t.pass × Counted (seen t.pass) t.ended t.teller.number };
}

impl<T: Drop> Tap<T> {
    /// The end, once it was taken. O(1).
    pub fn ended(&self) -> Option<End>
        ensures { result ≡ end_of self.now.taken }
    {
        self.ended
    }

    // Takes an item out of the queue, and tells the feed.
    fn next<R: Wait>(&mut self, rt: &R) -> Option<Item<T>>
        requires { end_of self.old.taken ≡ None }
        ensures { MatchOption result (IsDry self.old self.new) (λ x. TookOne x self.old self.new) }
    {
        let item = self.line.pop_as::<Takes, R>(rt, &mut self.pass)?;
        self.teller.tell(rt);
        if let Item::Ended(end) = &item {
            self.ended = Some(*end);
        }
        Some(item)
    }

    /// Takes the next item. `Empty` comes only where the queue held nothing at one moment of the call, so where no
    /// item is known that wasn't taken. `Ended` comes exactly where the end was taken, now or before. O(1).
    #[tactic(auto, using(crate::proofs::Lists::end_pushed))]
    pub fn take<R: Wait>(&mut self, rt: &R) -> Taken<T>
        ensures { Took self.old self.new result }
    {
        match self.ended {
            Some(end) => Taken::Ended(end),
            None => match self.next(rt) {
                Some(Item::One(x)) => Taken::One(x),
                Some(Item::Ended(end)) => Taken::Ended(end),
                None => Taken::Empty,
            },
        }
    }
}
