//! The rule of the queue's items. A pass is one end's leave to use the queue; its view is what that end knows.
ghost use Rattle.std.specs.Prelude.{◌≡◌, ◌+◌, ◌≤◌, [], ◌∷◌, ◌++◌, length, ⊤};
ghost use Rattle.sub_queue.specs.Line.{log, Begins, TakesOne};

use crate::items::Item;
use crossbeam_queue::RuledArrayQueue;
use crossbeam_queue::protocol::{Join, Lesson, Outcome, Protocol, Split};
use std::collections::LinkedList;

// Which end a pass is, and what that end knows. No value of it is made.
pub struct Log<T> {
    pub feeds: bool,
    pub taps: bool,
    pub sent: LinkedList<T>,
    pub taken: LinkedList<T>,
    pub told: LinkedList<T>,
}

pub struct InOrder;

impl<T> Protocol<T, Log<T>> for InOrder {
    ghost use Rattle.std.specs.Prelude.{true, []};
    ghost use Rattle.sub_queue.specs.Line.{log, Relayed};

    ghost holds = { Relayed };

    ghost first = { log true true [] [] [] };
}

// A pass that is both ends becomes two, and the tap's knows what was sent.
pub(crate) struct Ends;

impl<T> Split<Log<T>> for Ends {
    ghost use Rattle.std.specs.Prelude.{true, false, []};
    ghost use Rattle.sub_queue.specs.Line.{log};

    ghost left = { λ v. log true false v.sent [] [] };

    ghost right = { λ v. log false true [] v.taken v.sent };
}

impl<T> Join<Log<T>> for Ends {
    ghost use Rattle.std.specs.Prelude.{true, false, []};
    ghost use Rattle.sub_queue.specs.Line.{log};

    ghost both = { λ v w. log true true v.sent w.taken w.told };

    ghost spent = { log false false [] [] [] };
}

// A pass that is no end, for a place that may not stay empty.
pub(crate) struct Spare;

impl<T> Split<Log<T>> for Spare {
    ghost use Rattle.std.specs.Prelude.{false, []};
    ghost use Rattle.sub_queue.specs.Line.{log};

    ghost left = { λ v. v };

    ghost right = { λ v. log false false [] [] [] };
}

pub(crate) struct Sends;

impl<T> Outcome<T, Log<T>> for Sends {
    ghost then = { λ v x w. w ≡ log v.feeds v.taps (v.sent ++ x ∷ []) v.taken v.told };
}

impl<T> Lesson<T, Log<T>> for Sends {
    ghost fact = { λ v items. ⊤ };
}

pub(crate) struct Takes;

impl<T> Outcome<T, Log<T>> for Takes {
    ghost then = { λ v x w. TakesOne v x w };
}

impl<T> Lesson<T, Log<T>> for Takes {
    ghost fact = { λ v items. length v.told ≤ length v.taken + length items };
}

// What a pass that is both ends tells.
pub(crate) struct Whole;

impl<T> Lesson<T, Log<T>> for Whole {
    ghost fact = { λ v items. (v.sent ≡ v.taken ++ items) × Begins v.told v.sent };
}

pub type Line<T> = RuledArrayQueue<Item<T>, Log<Item<T>>, InOrder>;
