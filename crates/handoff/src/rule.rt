//! What the two ends of a handoff know, as a rule over one word and one slot of a table.
use crate::work::Work;
use atomic_table::{Play, Split, TableRule};

/// What one end knows. No value of it is made.
pub enum View<J> {
    /// Both ends in one, before the worker's is cut off.
    Whole,
    /// The giving end has the slot.
    Holding,
    /// The giving end waits for the answer to this item, which is as it was; at the start there is none.
    Waiting(Option<J>),
    /// The worker waits.
    Resting,
    /// The worker has the slot, with this item in it as it came.
    Working(J),
}

/// The rule between any two steps: the word and the slot are in one of five phases (`Kept`).
pub(crate) struct Rule;

impl<J: Work> TableRule<Option<J>, View<J>, ()> for Rule {
    ghost use Rattle.handoff.specs.declared.rule.View.TheVariants.{Whole};
    ghost use Rattle.handoff.specs.Phases.{Kept};

    ghost holds = { λ _. Kept J.takes J.does };

    ghost first = { λ _. Whole };
}

/// The worker's end is cut off.
pub(crate) struct Hiring;

impl<J> Split<View<J>> for Hiring {
    ghost use Rattle.std.specs.Prelude.{None};
    ghost use Rattle.handoff.specs.declared.rule.View.TheVariants.{Waiting, Resting};

    ghost left = { λ _. Waiting None };

    ghost right = { λ _. Resting };
}

/// The giving end looks for an answer.
pub(crate) struct Collecting;

impl<J: Work> Play<Option<J>, View<J>> for Collecting {
    ghost use Rattle.handoff.specs.Phases.{Collects};

    ghost then = { λ _ before found after. Collects J.does before found after };
}

/// The giving end hands an item over.
pub(crate) struct Handing;

impl<J> Play<Option<J>, View<J>> for Handing {
    ghost use Rattle.handoff.specs.Phases.{Hands};

    ghost then = { λ _ before _ after. Hands before after };
}

/// The worker looks for an item.
pub(crate) struct Looking;

impl<J: Work> Play<Option<J>, View<J>> for Looking {
    ghost use Rattle.handoff.specs.Phases.{Looks};

    ghost then = { λ _ before found after. Looks J.takes before found after };
}

/// The worker gives its answer.
pub(crate) struct Answering;

impl<J> Play<Option<J>, View<J>> for Answering {
    ghost use Rattle.handoff.specs.Phases.{Rests};

    ghost then = { λ _ _ _ after. Rests after };
}

/// Nothing more is handed over.
pub(crate) struct Closing;

impl<J> Play<Option<J>, View<J>> for Closing {
    ghost use Rattle.std.specs.Prelude.{◌≡◌};

    ghost then = { λ _ before _ after. after ≡ before };
}
