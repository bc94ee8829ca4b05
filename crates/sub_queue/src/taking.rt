//! How many items were taken, as the tap tells the feed: one word, which the tap alone writes.
ghost use Rattle.std.specs.Prelude.{◌≡◌, ◌+◌, ◌≤◌, true, IfOk};
ghost use Rattle.std.specs.Arc.{arc_value};
ghost use Rattle.sub_queue.specs.Taking.{Count};

use atomic_table::{Join, Play, Seat, Split, Table, TableRule};
use std::alloc::{AllocError, Global};
use std::marker::Model;
use std::mem;
use std::sync::{Arc, Wait};

// Which side a seat is, what it told and what it has heard of. No value of it is made.
pub struct Mark {
    pub tells: bool,
    pub told: u64,
    pub heard: u64,
}

pub struct Tally;

impl TableRule<(), Mark, ()> for Tally {
    ghost use Rattle.std.specs.Prelude.{true};
    ghost use Rattle.sub_queue.specs.Taking.{mark, Counts};

    ghost holds = { λ _. Counts };

    ghost first = { λ _. mark true 0 0 };
}

// The seat that tells parts from the one that hears, which has then heard of all that was told.
struct Sides;

impl Split<Mark> for Sides {
    ghost use Rattle.std.specs.Prelude.{true, false};
    ghost use Rattle.sub_queue.specs.Taking.{mark};

    ghost left = { λ v. mark false 0 v.told };

    ghost right = { λ v. mark true v.told 0 };
}

impl Join<Mark> for Sides {
    ghost use Rattle.std.specs.Prelude.{true, false};
    ghost use Rattle.sub_queue.specs.Taking.{mark};

    ghost both = { λ v w. mark true w.told v.heard };

    ghost spent = { mark false 0 0 };
}

// A seat that tells nothing, for a place that may not stay empty.
struct Spare;

impl Split<Mark> for Spare {
    ghost use Rattle.std.specs.Prelude.{false};
    ghost use Rattle.sub_queue.specs.Taking.{mark};

    ghost left = { λ v. v };

    ghost right = { λ v. mark false 0 0 };
}

struct Hear;

impl Play<(), Mark> for Hear {
    ghost use Rattle.sub_queue.specs.Taking.{Hears};

    ghost then = { λ s v found w. Hears v found w };
}

struct Tell;

impl Play<(), Mark> for Tell {
    ghost use Rattle.sub_queue.specs.Taking.{Tells};

    ghost then = { λ s v stored w. Tells v stored w };
}

type Word = Table<(), Mark, (), Tally, Global>;

/// The feed's side. Contracts see the greatest number that it has heard of.
#[derive(Drop)]
pub(crate) struct Hearer {
    word: Arc<Word, Global>,
    seat: Seat<(), Mark>,
}

impl Model for Hearer {
    ghost use Rattle.std.specs.Arc.{arc_value};
    ghost use Rattle.sub_queue.specs.Taking.{Count, SitsAt};

    ghost Value = { Count };

    ghost view = { λ h. record { table = h.seat.table_id; number = h.seat.me.0.heard } };

    ghost invariant = { λ h. SitsAt h.seat (arc_value h.word).shared.table_id };
}

/// The tap's side. Contracts see the number that it told last.
#[derive(Drop)]
pub(crate) struct Teller {
    word: Arc<Word, Global>,
    seat: Seat<(), Mark>,
    told: u64,
}

impl Model for Teller {
    ghost use Rattle.std.specs.Arc.{arc_value};
    ghost use Rattle.sub_queue.specs.Taking.{Count, TellsAt};

    ghost Value = { Count };

    ghost view = { λ t. record { table = t.seat.table_id; number = t.told } };

    ghost invariant = { λ t. TellsAt t.seat (arc_value t.word).shared.table_id t.told };
}

/// The two sides of a count that begins at 0.
pub(crate) fn count(alloc: Global) -> Result<(Hearer, Teller), AllocError>
    ensures table { IfOk result (λ r. r.0.table ≡ r.1.table) }
    ensures numbers { IfOk result (λ r. (r.0.number ≡ 0) × (r.1.number ≡ 0)) }
{
    let words = [0];
    let (word, mut seat) = Word::of_words(alloc, &words, &())?;
    let word = Arc::new(alloc, word)?;
    let theirs = Arc::try_clone(&word)?;
    let tells = word.shared.split_seat::<Sides>(&mut seat);
    Ok((
        Hearer { word, seat },
        Teller {
            word: theirs,
            seat: tells,
            told: 0,
        },
    ))
}

impl Hearer {
    /// The number now: one load.
    pub(crate) fn hear(&mut self) -> u64
        ensures heard { self.new ≡ record self.old { number = result } }
        ensures grows { self.old.number ≤ result }
    {
        self.word.shared.load::<Hear>(&mut self.seat, 0)
    }
}

// One more, below 2^64.
fn next_number<R: Wait>(rt: &R, told: u64) -> u64
    ensures { result ≡ told + 1 }
{
    if told < u64::MAX {
        return told + 1;
    }
    for _ in rt.forever() {}
    unreachable!()
}

impl Teller {
    /// One more: one store. It waits for ever at 2^64 - 1, which no run counts to.
    pub(crate) fn tell<R: Wait>(&mut self, rt: &R)
        ensures { self.new ≡ record self.old { number = self.old.number + 1 } }
    {
        let next = next_number(rt, self.told);
        self.word.shared.store::<Tell>(&mut self.seat, 0, next);
        self.told = next;
    }

    /// The number that was told last.
    pub(crate) fn told(&self) -> u64
        ensures { result ≡ self.now.number }
    {
        self.told
    }
}

/// What was heard of was told; and then the one side has heard of all that the other told.
pub(crate) fn compare(hearer: &mut Hearer, teller: &mut Teller)
    requires { hearer.old.table ≡ teller.old.table }
    ensures heard { hearer.old.number ≤ teller.old.number }
    ensures both { (hearer.new ≡ teller.old) × (teller.new ≡ teller.old) }
{
    let spare = hearer.word.shared.split_seat::<Spare>(&mut hearer.seat);
    let theirs = mem::replace(&mut teller.seat, spare);
    hearer
        .word
        .shared
        .join_seat::<Sides>(&mut hearer.seat, theirs);
    hearer.word.shared.load::<Hear>(&mut hearer.seat, 0);
    teller.seat = hearer.word.shared.split_seat::<Sides>(&mut hearer.seat);
}
