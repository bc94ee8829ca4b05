//! What both ends of a handoff share, and the steps that each end takes on it.
ghost use Rattle.std.specs.Prelude.{◌≡◌, ◌≢◌, ℕ, true, false, [], ◌∷◌, Option, None, Some, IfOk};
ghost use Rattle.handoff.specs.Phases.{asked_of, in_hand, TakesAnswer, Looks};
ghost use Rattle.handoff.specs.declared.rule.View.TheVariants.{Holding, Waiting, Resting, Working};

use crate::rule::{Answering, Closing, Collecting, Handing, Hiring, Looking, Rule, View};
use crate::work::Work;
use atomic_table::{Seat, Table};
use crossbeam_utils::Backoff;
use std::alloc::{AllocError, Global};
use std::sync::Wait;
use std::sync::atomic::AtomicBool;
use std::sync::atomic::Ordering::SeqCst;

// The word, as long as an item is out.
const OUT: u64 = 1;

// The word where no item is out, or where its answer lies in the slot.
const BACK: u64 = 2;

// The word at the end.
const OVER: u64 = 3;

/// What an end knows of the word and the slot, and the slot where it has it.
pub(crate) type Place<J> = Seat<Option<J>, View<J>>;

/// The word, the slot, and who sleeps.
///
/// An end that is about to sleep says so first, and sleeps only while the word is what it saw; the other end changes
/// the word first, and then looks whether somebody sleeps. So no wake is missed, and none is a system call where nobody
/// sleeps.
#[derive(Drop)]
pub(crate) struct Meeting<J: Work> {
    pub(crate) table: Table<Option<J>, View<J>, (), Rule, Global>,
    worker_sleeps: AtomicBool,
    giver_sleeps: AtomicBool,
    // The giving end was dropped while an item was out.
    left: AtomicBool,
    ghost sized: { (table.shared.table_id.words ≡ 1) × (table.shared.table_id.slots ≡ 1) },
}

/// A new meeting, with the places of the giving end and of the worker.
pub(crate) fn meet<J: Work>(alloc: Global) -> Result<(Meeting<J>, Place<J>, Place<J>), AllocError>
    ensures giver_table { IfOk result (λ r. r.1.table_id ≡ r.0.table.shared.table_id) }
    ensures worker_table { IfOk result (λ r. r.2.table_id ≡ r.0.table.shared.table_id) }
    ensures giver { IfOk result (λ r. r.1.me ≡ (Holding, (0, None) ∷ [])) }
    ensures worker { IfOk result (λ r. r.2.me ≡ (Resting, [])) }
{
    let (table, mut giver) = Table::vacant(alloc, &[BACK], 1, &())?;
    let meeting = Meeting {
        table,
        worker_sleeps: AtomicBool::new(false),
        giver_sleeps: AtomicBool::new(false),
        left: AtomicBool::new(false),
    };
    let worker = meeting.table.shared.split_seat::<Hiring>(&mut giver);
    if !meeting.look_for_answer(&mut giver) {
        unreachable!()
    }
    meeting.swap_slot(&mut giver, None);
    Ok((meeting, giver, worker))
}

impl<J: Work> Meeting<J> {
    /// Puts a new item into the slot that the end has, and gives the one that lay there.
    pub(crate) fn swap_slot(&self, place: &mut Place<J>, new: Option<J>) -> Option<J>
        requires table { place.old.table_id ≡ self.now.table.shared.table_id }
        requires has { (old : Option J) × (place.old.me.1 ≡ (0, old) ∷ []) }
        ensures table { place.new.table_id ≡ place.old.table_id }
        ensures was { place.old.me.1 ≡ (0, result) ∷ [] }
        ensures is { place.new.me ≡ (place.old.me.0, (0, new) ∷ []) }
    {
        self.table.shared.exchange(place, 0, new)
    }

    /// Takes the slot if the answer lies there, and says whether it did.
    pub(crate) fn look_for_answer(&self, place: &mut Place<J>) -> bool
        requires table { place.old.table_id ≡ self.now.table.shared.table_id }
        requires waits { place.old.me ≡ (Waiting (asked_of place.old.me.0), []) }
        ensures table { place.new.table_id ≡ place.old.table_id }
        ensures later { result ≡ false → (place.new.me ≡ place.old.me) × (asked_of place.old.me.0 ≢ None) }
        ensures taken { result ≡ true → TakesAnswer J.does place.old.me place.new.me }
    {
        self.table.shared.load::<Collecting>(place, 0) == BACK
    }

    /// Waits for the answer, and takes the slot.
    pub(crate) fn await_answer<R: Wait>(&self, rt: &R, place: &mut Place<J>)
        requires table { place.old.table_id ≡ self.now.table.shared.table_id }
        requires waits { place.old.me ≡ (Waiting (asked_of place.old.me.0), []) }
        ensures table { place.new.table_id ≡ place.old.table_id }
        ensures taken { TakesAnswer J.does place.old.me place.new.me }
    {
        let backoff = Backoff::new();
        'looks: for _ in rt.forever() {
            if self.look_for_answer(place) {
                return;
            }
            if backoff.is_completed() {
                self.giver_sleeps.store(true, SeqCst);
                self.table.shared.park(rt, 0, OUT as u32);
                self.giver_sleeps.store(false, SeqCst);
            } else {
                backoff.snooze();
            }
        }
        unreachable!()
    }

    /// Hands over the item that lies in the slot.
    pub(crate) fn hand_over(&self, place: &mut Place<J>)
        requires table { place.old.table_id ≡ self.now.table.shared.table_id }
        requires has { (x : J) × (place.old.me ≡ (Holding, (0, Some x) ∷ [])) × J.takes x }
        ensures table { place.new.table_id ≡ place.old.table_id }
        ensures gone { place.new.me ≡ (Waiting (in_hand place.old.me.1), []) }
    {
        self.table.shared.store::<Handing>(place, 0, OUT);
        if self.worker_sleeps.load(SeqCst) {
            self.table.shared.wake_one(0);
        }
    }

    /// Hands over no more.
    pub(crate) fn close(&self, place: &mut Place<J>)
        requires table { place.old.table_id ≡ self.now.table.shared.table_id }
        requires holds { place.old.me.0 ≡ Holding }
    {
        self.table.shared.store::<Closing>(place, 0, OVER);
        if self.worker_sleeps.load(SeqCst) {
            self.table.shared.wake_one(0);
        }
    }

    /// Leaves while an item is out: the worker ends once it has answered, and the item is dropped with the meeting.
    ///
    /// Either the answer is seen here, or the worker has yet to answer and sees afterwards that this end has left.
    pub(crate) fn leave(&self, place: &mut Place<J>)
        requires table { place.old.table_id ≡ self.now.table.shared.table_id }
        requires waits { place.old.me ≡ (Waiting (asked_of place.old.me.0), []) }
    {
        self.left.store(true, SeqCst);
        if self.look_for_answer(place) {
            self.close(place);
        }
    }

    // Takes the slot if an item lies there, and gives the word.
    fn look_for_item(&self, place: &mut Place<J>) -> u64
        requires table { place.old.table_id ≡ self.now.table.shared.table_id }
        requires waits { place.old.me ≡ (Resting, []) }
        ensures table { place.new.table_id ≡ place.old.table_id }
        ensures looks { Looks J.takes place.old.me result place.new.me }
    {
        self.table.shared.load::<Looking>(place, 0)
    }

    /// Waits for an item, and takes the slot. The answer is `false` where the giving end is gone.
    pub(crate) fn await_item<R: Wait>(&self, rt: &R, place: &mut Place<J>) -> bool
        requires table { place.old.table_id ≡ self.now.table.shared.table_id }
        requires waits { place.old.me ≡ (Resting, []) }
        ensures table { place.new.table_id ≡ place.old.table_id }
        ensures over { result ≡ false → place.new.me ≡ place.old.me }
        ensures taken { result ≡ true → (x : J) × (place.new.me ≡ (Working x, (0, Some x) ∷ [])) × J.takes x }
    {
        let backoff = Backoff::new();
        'looks: for _ in rt.forever() {
            let word = self.look_for_item(place);
            if word == OUT {
                return true;
            }
            if word == OVER {
                return false;
            }
            if backoff.is_completed() {
                self.worker_sleeps.store(true, SeqCst);
                self.table.shared.park(rt, 0, BACK as u32);
                self.worker_sleeps.store(false, SeqCst);
            } else {
                backoff.snooze();
            }
        }
        unreachable!()
    }

    // Gives the answer that lies in the slot.
    fn give_answer(&self, place: &mut Place<J>)
        requires table { place.old.table_id ≡ self.now.table.shared.table_id }
        requires has { (x : J) × (y : J) × (place.old.me ≡ (Working x, (0, Some y) ∷ [])) × J.does x y }
        ensures table { place.new.table_id ≡ place.old.table_id }
        ensures gone { place.new.me ≡ (Resting, []) }
    {
        self.table.shared.store::<Answering>(place, 0, BACK);
        if self.giver_sleeps.load(SeqCst) {
            self.table.shared.wake_one(0);
        }
    }

    /// Works on the item in the slot, and gives it as the answer. Says whether the other end has left.
    pub(crate) fn work_on<R: Wait>(&self, rt: &R, place: &mut Place<J>) -> bool
        requires table { place.old.table_id ≡ self.now.table.shared.table_id }
        requires has { (x : J) × (place.old.me ≡ (Working x, (0, Some x) ∷ [])) × J.takes x }
        ensures table { place.new.table_id ≡ place.old.table_id }
        ensures gone { place.new.me ≡ (Resting, []) }
    {
        let mut item = self.swap_slot(place, None).unwrap();
        item.work(rt);
        self.swap_slot(place, Some(item));
        self.give_answer(place);
        self.left.load(SeqCst)
    }
}
