//! Receipts for weight that was given back.
ghost use Rattle.std.specs.Prelude.{◌≡◌, ◌+◌, ◌≤◌, []};
ghost use Rattle.std.specs.Arc.{arc_value};
ghost use Rattle.share_count.specs.Weights.{full};
ghost use Rattle.share_count.specs.Held.{tally};
ghost use Rattle.share_count.specs.Cutting.{IsReceipt};
ghost use Rattle.share_count.specs.Seats.{SeatsReceipt};

use crate::word::{Learn, Together, Word};
use atomic_table::Seat;
use counted_payload::Entry;
use std::alloc::Global;
use std::fmt;
use std::marker::{Model, PhantomData};
use std::sync::Arc;

/// A receipt for weight of a storage with a payload `P`. Contracts see the storage, its number, the weight and the
/// lasts.
#[derive(Drop)]
pub struct Receipt<P> {
    word: Arc<Word, Global>,
    seat: Seat<(), Entry>,
    number: u64,
    weight: u64,
    lasts: u64,
    payload: PhantomData<P>,
}

impl<P> Model for Receipt<P> {
    ghost use Rattle.std.specs.Arc.{arc_value};
    ghost use Rattle.share_count.specs.Held.{Tally, tally_coded, tally};
    ghost use Rattle.share_count.specs.Seats.{SeatsReceipt};

    ghost Value = { Tally };

    ghost coded = { tally_coded };

    ghost view = { λ r. tally r.seat.table_id r.number r.weight r.lasts };

    ghost invariant = { λ r. SeatsReceipt r.seat (arc_value r.word).shared.table_id r.weight r.lasts };
}

impl<P> Receipt<P> {
    // The receipt of a seat that gave its weight back.
    pub(crate) fn of(
        word: Arc<Word, Global>,
        seat: Seat<(), Entry>,
        number: u64,
        weight: u64,
        lasts: u64,
    ) -> Receipt<P>
        requires { SeatsReceipt seat (arc_value word).shared.table_id weight lasts }
        ensures { result ≡ tally seat.table_id number weight lasts }
    {
        Receipt {
            word,
            seat,
            number,
            weight,
            lasts,
            payload: PhantomData,
        }
    }

    /// The number of the storage.
    pub fn number(&self) -> u64
        ensures { result ≡ self.now.number }
    {
        self.number
    }

    /// The weight that was given back, of 2^62 in all.
    pub fn weight(&self) -> u64
        ensures weight { result ≡ self.now.weight }
        ensures least { 1 ≤ self.now.weight }
        ensures most { self.now.weight ≤ full }
    {
        self.weight
    }

    /// How many of the units that it stands for were the last of their storage: 1 or 0.
    pub fn lasts(&self) -> u64
        ensures lasts { result ≡ self.now.lasts }
        ensures most { self.now.lasts ≤ 1 }
        ensures full { self.now.weight ≡ full → self.now.lasts ≡ 1 }
    {
        self.lasts
    }

    /// Two receipts of one storage as one. Two loads of the word, and no memory.
    pub fn join(self, other: Receipt<P>) -> Receipt<P>
        requires { self.table ≡ other.table }
        ensures sum { result ≡ tally self.table self.number (self.weight + other.weight) (self.lasts + other.lasts) }
        ensures full { result.weight ≡ full → result.lasts ≡ 1 }
        ensures most { result.weight ≤ full }
        ensures lasts { result.lasts ≤ 1 }
    {
        let Receipt {
            word,
            mut seat,
            number,
            weight,
            lasts,
            payload: _,
        } = self;
        let (more, more_lasts) = (other.weight, other.lasts);
        let theirs = other.into_seat();
        word.shared.join_seat::<Together>(&mut seat, theirs);
        word.shared.load::<Learn>(&mut seat, 0);
        Receipt::of(word, seat, number, weight + more, lasts + more_lasts)
    }

    // The seat alone.
    pub(crate) fn into_seat(self) -> Seat<(), Entry>
        ensures table { result.table_id ≡ self.table }
        ensures seat { (result.me.1 ≡ []) × IsReceipt self.weight self.lasts result.me.0 }
    {
        let Receipt {
            word: _,
            seat,
            number: _,
            weight: _,
            lasts: _,
            payload: _,
        } = self;
        seat
    }
}

impl<P> fmt::Debug for Receipt<P> {
    fn fmt<W: fmt::Write>(&self, f: &mut fmt::Formatter<W>) -> fmt::Result {
        write!(
            f,
            "Receipt {{ number: {}, weight: {}, lasts: {} }}",
            self.number, self.weight, self.lasts
        )
    }
}
