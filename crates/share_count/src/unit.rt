//! Units: live weight of a storage, with its payload.
ghost use Rattle.std.specs.Prelude.{◌≡◌, ◌+◌, ◌-◌, ◌<◌, ◌≤◌, ◌≢◌, ◌↔◌, IsTrue, IsFalse, true, false, [], ◌∷◌, ◌++◌, length, Some, IfOk, IfErr, OnErr, IsOk, IfSome, MatchOption, MatchResult};
ghost use Rattle.std.specs.Arc.{arc_value};
ghost use Rattle.std.specs.Borrow.{sem};
ghost use Rattle.share_count.specs.Weights.{full, part};
ghost use Rattle.share_count.specs.Held.{owned, IsWhole, looked, claimed, sharer, share_of};
ghost use Rattle.share_count.specs.Answers.{IsStanding, IsFound, GivesBack};
ghost use Rattle.share_count.specs.Seats.{SeatsUnit, seen};

use crate::given::Given;
use crate::home::{Home, settled};
use crate::mint::Mint;
use crate::receipt::Receipt;
use crate::standing::Standing;
use crate::word::{Cut, End, FULL, Learn, Look, Together, Word};
use atomic_table::Seat;
use counted_payload::{Deed, Entry, Loan};
use std::alloc::{AllocError, Global};
use std::fmt;
use std::marker::Model;
use std::sync::Arc;

/// Live weight of a storage, with the payload. A drop gives the weight back, and drops the payload at the last.
pub struct Unit<P> {
    word: Arc<Word, Global>,
    seat: Seat<(), Entry>,
    home: Home<P>,
    alloc: Global,
    number: u64,
    weight: u64,
    absorbed: u64,
}

impl<P> Model for Unit<P> {
    ghost use Rattle.std.specs.Arc.{arc_value};
    ghost use Rattle.share_count.specs.Held.{Owned, owned_coded};
    ghost use Rattle.share_count.specs.Seats.{SeatsUnit, seen};

    ghost Value = { Owned P };

    ghost coded = { owned_coded P.code };

    ghost view = { λ u. seen u.seat u.number u.weight u.absorbed u.home };

    ghost invariant = { λ u. SeatsUnit u.seat (arc_value u.word).shared.table_id u.weight u.absorbed u.alloc u.home };
}

/// A new storage with the mint's next number: its one unit has all weight, and the payload is its own. Four
/// allocations, O(1). Where memory is refused, or the mint has no number left, the payload is handed back and the
/// mint is as it was.
pub fn make<P: Drop>(alloc: Global, payload: P, mint: &mut Mint) -> Result<Unit<P>, P>
    ensures unit { IfOk result (λ u. u ≡ owned u.table (length mint.old) full 0 0 0 true payload) }
    ensures mint { MatchResult result (λ u. mint.new ≡ mint.old ++ Some u.table ∷ []) (λ _. mint.new ≡ mint.old) }
    ensures refused { IfErr result (λ x. x ≡ payload) }
{
    if !mint.ready() {
        return Err(payload);
    }
    let Ok((word, seat)) = Word::of_words(alloc, &[FULL], &()) else {
        return Err(payload);
    };
    let Ok(word) = Arc::new(alloc, word) else {
        return Err(payload);
    };
    match Box::new(alloc, payload) {
        Ok(boxed) => {
            let number = mint.number(&word.shared);
            Ok(Unit {
                word,
                seat,
                home: Home::Own(boxed),
                alloc,
                number,
                weight: FULL,
                absorbed: 0,
            })
        }
        Err(failed) => Err(failed.value),
    }
}

impl<P: Drop> Unit<P> {
    ghost use Rattle.share_count.specs.Lending.{lends_payload, lends_alone};

    /// The number of the storage.
    #[inline(always)]
    pub fn number(&self) -> u64
        ensures { result ≡ self.now.number }
    {
        self.number
    }

    /// The live weight, of 2^62 in all.
    #[inline(always)]
    pub fn weight(&self) -> u64
        ensures weight { result ≡ self.now.weight }
        ensures least { 1 ≤ self.now.weight }
        ensures most { self.now.weight + self.now.absorbed ≤ full }
    {
        self.weight
    }

    /// The weight of the receipts that it absorbed.
    pub fn absorbed(&self) -> u64
        ensures { result ≡ self.now.absorbed }
    {
        self.absorbed
    }

    /// Whether it has all weight of its storage. No step on the word.
    #[inline(always)]
    pub fn whole(&self) -> bool
        ensures { IsTrue result ↔ IsWhole self.now }
    {
        self.weight + self.absorbed == FULL
    }

    /// Whether the payload is its own, so that it may be written without a step: from its making, or from a claim
    /// that found nobody else, until it is shared.
    pub fn alone(&self) -> bool
        ensures { result ≡ self.now.alone }
    {
        self.home.is_own()
    }

    /// The payload for reading. O(1), no step on the word.
    #[inline(always)]
    pub fn get(&self) -> &P
        ensures { result.now ≡ self.now.payload }
    {
        self.home.get()
    }

    /// A unit of a part of the weight: a thousandth or so, at most 2^40, at least 1. `None` exactly at weight 1. No
    /// allocation: the count of a shared pointer grows by one, and where that is refused the unit is as it was. O(1).
    #[inline(always)]
    pub fn share(&mut self) -> Result<Option<Unit<P>>, AllocError>
        ensures none { IfOk result (λ o. MatchOption o (self.old.weight ≡ 1) (λ _. 2 ≤ self.old.weight)) }
        ensures stays { IfOk result (λ o. MatchOption o (self.new ≡ self.old) (λ _. self.new ≡ sharer self.old)) }
        ensures goes { IfOk result (λ o. IfSome o (λ u. u ≡ share_of self.old)) }
        ensures refused { OnErr result (self.new ≡ self.old) }
    {
        if self.weight == 1 {
            return Ok(None);
        }
        let word = Arc::try_clone(&self.word)?;
        if self.home.is_own() {
            self.lend();
        }
        Ok(Some(self.cut(word)))
    }

    /// Looks whether others hold the storage. One load of the word, which is counted and noted.
    pub fn look(&mut self) -> Standing
        ensures looked { self.new ≡ looked self.old self.new.note }
        ensures found { IsStanding self.old.weight self.new.note result }
        ensures whole { IsWhole self.old → result ≡ Standing.Sole }
        ensures alone { IsTrue self.old.alone → result ≡ Standing.Sole }
    {
        let found = self.word.shared.load::<Look>(&mut self.seat, 0);
        if found == self.weight {
            Standing::Sole
        } else {
            Standing::Shared { found }
        }
    }

    /// The look that takes the payload home where nobody else holds the storage: then the unit is alone. Else the
    /// weight of all live units as it was found. One load of the word.
    pub fn claim(&mut self) -> Result<(), u64>
        ensures claimed { self.new ≡ claimed self.old self.new.note }
        ensures found { IsFound self.old.weight self.new.note result }
        ensures whole { IsWhole self.old → IsOk result }
        ensures alone { IsTrue self.old.alone → IsOk result }
    {
        if self.home.is_own() {
            return match self.look() {
                Standing::Sole => Ok(()),
                Standing::Shared { found } => Err(found),
            };
        }
        self.take_home()
    }

    /// Lends the payload for writing, where a look finds nobody else. Else the weight of all live units as it was
    /// found. One load of the word.
    pub fn get_mut(&mut self) -> Result<&mut P, u64>
        ensures* lends { sem 𝓛 (lends_alone P.row self.entry result) }
        ensures found { MatchResult result (λ x. x.now ≡ self.old.payload) (λ n. self.old.weight < n) }
        ensures whole { IsWhole self.old → IsOk result }
        ensures alone { IsTrue self.old.alone → IsOk result }
    {
        self.claim()?;
        Ok(self.alone_mut())
    }

    /// Lends the payload for writing, to a caller who knows that it is the unit's own. No step on the word.
    pub fn alone_mut(&mut self) -> &mut P
        requires { IsTrue self.old.alone }
        ensures* lends { sem 𝓛 (lends_payload P.row self.entry result) }
        ensures value { result.now ≡ self.old.payload }
    {
        self.home.own_mut()
    }

    /// Takes a receipt of the same storage in: its weight joins what was absorbed. Two loads of the word, no memory.
    pub fn absorb(&mut self, receipt: Receipt<P>)
        requires { self.old.table ≡ receipt.table }
        ensures lasts { receipt.lasts ≡ 0 }
        ensures sum { self.new ≡ record self.old { absorbed = self.old.absorbed + receipt.weight } }
    {
        let weight = receipt.weight();
        self.word
            .shared
            .join_seat::<Together>(&mut self.seat, receipt.into_seat());
        self.word.shared.load::<Learn>(&mut self.seat, 0);
        self.absorbed += weight;
    }

    /// Gives all weight back, with a receipt for it; the last has the payload. One step on the word, no memory.
    pub fn give_back(self) -> Given<P>
        ensures back { GivesBack self result }
    {
        let Unit {
            word,
            mut seat,
            home,
            alloc,
            number,
            weight,
            absorbed,
        } = self;
        let total = weight + absorbed;
        match home {
            Home::Own(boxed) => {
                word.shared.fetch_sub::<End>(&mut seat, 0, weight);
                Given::Last(
                    Box::into_inner(boxed),
                    Receipt::of(word, seat, number, total, 1),
                )
            }
            Home::Lent(loan) => {
                let (found, returned) = loan.leave(&word.shared, &mut seat, weight);
                if found == weight {
                    let payload = Box::into_inner(returned.whole(alloc));
                    Given::Last(payload, Receipt::of(word, seat, number, total, 1))
                } else {
                    drop(returned);
                    Given::Kept(Receipt::of(word, seat, number, total, 0))
                }
            }
            Home::Moving(_) => unreachable!(),
        }
    }

    // Lends the payload in as many parts as the unit has weight, where it is its own.
    #[inline(never)]
    fn lend(&mut self)
        ensures { self.new ≡ record self.old { alone = false } }
    {
        let lent = match self.home.take() {
            Home::Own(boxed) => {
                let (deed, all) = Deed::freeze(boxed);
                let (_, loan) = Loan::lend(
                    deed,
                    all,
                    &self.word.shared,
                    &mut self.seat,
                    self.weight,
                );
                Home::Lent(loan)
            }
            home => home,
        };
        self.home.put(lent);
    }

    // Cuts a share off the lent payload.
    #[inline(always)]
    fn cut(&mut self, word: Arc<Word, Global>) -> Unit<P>
        requires more { 2 ≤ self.old.weight }
        requires lent { IsFalse self.old.alone }
        requires word { (arc_value word).shared.table_id ≡ self.old.table }
        ensures stays { self.new ≡ sharer self.old }
        ensures goes { result ≡ share_of self.old }
    {
        let weight = (self.weight / 1024).min(1 << 40).max(1);
        let seat = self.word.shared.split_seat::<Cut>(&mut self.seat);
        let loan = self.home.split(weight);
        self.weight -= weight;
        share_on(word, seat, loan, self.alloc, self.number, weight)
    }

    // The claim of a unit whose payload is lent.
    #[inline(never)]
    fn take_home(&mut self) -> Result<(), u64>
        requires { IsFalse self.old.alone }
        ensures claimed { self.new ≡ claimed self.old self.new.note }
        ensures found { IsFound self.old.weight self.new.note result }
        ensures whole { IsWhole self.old → IsOk result }
    {
        let loan = self.home.take_loan();
        let (found, returned, kept) = loan.claim(&self.word.shared, &mut self.seat, self.weight);
        self.home
            .put(settled(returned, kept, found, self.weight, self.alloc));
        if found == self.weight {
            Ok(())
        } else {
            Err(found)
        }
    }
}

// A share on parts that were cut off. It is made in a function of its own, behind the step on the word, so that the
// compiler builds it where it goes.
#[inline(always)]
fn share_on<P: Drop>(
    word: Arc<Word, Global>,
    seat: Seat<(), Entry>,
    loan: Loan<P, Global>,
    alloc: Global,
    number: u64,
    weight: u64,
) -> Unit<P>
    requires { SeatsUnit seat (arc_value word).shared.table_id weight 0 alloc (Home.Lent loan) }
    ensures { result ≡ seen seat number weight 0 (Home.Lent loan) }
{
    Unit {
        word,
        seat,
        home: Home::Lent(loan),
        alloc,
        number,
        weight,
        absorbed: 0,
    }
}

impl<P: Drop> Drop for Unit<P> {
    fn drop(self) {
        match self.give_back() {
            Given::Last(payload, receipt) => {
                drop(payload);
                drop(receipt);
            }
            Given::Kept(receipt) => drop(receipt),
        }
    }
}

impl<P: Drop> fmt::Debug for Unit<P> {
    fn fmt<W: fmt::Write>(&self, f: &mut fmt::Formatter<W>) -> fmt::Result {
        write!(
            f,
            "Unit {{ number: {}, weight: {}, absorbed: {} }}",
            self.number, self.weight, self.absorbed
        )
    }
}
