//! A payload that is lent in parts beside a counted word, so that the parts go with the weights.
//! What is proved by hand stands here, in functions of a few lines.
#![tactic(auto)]

ghost use Rattle.std.specs.Prelude.{◌≡◌, ◌≢◌, ℕ, ◌+◌, ◌-◌, ◌^◌, ◌<◌, ◌≤◌, List, [], ◌∷◌, ◌++◌, Option, Some, None};
ghost use Rattle.atomic_table.specs.Seated.{TableId, table_id_coded};
ghost use Rattle.counted_payload.specs.Parted.{part_owns, deed_owns};
ghost use Rattle.counted_payload.specs.Loans.{returned_owns};
ghost use Rattle.counted_payload.specs.Numbers.{no_memory, numbers_coded};

use atomic_table::{Seat, Shared, TableRule};
use std::alloc::Allocator;
use std::marker::{Brand, Model, PhantomData};
use std::sync::atomic::Ordering::SeqCst;
use std::sync::atomic::raw;

/// What a seat of the word knows. No value of it is made.
pub struct Entry {
    pub live: u64,
    pub held: u64,
    pub lasts: u64,
    pub loads: u64,
    pub note: u64,
    pub parts: u64,
    pub pool: u64,
    pub out: u64,
}

/// The rule of the word: the accounts are right.
pub struct Rule;

impl TableRule<(), Entry, ()> for Rule {
    ghost use Rattle.std.specs.Prelude.{◌^◌};
    ghost use Rattle.counted_payload.specs.Accounts.{entry, Accounted};

    ghost holds = { λ _. Accounted };

    ghost first = { λ _. entry (2 ^ 62) 0 0 0 0 0 0 0 };
}

/// A counted word as its holders share it.
pub type Word = Shared<(), Entry, (), Rule>;

// The fields of a `Shared`, as the table lays them out.
struct Mirror {
    words: *mut u64,
    slots: *mut (),
    marker: PhantomData<()>,
}

/// Parts of a payload that is lent out of a pool.
pub struct Loan<T, A: Allocator> {
    at: *const T,
    word: *const u64,
    marker: PhantomData<A>,
    pub ghost value: { T },
    pub ghost alloc: { A } by { A.code },
    pub ghost table_id: { TableId } by { table_id_coded },
    pub ghost round: { ℕ },
    pub ghost pool: { ℕ },
    pub ghost count: { ℕ },
}

impl<T, A: Allocator> Model for Loan<T, A> {
    ghost use Rattle.counted_payload.specs.CountedLoans.{loaned};
    ghost use Rattle.counted_payload.specs.Parted.{part_shares};

    ghost also_owns = { λ d. loaned A.dealloc_token T.row d };

    ghost also_shares = { λ d _ κ. part_shares T.row d.at d.value d.round κ };
}

unsafe impl<T: Send + Sync, A: Allocator + Send> Send for Loan<T, A> {}

/// What comes out of a pool by a step that found the weight: all parts, and the right to have the payload. Else
/// nothing.
#[derive(Drop)]
pub struct Returned<T, A: Allocator> {
    at: *const T,
    marker: PhantomData<A>,
    pub ghost value: { T },
    pub ghost alloc: { A } by { A.code },
    pub ghost round: { ℕ },
    pub ghost count: { ℕ },
    pub ghost found: { ℕ },
}

impl<T, A: Allocator> Model for Returned<T, A> {
    ghost also_owns = { λ d. returned_owns (A.dealloc_token d.alloc) T.row d.at d.value d.round d.count d.found };
}

/// What stays of a loan after a load that claims: the parts as they were, where it found another word, and else
/// nothing.
#[derive(Drop)]
pub struct Kept<T, A: Allocator> {
    at: *const T,
    word: *const u64,
    marker: PhantomData<A>,
    pub ghost value: { T },
    pub ghost alloc: { A } by { A.code },
    pub ghost table_id: { TableId } by { table_id_coded },
    pub ghost round: { ℕ },
    pub ghost pool: { ℕ },
    pub ghost count: { ℕ },
    pub ghost found: { ℕ },
}

impl<T, A: Allocator> Model for Kept<T, A> {
    ghost use Rattle.counted_payload.specs.CountedLoans.{kept_back};

    ghost also_owns = { λ d. kept_back A.dealloc_token T.row d };
}

impl<T, A: Allocator> Loan<T, A> {
    ghost use Rattle.counted_payload.specs.Calls.{MayClaim, IsClaimed, MayLend, IsLent, IsSplit, MayLeave, HasLeft};

    /// One load of the word. Where it finds the seat's weight k, all parts are taken out of the pool.
    pub fn claim(
        self,
        shared: &Word,
        seat: &mut Seat<(), Entry>,
        k: u64,
    ) -> (u64, Returned<T, A>, Kept<T, A>)
        requires { MayClaim seat.old shared.now.table_id self k }
        ensures { IsClaimed seat.old seat.new self k result }
    {
        let Loan {
            at,
            word,
            marker: _,
        } = self;
        let found = unsafe { raw::load::<Brand>(word, SeqCst) };
        (
            found,
            Returned {
                at,
                marker: PhantomData,
            },
            Kept {
                at,
                word,
                marker: PhantomData,
            },
        )
    }

    /// Lends all parts of a payload to a new pool, and has k of them.
    pub fn lend(
        deed: Deed<T, A>,
        all: Part<T>,
        shared: &Word,
        seat: &mut Seat<(), Entry>,
        k: u64,
    ) -> (A, Loan<T, A>)
        requires { MayLend deed all shared.now.table_id seat.old k }
        ensures { IsLent deed shared.now.table_id seat.old seat.new k result }
    {
        let Deed { ptr: _, alloc } = deed;
        let Part { ptr: at } = all;
        let mirror = shared as *const Word as *const Mirror;
        let word = unsafe { (*mirror).words };
        let _found = unsafe { raw::load::<Brand>(word, SeqCst) };
        (
            alloc,
            Loan {
                at,
                word,
                marker: PhantomData,
            },
        )
    }

    /// The payload. O(1).
    #[inline(always)]
    pub fn get(&self) -> &T
        ensures { result.now ≡ self.now.value }
    {
        unsafe { &*self.at }
    }

    /// Cuts parts off. O(1).
    #[inline(always)]
    pub fn split(&mut self, _k: u64) -> Loan<T, A>
        requires { (0 < _k) × (_k < self.old.count) × (self.old.count ≤ 2 ^ 62) }
        ensures { IsSplit self.old self.new _k result }
    {
        Loan {
            at: self.at,
            word: self.word,
            marker: PhantomData,
        }
    }

    /// Lowers the word by the seat's weight k, and gives k parts back in the same step.
    #[inline(always)]
    pub fn leave(self, shared: &Word, seat: &mut Seat<(), Entry>, k: u64) -> (u64, Returned<T, A>)
        requires { MayLeave seat.old shared.now.table_id self k }
        ensures { HasLeft seat.old seat.new self k result }
    {
        let Loan {
            at,
            word,
            marker: _,
        } = self;
        let found = unsafe { raw::fetch_sub::<Brand>(word, k, SeqCst) };
        (
            found,
            Returned {
                at,
                marker: PhantomData,
            },
        )
    }
}

impl<T, A: Allocator> Kept<T, A> {
    ghost use Rattle.counted_payload.specs.Calls.{IsLoanOf};

    /// The loan, where the load found another word.
    pub fn into_loan(self) -> Loan<T, A>
        requires { self.found ≢ self.count }
        ensures { IsLoanOf self result }
    {
        let Kept {
            at,
            word,
            marker: _,
        } = self;
        Loan {
            at,
            word,
            marker: PhantomData,
        }
    }
}

impl<T, A: Allocator> Returned<T, A> {
    /// The payload, where the step found the weight.
    pub fn whole(self, alloc: A) -> Box<T, A>
        requires { (self.found ≡ self.count) × (alloc ≡ self.alloc) }
        ensures { (result.value ≡ self.value) × (result.alloc ≡ self.alloc) }
    {
        let Returned { at, marker: _ } = self;
        let ptr = at as *mut T;
        unsafe { Box::from_raw(alloc, ptr) }
    }
}

/// The right to read a payload, in parts: it has 2^62, and this is `count` of them.
#[derive(Drop)]
pub struct Part<T> {
    ptr: *const T,
    pub ghost value: { T },
    pub ghost round: { ℕ },
    pub ghost count: { ℕ },
}

impl<T> Model for Part<T> {
    ghost also_owns = { λ p. part_owns T.row p.ptr p.value p.round p.count };
}

/// The right to have the box back, for all parts.
pub struct Deed<T, A: Allocator> {
    ptr: *mut T,
    alloc: A,
    pub ghost value: { T },
    pub ghost round: { ℕ },
}

impl<T, A: Allocator> Model for Deed<T, A> {
    ghost also_owns = { λ d. deed_owns (A.dealloc_token d.alloc) T.row d.ptr d.value d.round };
}

impl<T: Drop, A: Allocator> Deed<T, A> {
    ghost use Rattle.counted_payload.specs.Calls.{Freezes};

    /// Makes a boxed payload into all of its parts. O(1).
    pub fn freeze(whole: Box<T, A>) -> (Deed<T, A>, Part<T>)
        ensures { Freezes whole result }
    {
        let (ptr, alloc) = Box::into_raw_with_allocator(whole);
        (Deed { ptr, alloc }, Part { ptr })
    }
}

/// Remembers a payload for contracts, while the payload itself is on its way. It has no bytes.
#[derive(Drop)]
pub struct Trace<T> {
    marker: PhantomData<T>,
    pub ghost value: { T },
}

impl<T> Model for Trace<T> {
    ghost also_owns = { λ _. no_memory };
}

unsafe impl<T: Send> Send for Trace<T> {}

impl<T> Trace<T> {
    /// Remembers what is there. O(1), and nothing is copied.
    pub fn of(_payload: &T) -> Trace<T>
        ensures { result.value ≡ _payload.now }
    {
        Trace {
            marker: PhantomData,
        }
    }
}

/// Which word got which number, in order, and `None` for a number that no word got. It has no bytes.
#[derive(Drop)]
pub struct Numbers {
    marker: PhantomData<()>,
    pub ghost words: { List (Option TableId) } by { numbers_coded },
}

impl Model for Numbers {
    ghost also_owns = { λ _. no_memory };
}

unsafe impl Send for Numbers {}

impl Numbers {
    /// Nothing was numbered yet.
    pub fn new() -> Numbers
        ensures { result.words ≡ [] }
    {
        Numbers {
            marker: PhantomData,
        }
    }

    /// The next number is this word's.
    pub fn add(&mut self, _word: &Word)
        ensures { self.new.words ≡ self.old.words ++ Some _word.now.table_id ∷ [] }
    {}

    /// The next number is no word's.
    pub fn skip(&mut self)
        ensures { self.new.words ≡ self.old.words ++ None ∷ [] }
    {}
}
