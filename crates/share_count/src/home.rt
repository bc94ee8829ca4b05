//! Where a unit has its payload.
ghost use Rattle.std.specs.Prelude.{◌≡◌, ◌≢◌, false, IfSome, MatchOption, IsTrue};
ghost use Rattle.std.specs.Borrow.{sem};
ghost use Rattle.share_count.specs.Homes.{payload_in, is_own, IsMoving, IsLent, IsLentOver, Splits, MaySettle, Settles};

use counted_payload::{Kept, Loan, Returned, Trace};
use std::alloc::Global;
use std::mem;

// The unit's own, or lent in parts. `Moving` stands between the two, inside one call.
pub(crate) enum Home<P> {
    Own(Box<P, Global>),
    Lent(Loan<P, Global>),
    Moving(Trace<P>),
}

impl<P: Drop> Home<P> {
    ghost use Rattle.share_count.specs.HomeLends.{lends_own, lends_own_if};

    #[inline(always)]
    pub(crate) fn is_own(&self) -> bool
        ensures { result ≡ is_own self.now }
    {
        matches!(self, Home::Own(_))
    }

    #[inline(always)]
    pub(crate) fn get(&self) -> &P
        requires { ¬ (IsMoving self.now) }
        ensures { result.now ≡ payload_in self.now }
    {
        match self {
            Home::Own(boxed) => boxed,
            Home::Lent(loan) => loan.get(),
            Home::Moving(_) => unreachable!(),
        }
    }

    fn own_if(&mut self) -> Option<&mut P>
        ensures* lends { sem 𝓛 (lends_own_if P.row self.entry result) }
        ensures some { MatchOption result (is_own self.old ≡ false) (λ _. IsTrue (is_own self.old)) }
        ensures value { IfSome result (λ x. x.now ≡ payload_in self.old) }
    {
        match self {
            Home::Own(boxed) => Some(boxed),
            _ => None,
        }
    }

    pub(crate) fn own_mut(&mut self) -> &mut P
        requires { IsTrue (is_own self.old) }
        ensures* lends { sem 𝓛 (lends_own P.row self.entry result) }
        ensures value { result.now ≡ payload_in self.old }
    {
        self.own_if().unwrap()
    }

    // Takes the home out, until it is put again.
    pub(crate) fn take(&mut self) -> Home<P>
        requires { ¬ (IsMoving self.old) }
        ensures home { result ≡ self.old }
        ensures moving { IsMoving self.new }
        ensures payload { payload_in self.new ≡ payload_in self.old }
    {
        let trace = Trace::of(self.get());
        mem::replace(self, Home::Moving(trace))
    }

    // Takes the loan out, until something is put there again.
    pub(crate) fn take_loan(&mut self) -> Loan<P, Global>
        requires { IsLent self.old }
        ensures loan { self.old ≡ Home.Lent result }
        ensures moving { IsMoving self.new }
    {
        let home = self.take();
        let Home::Lent(loan) = home else {
            unreachable!()
        };
        loan
    }

    // Cuts parts off the loan.
    #[inline(always)]
    pub(crate) fn split(&mut self, parts: u64) -> Loan<P, Global>
        requires { IsLentOver parts self.old }
        ensures { Splits parts self.old self.new (Home.Lent result) }
    {
        match self {
            Home::Lent(loan) => loan.split(parts),
            _ => unreachable!(),
        }
    }

    pub(crate) fn put(&mut self, home: Home<P>)
        requires { IsMoving self.old }
        ensures { self.new ≡ home }
    {
        let old = mem::replace(self, home);
        let Home::Moving(_) = old else { unreachable!() };
    }
}

// The payload is at home where a claim found the weight, and else lent as it was.
pub(crate) fn settled<P: Drop>(
    returned: Returned<P, Global>,
    kept: Kept<P, Global>,
    found: u64,
    weight: u64,
    alloc: Global,
) -> Home<P>
    requires { MaySettle returned kept found weight alloc }
    ensures { Settles returned kept result }
{
    if found == weight {
        Home::Own(returned.whole(alloc))
    } else {
        Home::Lent(kept.into_loan())
    }
}
