ghost use Rattle.std.specs.Prelude.{◌≡◌, ℕ};
ghost use Rattle.relay_ports.specs.Told.{counted, calls_after};

/// A count with one more; it stands still at its type's end.
pub fn one_more(count: u64) -> u64
    ensures { result ≡ counted count }
{
    if count < u64::MAX { count + 1 } else { count }
}

/// How often the calls of a source or a sink failed, and how many calls came after the first that failed.
#[derive(Clone, Copy, Debug, PartialEq, Eq)]
pub struct Faults {
    pub faults: u64,
    pub after: u64,
}

impl Faults {
    /// Nothing was called yet.
    pub const NONE: Faults = Faults {
        faults: 0,
        after: 0,
    };

    /// Counts a call that didn't fail.
    pub fn count_call(&mut self)
        ensures faults { self.new.faults ≡ self.old.faults }
        ensures after { self.new.after ≡ calls_after self.old.faults self.old.after }
    {
        if self.faults > 0 {
            self.after = one_more(self.after);
        }
    }

    /// Counts a call that failed.
    pub fn count_failure(&mut self)
        ensures faults { self.new.faults ≡ counted self.old.faults }
        ensures after { self.new.after ≡ calls_after self.old.faults self.old.after }
    {
        self.count_call();
        self.faults = one_more(self.faults);
    }
}
