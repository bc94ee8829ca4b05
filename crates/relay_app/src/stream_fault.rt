ghost use Rattle.std.specs.Prelude.{◌≡◌, ◌∷◌, []};
ghost use Rattle.frame_rule.specs.Units.{unit_of};
ghost use Rattle.relay_app.specs.Noting.{fault_after};

use frame_rule::{FaultKind, FrameUnit};

/// A fault in what was read.
#[derive(Clone, Copy, Debug, PartialEq, Eq)]
pub struct StreamFault {
    /// Its offset in bytes, or the number of a script's line.
    pub at: u64,
    pub kind: FaultKind,
}

/// Notes a unit that is a fault, unless one was noted before.
pub(crate) fn note(fault: &mut Option<StreamFault>, unit: &FrameUnit)
    ensures { fault.new ≡ fault_after fault.old (unit_of unit.now ∷ []) }
{
    match unit {
        FrameUnit::Fault { at, kind } if fault.is_none() => {
            *fault = Some(StreamFault {
                at: *at,
                kind: *kind,
            });
        }
        _ => {}
    }
}
