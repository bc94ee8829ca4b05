ghost use Rattle.std.specs.Prelude.{◌≡◌, ◌+◌, ◌<◌, ◌≤◌, ◌^◌};
ghost use Rattle.frame_rule.specs.Endings.{scan_of};

use crate::scanner::Scan;
use frame_head::FaultKind;

/// Where a unit ends with an ending: the place of the ending's last byte among the bytes that came, and the ending's
/// size in bytes.
#[derive(Clone, Copy, Debug, PartialEq, Eq)]
pub struct Ending {
    pub place: usize,
    pub size: usize,
}

/// What the first ending makes of `have` open bytes and those up to it: a frame, with its ending unless it is stripped,
/// or a fault where more than `max` bytes stand before the ending.
pub fn scan_at(strip: bool, max: u64, have: usize, ending: Ending) -> Scan
    requires room { have + ending.place < 2 ^ 62 }
    requires fits { ending.size ≤ have + ending.place + 1 }
    ensures { result ≡ scan_of strip max have ending }
{
    let used = ending.place + 1;
    if (have + used - ending.size) as u64 > max {
        return Scan::Fault {
            kind: FaultKind::TooLong,
            used,
            over: 0,
        };
    }
    Scan::Frame {
        used,
        front: 0,
        back: if strip { ending.size } else { 0 },
    }
}
