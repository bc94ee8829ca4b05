ghost use Rattle.std.specs.Prelude.{◌≡◌};

use crate::stream_fault::StreamFault;
use buffered_io::Stop;
use frame_rule::FaultKind;
use relay_words::UsageKind;
use std::fmt;

/// How a run ended. Where several hold, it is the first of `Usage`, `NotOpened`, `Memory`, `Source`, `Limit`, `Stream`
/// and `Report`.
#[derive(Clone, Copy, Debug, PartialEq, Eq)]
pub enum Status {
    /// None of the others.
    Fine,
    /// The words aren't in the grammar: the index of the first bad one, and why it is bad.
    Usage { word: u32, kind: UsageKind },
    /// What was read has a fault: the offset of the first, in bytes, and its kind.
    Stream { at: u64, kind: FaultKind },
    /// Reading failed.
    Source,
    /// An opening failed: its number, which is 0 for the input.
    NotOpened { nth: u32 },
    /// More bytes were there than the limit.
    Limit,
    /// Memory was refused.
    Memory,
    /// Writing the report failed.
    Report,
}

impl Status {
    ghost use Rattle.relay_app.specs.Statuses.{number_of};
    ghost use Rattle.relay_app.specs.Cutting.{status_at};
    ghost use Rattle.relay_app.specs.Reports.{report_status};

    // The status of a run whose reading stopped so: the first fault in what was read, or what comes behind that.
    pub(crate) fn at_stop(stop: Stop, fault: Option<StreamFault>, next: Status) -> Status
        ensures { result ≡ status_at stop fault next }
    {
        match (stop, fault) {
            (Stop::Failure, _) => Status::Source,
            (Stop::Limit, _) => Status::Limit,
            (Stop::End, Some(StreamFault { at, kind })) => Status::Stream { at, kind },
            (Stop::End, None) => next,
        }
    }

    // The last status of all: whether the report failed.
    pub(crate) fn of_report(failed: bool) -> Status
        ensures { result ≡ report_status failed }
    {
        if failed { Status::Report } else { Status::Fine }
    }

    /// The number with which the program ends.
    pub fn number(&self) -> u8
        ensures { result ≡ number_of self.now }
    {
        match self {
            Status::Fine => 0,
            Status::Usage { .. } => 2,
            Status::Stream { .. } => 3,
            Status::Source => 4,
            Status::NotOpened { .. } => 6,
            Status::Limit => 7,
            Status::Memory => 8,
            Status::Report => 10,
        }
    }
}

/// The line that the program writes to standard error, without its end. It is empty for `Fine`.
impl fmt::Display for Status {
    fn fmt<W: fmt::Write>(&self, f: &mut fmt::Formatter<W>) -> fmt::Result {
        match self {
            Status::Fine => Ok(()),
            Status::Usage { word, kind } => write!(f, "usage {word} {kind:?}"),
            Status::Stream { at, kind } => write!(f, "stream {at} {kind:?}"),
            Status::Source => write!(f, "source"),
            Status::NotOpened { nth } => write!(f, "not opened {nth}"),
            Status::Limit => write!(f, "limit"),
            Status::Memory => write!(f, "memory"),
            Status::Report => write!(f, "report"),
        }
    }
}
