ghost use Rattle.std.specs.Prelude.{◌≡◌, ℕ, ◌≤◌, List, ◌++◌, length, take};
ghost use Rattle.frame_head.specs.Endings.{line_endings};
ghost use Rattle.frame_rule.specs.Endings.{FindsEnding, Unended};
ghost use Rattle.frame_line.specs.Lines.{ends_in_return, size_of_ending};

use frame_head::{Codec, FaultKind, LineEnd};
use frame_rule::{Ending, Scan, Scanner, scan_at};
use memchr::memchr;

/// Finds the ends of lines. Of the bytes that it has seen it keeps whether the last one was a carriage return.
#[derive(Debug, Drop)]
pub struct LineScanner {
    ending: LineEnd,
    strip: bool,
    max: u64,
    after_return: bool,
}

const LONGEST_ENDING: usize = 2;

impl Scanner for LineScanner {
    ghost use Rattle.std.specs.Prelude.{◌≡◌, None};
    ghost use Rattle.frame_head.specs.declared.codecs.Codec.TheVariants.{Line};
    ghost use Rattle.frame_head.specs.Codecs.{IsLine, fault_of};
    ghost use Rattle.frame_head.specs.Endings.{line_endings};
    ghost use Rattle.frame_rule.specs.Endings.{Unended};
    ghost use Rattle.frame_line.specs.Lines.{ends_in_return};

    ghost codec_of = { λ s. Line s.ending s.strip s.max };

    ghost takes = { IsLine };

    ghost saw = { λ s r. (fault_of (Line s.ending s.strip s.max) ≡ None) × Unended (line_endings s.ending) r
        × (ends_in_return r ≡ s.after_return) };

    fn new(codec: Codec) -> LineScanner {
        match codec {
            Codec::Line { ending, strip, max } => LineScanner {
                ending,
                strip,
                max,
                after_return: false,
            },
            _ => unreachable!(),
        }
    }

    fn scan(&mut self, have: usize, bytes: &[u8]) -> Scan {
        match find_ending(self.ending, self.after_return, bytes) {
            Some(ending) => {
                self.after_return = false;
                scan_at(self.strip, self.max, have, ending)
            }
            None => {
                self.after_return = is_after_return(self.after_return, bytes, bytes.len());
                if have + bytes.len() < self.max as usize + LONGEST_ENDING {
                    Scan::Open
                } else {
                    Scan::Hopeless
                }
            }
        }
    }

    fn last(&self, have: usize) -> Option<FaultKind> {
        if have as u64 > self.max {
            return Some(FaultKind::TooLong);
        }
        None
    }

    ghost checked = { λ s r seen. seen.0 };
}

// The first end of a line in bytes that come behind open ones, of which the last is a carriage return or not.
fn find_ending(ending: LineEnd, after_return: bool, bytes: &[u8]) -> Option<Ending>
    ensures { (r : List ℕ) → Unended (line_endings ending) r → ends_in_return r ≡ after_return
        → FindsEnding (line_endings ending) r bytes.now result }
{
    let mut at = 0;
    'feeds: while let Some(n) = memchr(b'\n', &bytes[at..]) {
        let place = at + n;
        let after = is_after_return(after_return, bytes, place);
        if let Some(size) = size_at(ending, after) {
            return Some(Ending { place, size });
        }
        at = place + 1;
    }
    None
}

// Whether a carriage return stands right before a place of bytes that come behind open ones, of which the last is one
// or not.
fn is_after_return(after_return: bool, bytes: &[u8], place: usize) -> bool
    requires { place ≤ length bytes.now }
    ensures { (r : List ℕ) → ends_in_return r ≡ after_return → ends_in_return (r ++ take place bytes.now) ≡ result }
{
    if place == 0 {
        return after_return;
    }
    bytes[place - 1] == b'\r'
}

// The size of the ending at a line feed, if a line ends there.
fn size_at(ending: LineEnd, after_return: bool) -> Option<usize>
    ensures { result ≡ size_of_ending ending after_return }
{
    match ending {
        LineEnd::Lf => Some(1),
        LineEnd::Any => Some(if after_return { 2 } else { 1 }),
        LineEnd::Crlf => { if after_return { Some(2) } else { None } }
    }
}
