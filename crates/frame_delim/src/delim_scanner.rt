ghost use Rattle.std.specs.Prelude.{◌≡◌, ℕ, ◌<◌, ◌≤◌, List, length};
ghost use Rattle.frame_delim.specs.Marks.{NoneOver};

use crate::find::find_ending;
use crate::tail::Tail;
use frame_head::{Codec, FaultKind, Marks};
use frame_rule::{Scan, Scanner, scan_at};

/// Finds the delimiters that end frames. Of the bytes that it has seen it keeps those with which a delimiter may begin,
/// 63 at most.
#[derive(Debug, Drop)]
pub struct DelimScanner {
    list: Marks,
    strip: bool,
    max: u64,
    // The longest delimiter's size.
    longest: usize,
    tail: Tail,
}

impl Scanner for DelimScanner {
    ghost use Rattle.std.specs.Prelude.{◌≡◌, None};
    ghost use Rattle.frame_head.specs.declared.codecs.Codec.TheVariants.{Delim};
    ghost use Rattle.frame_head.specs.Codecs.{IsDelim, fault_of};
    ghost use Rattle.frame_delim.specs.Tails.{Saw};

    ghost codec_of = { λ s. Delim s.list s.strip s.max };

    ghost takes = { IsDelim };

    ghost saw = { λ s r. (fault_of (Delim s.list s.strip s.max) ≡ None) × Saw s.list s.longest s.tail r };

    fn new(codec: Codec) -> DelimScanner {
        match codec {
            Codec::Delim { list, strip, max } => {
                let longest = longest_of(&list);
                DelimScanner {
                    list,
                    strip,
                    max,
                    longest,
                    tail: Tail::new(),
                }
            }
            _ => unreachable!(),
        }
    }

    fn scan(&mut self, have: usize, bytes: &[u8]) -> Scan {
        match find_ending(&self.list, self.tail.bytes(), bytes) {
            Some(ending) => {
                self.tail.clear();
                scan_at(self.strip, self.max, have, ending)
            }
            None => {
                self.tail.keep_last(self.longest - 1, bytes);
                if have + bytes.len() < self.max as usize + self.longest {
                    Scan::Open
                } else {
                    Scan::Hopeless
                }
            }
        }
    }

    fn last(&self, have: usize) -> Option<FaultKind> {
        let _ = &self.tail;
        Some(FaultKind::Cut)
    }

    ghost checked = { λ s r seen. seen.0 };
}

// The longest delimiter's size, or 1.
fn longest_of(list: &Marks) -> usize
    ensures most { NoneOver result list.now }
    ensures some { 0 < result }
    ensures few { NoneOver 64 list.now → result ≤ 64 }
{
    let mut longest = 1;
    for i in 0..list.len() {
        longest = longest.max(list.mark(i).bytes().len());
    }
    longest
}
