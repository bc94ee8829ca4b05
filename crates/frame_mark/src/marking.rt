//! How far a stream was scanned, and the marks of the units that were found.
ghost use Rattle.std.specs.Prelude.{◌≡◌, ℕ, ◌+◌, ◌-◌, ◌≤◌, ◌<◌, ◌^◌, List, drop, min, length};
ghost use Rattle.buffer_model.specs.Segment.{bytes_of};
ghost use Rattle.std.specs.Vec.{vec_capacity};
ghost use Rattle.frame_mark.specs.Marking.{LiesIn, Marks, MarksUp, StandsIn, open_size};

use crate::mark::Mark;
use frame_rule::{Scan, Scanner};
use iobuf_chain::Frame;

/// How far a stream was scanned: its scanner, how many bytes were taken, how many of them are an open unit, whether
/// these are lost since no frame can come of them, and how many of the next bytes are skipped.
#[derive(Drop)]
pub(crate) struct Marking<S: Scanner> {
    pub(crate) scanner: S,
    pub(crate) fed: u64,
    pub(crate) unread: u64,
    pub(crate) lost: bool,
    pub(crate) skip: u128,
}

impl<S: Scanner> Marking<S> {
    // Marks the units that end in the nodes of a chain from node `first` on, up to `most` marks in all. Answers how
    // many of their bytes were taken.
    pub(crate) fn mark_chain(
        &mut self,
        chain: &Frame,
        first: usize,
        marks: &mut Vec<Mark>,
        most: usize,
    ) -> usize
        requires there { first ≤ length chain.now }
        requires room { most ≤ vec_capacity marks.old }
        requires count { length marks.old.items ≤ most }
        requires size { self.old.fed + length (bytes_of (drop first chain.now)) < 2 ^ 62 }
        requires stands { StandsIn S.codec_of S.saw self.old (bytes_of (drop first chain.now)) }
        ensures marks { MarksUp S.codec_of S.saw self.old self.new (bytes_of (drop first chain.now)) result
            marks.old.items marks.new.items }
        ensures within { result ≤ length (bytes_of (drop first chain.now)) }
        ensures fed { self.new.fed ≡ self.old.fed + result }
        ensures stops { result < length (bytes_of (drop first chain.now)) → length marks.new.items ≡ most }
        ensures closed { length marks.old.items < length marks.new.items → length marks.new.items ≡ most
            → self.new.unread ≡ 0 }
        ensures most { length marks.new.items ≤ most }
        ensures room { vec_capacity marks.new ≡ vec_capacity marks.old }
    {
        let mut i = first;
        let mut n = 0;
        'nodes: while i < chain.elements() && marks.len() < most {
            n += self.mark_bytes(chain.node(i).bytes(), marks, most);
            i += 1;
        }
        n
    }

    // Marks the units that end in these bytes, up to `most` marks in all. Answers how many of the bytes were taken.
    fn mark_bytes(&mut self, bytes: &[u8], marks: &mut Vec<Mark>, most: usize) -> usize
        requires room { most ≤ vec_capacity marks.old }
        requires count { length marks.old.items ≤ most }
        requires size { self.old.fed + length bytes.now < 2 ^ 62 }
        requires stands { StandsIn S.codec_of S.saw self.old bytes.now }
        ensures marks { MarksUp S.codec_of S.saw self.old self.new bytes.now result marks.old.items marks.new.items }
        ensures within { result ≤ length bytes.now }
        ensures fed { self.new.fed ≡ self.old.fed + result }
        ensures stops { result < length bytes.now → length marks.new.items ≡ most }
        ensures closed { length marks.old.items < length marks.new.items → length marks.new.items ≡ most
            → self.new.unread ≡ 0 }
        ensures most { length marks.new.items ≤ most }
        ensures room { vec_capacity marks.new ≡ vec_capacity marks.old }
    {
        let mut n = 0;
        'units: while n < bytes.len() && marks.len() < most {
            n += self.mark_next(&bytes[n..], marks);
        }
        n
    }

    // Takes the first of these bytes: those of a unit up to its end, or all.
    fn mark_next(&mut self, bytes: &[u8], marks: &mut Vec<Mark>) -> usize
        requires some { 0 < length bytes.now }
        requires room { length marks.old.items < vec_capacity marks.old }
        requires size { self.old.fed + length bytes.now < 2 ^ 62 }
        requires stands { StandsIn S.codec_of S.saw self.old bytes.now }
        ensures marks { MarksUp S.codec_of S.saw self.old self.new bytes.now result marks.old.items marks.new.items }
        ensures some { 0 < result }
        ensures within { result ≤ length bytes.now }
        ensures fed { self.new.fed ≡ self.old.fed + result }
        ensures closed { length marks.old.items < length marks.new.items → self.new.unread ≡ 0 }
        ensures one { length marks.new.items ≤ length marks.old.items + 1 }
        ensures room { vec_capacity marks.new ≡ vec_capacity marks.old }
    {
        let len = bytes.len();
        if self.skip > 0 {
            let k = least(self.skip, len);
            self.fed += k as u64;
            self.skip -= k as u128;
            return k;
        }
        match self.scanner.scan(self.unread as usize, bytes) {
            Scan::Open => {
                self.unread += len as u64;
                self.fed += len as u64;
                len
            }
            Scan::Hopeless => {
                self.unread += len as u64;
                self.fed += len as u64;
                self.lost = true;
                len
            }
            Scan::Frame { used, front, back } => {
                let at = self.fed - self.unread;
                let end = self.fed + used as u64;
                marks.push_reserved(Mark::Frame {
                    at,
                    from: at + front as u64,
                    to: end - back as u64,
                });
                self.fed = end;
                self.unread = 0;
                used
            }
            Scan::Fault { kind, used, over } => {
                let at = self.fed - self.unread;
                marks.push_reserved(Mark::Fault { at, kind });
                self.fed += used as u64;
                self.unread = 0;
                self.lost = false;
                self.skip = over;
                used
            }
        }
    }

    // How many bytes of the open unit are kept.
    pub(crate) fn open_size(&self) -> u64
        ensures { result ≡ open_size self.now }
    {
        if self.lost { 0 } else { self.unread }
    }
}

fn least(a: u128, b: usize) -> usize
    ensures { result ≡ min a b }
{
    if a < b as u128 { a as usize } else { b }
}
