//! Bytes that are copied, and runs of bytes that are passed.
ghost use Rattle.std.specs.Prelude.{◌≡◌, ◌+◌, ◌-◌, ◌≤◌, ◌<◌, ◌++◌, List, OnOk, OnErr, length, take, drop, min};
ghost use Rattle.read_cursor.specs.Reading.{Reading, rest_of, moved};
ghost use Rattle.read_cursor.specs.Shorts.{IsShort};
ghost use Rattle.read_cursor.specs.Finds.{among, run_among};

use crate::cursor::{Cursor, Short};
use iobuf_node::Wrapped;
use storage::Told;

impl<'c, W: Wrapped, O: Told> Cursor<'c, W, O> {
    /// Copies the next bytes, as many as there is room for. `Short` exactly where fewer are left; nothing is copied
    /// then. `Buf::try_copy_to_slice`, Folly's `pull`.
    pub fn pull(&mut self, into: &mut [u8]) -> Result<(), Short>
        ensures short { IsShort (length into.old) (length (rest_of self.old)) result }
        ensures bytes { OnOk result (into.new ≡ take (length into.old) (rest_of self.old)) }
        ensures place { OnOk result (self.new ≡ moved (length into.old) self.old) }
        ensures refused { OnErr result ((into.new ≡ into.old) × (self.new ≡ self.old)) }
    {
        let had = self.left();
        if had < into.len() {
            return Err(Short {
                asked: into.len(),
                had,
            });
        }
        self.fill(into);
        Ok(())
    }

    /// Copies the next bytes, as many as there is room for, or all that are left where these are fewer, and answers
    /// how many. What follows them in `into` stays. Folly's `pullAtMost`.
    pub fn pull_at_most(&mut self, into: &mut [u8]) -> usize
        ensures count { result ≡ min (length into.old) (length (rest_of self.old)) }
        ensures bytes { into.new ≡ take result (rest_of self.old) ++ drop result into.old }
        ensures place { self.new ≡ moved result self.old }
    {
        let n = self.left().min(into.len());
        self.fill(&mut into[..n]);
        n
    }

    /// Passes the longest run of bytes that are all in `set`, and answers how many they are. O(bytes of the run,
    /// times those of the set). Folly's `skipWhile`.
    pub fn skip_while(&mut self, set: &[u8]) -> usize
        ensures count { result ≡ run_among set.now (rest_of self.old) }
        ensures place { self.new ≡ moved result self.old }
    {
        let _all = self.left();
        let mut passed = 0;
        'nodes: while self.left() > 0 {
            let part = self.ahead();
            let n = run_of(part, set);
            self.advance(n);
            passed += n;
            if n < part.len() {
                return passed;
            }
        }
        passed
    }

    // Copies the next bytes, which are all there.
    fn fill(&mut self, into: &mut [u8])
        requires { length into.old ≤ length (rest_of self.old) }
        ensures bytes { into.new ≡ take (length into.old) (rest_of self.old) }
        ensures place { self.new ≡ moved (length into.old) self.old }
    {
        let mut done = 0;
        'parts: while done < into.len() {
            let part = self.ahead();
            let n = part.len().min(into.len() - done);
            put(into, done, &part[..n]);
            self.advance(n);
            done += n;
        }
    }
}

// Writes bytes at a place.
fn put(block: &mut [u8], at: usize, bytes: &[u8])
    requires { at + length bytes.now ≤ length block.old }
    ensures size { length block.new ≡ length block.old }
    ensures written { take (at + length bytes.now) block.new ≡ take at block.old ++ bytes.now }
{
    block[at..at + bytes.len()].copy_from_slice(bytes);
}

// How many first bytes are all in a set.
fn run_of(bytes: &[u8], set: &[u8]) -> usize
    ensures count { result ≡ run_among set.now bytes.now }
    ensures within { result ≤ length bytes.now }
{
    'bytes: for i in 0..bytes.len() {
        if !set.contains(&bytes[i]) {
            return i;
        }
    }
    bytes.len()
}
