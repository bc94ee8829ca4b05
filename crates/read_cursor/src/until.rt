//! Bytes up to a byte that is looked for.
ghost use Rattle.std.specs.Prelude.{◌≡◌, ◌+◌, ◌-◌, ◌≤◌, ◌<◌, ◌++◌, List, OnOk, OnErr, length, take, drop, min};
ghost use Rattle.read_cursor.specs.Reading.{Reading, rest_of, moved};
ghost use Rattle.read_cursor.specs.Finds.{before_byte, IsMissing};

use crate::cursor::Cursor;
use iobuf_node::Wrapped;
use std::alloc::AllocError;
use storage::Told;
use thiserror::Error;

/// Why the bytes up to another aren't read. The place stays.
#[derive(Clone, Copy, Debug, PartialEq, Eq, Drop, Error)]
pub enum FindFault {
    /// The byte isn't among the next that were looked at.
    #[error("the byte isn't among the next {looked}")]
    NoByte { looked: usize },
    /// Memory is refused.
    #[error("no memory")]
    NoMemory,
}

impl<'c, W: Wrapped, O: Told> Cursor<'c, W, O> {
    /// Adds the bytes before the first `byte` to `into`, and passes them and it. `NoByte` exactly where it isn't
    /// among the next `max` bytes, or among those that are left where these are fewer. A refusal leaves `into` as it
    /// was. One copy of the bytes. Folly's `readTerminatedString`.
    pub fn read_until(&mut self, byte: u8, max: usize, into: &mut Vec<u8>) -> Result<(), FindFault>
        ensures missing { IsMissing byte (take max (rest_of self.old)) result }
        ensures bytes { OnOk result (into.new.items
            ≡ into.old.items ++ take (before_byte byte (take max (rest_of self.old))) (rest_of self.old)) }
        ensures place { OnOk result (self.new ≡ moved (before_byte byte (take max (rest_of self.old)) + 1) self.old) }
        ensures refused { OnErr result ((into.new.items ≡ into.old.items) × (self.new ≡ self.old)) }
    {
        let looked = max.min(self.left());
        let n = self.here().run_until(byte, looked);
        if n == looked {
            return Err(FindFault::NoByte { looked });
        }
        let had = into.len();
        if self.here().add_to(into, n).is_err() {
            into.truncate(had);
            return Err(FindFault::NoMemory);
        }
        self.advance(n + 1);
        Ok(())
    }

    // How many of the next n bytes stand before the first `byte`: all where none is it.
    fn run_until(&mut self, byte: u8, n: usize) -> usize
        requires { n ≤ length (rest_of self.old) }
        ensures count { result ≡ before_byte byte (take n (rest_of self.old)) }
        ensures within { result ≤ n }
    {
        let mut passed = 0;
        'nodes: while passed < n {
            let part = self.ahead();
            let few = part.len().min(n - passed);
            let k = run_before(&part[..few], byte);
            if k < few {
                return passed + k;
            }
            self.advance(few);
            passed += few;
        }
        n
    }

    // Adds copies of the next n bytes.
    fn add_to(&mut self, into: &mut Vec<u8>, n: usize) -> Result<(), AllocError>
        requires { n ≤ length (rest_of self.old) }
        ensures kept { take (length into.old.items) into.new.items ≡ into.old.items }
        ensures bytes { OnOk result (into.new.items ≡ into.old.items ++ take n (rest_of self.old)) }
    {
        let mut done = 0;
        'nodes: while done < n {
            let part = self.ahead();
            let few = part.len().min(n - done);
            into.extend_from_slice(&part[..few])?;
            self.advance(few);
            done += few;
        }
        Ok(())
    }
}

// How many bytes stand before the first `byte`: all where none is it.
fn run_before(bytes: &[u8], byte: u8) -> usize
    ensures count { result ≡ before_byte byte bytes.now }
    ensures within { result ≤ length bytes.now }
{
    'bytes: for i in 0..bytes.len() {
        if bytes[i] == byte {
            return i;
        }
    }
    bytes.len()
}
