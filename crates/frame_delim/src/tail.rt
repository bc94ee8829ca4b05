ghost use Rattle.std.specs.Prelude.{◌≡◌, ◌+◌, ◌≤◌, [], ◌++◌, length, take};
ghost use Rattle.frame_delim.specs.Tails.{last_bytes};

use std::marker::Model;

pub(crate) const MOST: usize = 63;

/// The last bytes that were seen, 63 at most. Contracts see them as a list.
#[derive(Debug, Drop)]
pub(crate) struct Tail {
    room: [u8; MOST],
    len: usize,
}

impl Model for Tail {
    ghost use Rattle.std.specs.Prelude.{ℕ, ◌≤◌, List, take};

    ghost Value = { List ℕ };

    ghost view = { λ t. take t.len t.room };

    ghost invariant = { λ t. t.len ≤ 63 };
}

impl Tail {
    pub(crate) fn new() -> Tail
        ensures { result ≡ [] }
    {
        Tail {
            room: [0; MOST],
            len: 0,
        }
    }

    // Forgets them.
    pub(crate) fn clear(&mut self)
        ensures { self.new ≡ [] }
    {
        self.len = 0;
    }

    pub(crate) fn bytes(&self) -> &[u8]
        ensures { result.now ≡ self.now }
    {
        &self.room[..self.len]
    }

    // Keeps the last `most` of its bytes and those that come behind them.
    pub(crate) fn keep_last(&mut self, most: usize, bytes: &[u8])
        requires { most ≤ 63 }
        ensures { self.new ≡ last_bytes most (self.old ++ bytes.now) }
    {
        let fresh = bytes.len().min(most);
        let kept = self.len.min(most - fresh);
        let mut room = [0; MOST];
        write_at(&mut room, 0, &self.room[self.len - kept..self.len]);
        write_at(&mut room, kept, &bytes[bytes.len() - fresh..]);
        self.room = room;
        self.len = kept + fresh;
    }
}

fn write_at(room: &mut [u8], at: usize, part: &[u8])
    requires { at + length part.now ≤ length room.old }
    ensures { take (at + length part.now) room.new ≡ take at room.old ++ part.now }
{
    for i in 0..part.len() {
        room[at + i] = part[i];
    }
}
