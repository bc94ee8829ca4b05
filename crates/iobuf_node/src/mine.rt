//! Windows on blocks.
ghost use Rattle.std.specs.Prelude.{◌≡◌, ◌+◌, ◌-◌, ◌≤◌, ◌<◌, ◌^◌, List, [], ◌∷◌, length, take};
ghost use Rattle.buffer_model.specs.Share.{IsAlone};
ghost use Rattle.buffer_model.specs.Segment.{advanced, retreated, block_of};
ghost use Rattle.buffer_model.specs.Stake.{held, KeepsTotals};
ghost use Rattle.iobuf_node.specs.Mine.{seen, size};

use storage::{Managed, NoOwner, Told};

/// The window of a node, as `IoBuf::mine` lends it where nobody else holds the storage: until the node is shared, its
/// bytes may be written. Contracts see it by `seen`: its three lists, and what the node has of the storage.
#[derive(Drop)]
pub struct Mine<O: Told = NoOwner> {
    pub(crate) hold: Managed<O>,
    pub(crate) start: usize,
    pub(crate) len: usize,
}

impl<O: Told> Mine<O> {
    ghost use Rattle.std.specs.Borrow.{sem};
    ghost use Rattle.iobuf_node.specs.MineLends.{lends_window, lends_tail};

    // How many bytes lie before the window.
    pub(crate) fn head(&self) -> usize
        ensures value { result ≡ length (seen self.now).before }
        ensures fits { size (seen self.now) < 2 ^ 64 }
    {
        self.start.min(self.hold.bytes().len())
    }

    // How many bytes the window has.
    pub(crate) fn length(&self) -> usize
        ensures { result ≡ length (seen self.now).window }
    {
        let rest = self.hold.bytes().len() - self.head();
        self.len.min(rest)
    }

    // How many bytes lie after it.
    pub(crate) fn tail(&self) -> usize
        ensures { result ≡ length (seen self.now).after }
    {
        self.hold.bytes().len() - self.head() - self.length()
    }

    /// The data, for writing. Where as many bytes are written, the window has these and both rooms stay
    /// (`laws::writes_window`). Takes no look.
    pub fn bytes_mut(&mut self) -> &mut [u8]
        requires { IsAlone (seen self.old).share }
        ensures* lends { sem 𝓛 (lends_window O.row self.entry result) }
        ensures value { result.now ≡ (seen self.old).window }
    {
        let start = self.head();
        let len = self.length();
        self.start = start;
        self.len = len;
        self.hold.span_mut(start, start + len)
    }

    /// The first `n` bytes of the room after the data, for writing. Where as many bytes are written, they stand there,
    /// and all else stays (`laws::writes_tail`). Takes no look. O(1), and no memory.
    pub fn tail_mut(&mut self, n: usize) -> &mut [u8]
        requires alone { IsAlone (seen self.old).share }
        requires room { n ≤ length (seen self.old).after }
        ensures* lends { sem 𝓛 (lends_tail O.row self.entry result) }
        ensures value { result.now ≡ take n (seen self.old).after }
    {
        let start = self.head();
        let len = self.length();
        let _tail = self.tail();
        self.start = start;
        self.len = len;
        self.hold.span_mut(start + len, start + len + n)
    }

    /// Copies the data `n` places on, and follows it. Takes no look. One overlapping copy in the block, O(data), and
    /// no memory.
    pub fn advance(&mut self, n: usize)
        requires alone { IsAlone (seen self.old).share }
        requires room { n ≤ length (seen self.old).after }
        ensures window { seen self.new ≡ advanced n (seen self.old) }
        ensures totals { KeepsTotals (held (seen self.old).share ∷ []) (held (seen self.new).share ∷ []) }
    {
        let start = self.head();
        let len = self.length();
        let _tail = self.tail();
        self.hold.copy_within(start, start + n, len);
        self.start = start + n;
        self.len = len;
    }

    /// Copies the data `n` places back, and follows it. Takes no look. One overlapping copy in the block, O(data),
    /// and no memory.
    pub fn retreat(&mut self, n: usize)
        requires alone { IsAlone (seen self.old).share }
        requires room { n ≤ length (seen self.old).before }
        ensures window { seen self.new ≡ retreated n (seen self.old) }
        ensures totals { KeepsTotals (held (seen self.old).share ∷ []) (held (seen self.new).share ∷ []) }
    {
        let start = self.head();
        let len = self.length();
        let _tail = self.tail();
        self.hold.copy_within(start, start - n, len);
        self.start = start - n;
        self.len = len;
    }
}
