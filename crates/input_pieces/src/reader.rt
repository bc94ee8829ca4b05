ghost use Rattle.std.specs.Prelude.{◌≡◌, ◌+◌, ◌≤◌, ◌<◌, ◌^◌, [], ◌∷◌, None, Err, length, take, IfOk, IfErr, IfSome, OnOk};
ghost use Rattle.std.specs.Prelude.{MatchResult};
ghost use Rattle.buffer_model.specs.Share.{IsAlone, claimed, lent, own};
ghost use Rattle.buffer_model.specs.Segment.{rewritten, shared_as};
ghost use Rattle.buffer_model.specs.Minted.{Adds, AddsAtMost, IsNew};
ghost use Rattle.buffer_model.specs.Stake.{held, KeepsTotals, KeepsTotalsBeside};
ghost use Rattle.input_pieces.specs.Pieces.{HandsBack, HasRead, IsInFront, IsSameBlock, ReadsNone, ReadsPiece, Stops};
ghost use Rattle.input_pieces.specs.Pieces.{asked, new_reading, stop_behind};

use buffered_io::{Filled, Stop, fill, probe};
use iobuf_node::IoBuf;
use iobuf_node::laws::writes_window;
use relay_ports::{Lent, Source};
use share_count::Mint;
use std::alloc::Global;
use std::marker::Model;
use storage::NoOwner;

/// Why there is no further piece.
#[derive(Clone, Copy, Debug, PartialEq, Eq)]
pub enum NoPiece {
    /// The reading is over.
    Stopped(Stop),
    /// Memory was refused.
    NoMemory,
}

/// Reads an input in pieces, each straight into the block of a new node.
///
/// A piece is a block that repeated reads filled to its size, but for the last. Reading ends at the input's end, at its
/// first failure, or at the limit, where one byte is asked for to see whether more is there. After that the input isn't
/// called again. Bytes that came before the end or a failure are the last piece; a block in which no byte came is none.
#[derive(Drop)]
pub struct PieceReader<S: Source> {
    input: S,
    block: usize,
    limit: u64,
    read: u64,
    pieces: u64,
    stop: Option<Stop>,
}

impl<S: Source> Model for PieceReader<S> {
    ghost use Rattle.std.specs.Prelude.{◌≤◌, ◌^◌};
    ghost use Rattle.input_pieces.specs.Pieces.{Reading};

    ghost Value = { Reading S };

    ghost view = { λ r. record {
      input = r.input;
      block = r.block;
      limit = r.limit;
      read = r.read;
      pieces = r.pieces;
      stop = r.stop;
    } };

    ghost invariant = { λ r. (1 ≤ r.block) × (r.block ≤ 1048576) × (r.limit ≤ 2 ^ 40)
        × (r.read ≤ r.limit) × (r.pieces ≤ r.read) };
}

impl<S: Source> PieceReader<S> {
    /// A reader of pieces of `block` bytes, and of at most `limit` bytes in all. It takes no memory.
    pub fn new(input: S, block: usize, limit: u64) -> PieceReader<S>
        requires block { (1 ≤ block) × (block ≤ 1048576) }
        requires limit { limit ≤ 2 ^ 40 }
        ensures reading { result ≡ new_reading input block limit }
        ensures read { HasRead S.state block limit (S.state input) [] result }
    {
        PieceReader {
            input,
            block,
            limit,
            read: 0,
            pieces: 0,
            stop: None,
        }
    }

    /// How many bytes a piece has, but for the last: the size of a lent block.
    pub fn block(&self) -> usize
        ensures { result ≡ self.now.block }
    {
        self.block
    }

    /// How many bytes were read, without the one that was asked for at the limit.
    pub fn read(&self) -> u64
        ensures { result ≡ self.now.read }
    {
        self.read
    }

    /// How many pieces were read.
    pub fn pieces(&self) -> u64
        ensures { result ≡ self.now.pieces }
    {
        self.pieces
    }

    /// The input, as it was left.
    pub fn into_input(self) -> S
        ensures { result ≡ self.input }
    {
        self.input
    }

    /// Reads the next piece into a block of its own, of just as many bytes as the piece may have.
    ///
    /// Where memory is refused nothing is read. Once the reading is over each call says why, and changes nothing. It
    /// takes one block, three allocations for its count, and copies no byte.
    pub fn next(&mut self, alloc: Global, mint: &mut Mint) -> Result<IoBuf<'static>, NoPiece>
        ensures piece { IfOk result (λ node. ReadsPiece S.state node.window self.old self.new) }
        ensures room { IfOk result (λ node. IsInFront (asked self.old) node) }
        ensures none { IfErr result (λ e. ReadsNone S.state e self.old self.new) }
        ensures over { IfSome self.old.stop (λ stop. (result ≡ Err (NoPiece.Stopped stop)) × (self.new ≡ self.old)) }
        ensures storage { IfOk result (λ node. IsNew mint.old mint.new own node.share) }
        ensures mint { MatchResult result (λ _. Adds 1 mint.old mint.new) (λ _. AddsAtMost 1 mint.old mint.new) }
        ensures totals { IfOk result (λ node. KeepsTotalsBeside mint.old mint.new [] (held node.share ∷ [])) }
    {
        let size = match self.ask() {
            Ok(size) => size,
            Err(stop) => return Err(NoPiece::Stopped(stop)),
        };
        let Ok(mut node) = IoBuf::create(alloc, size, mint) else {
            return Err(NoPiece::NoMemory);
        };
        node.append(size);
        match self.fill_node(&mut node) {
            Ok(count) => {
                node.trim_end(size - count);
                Ok(node)
            }
            Err(stop) => Err(NoPiece::Stopped(stop)),
        }
    }

    /// Reads the next piece into a lent block, which has as many bytes as a piece.
    ///
    /// Where no byte came the block is handed back with the reason. Where memory is refused it is handed back with the
    /// piece in it, which was read then, and counted. It takes three allocations, and copies no byte.
    pub fn next_lent(
        &mut self,
        alloc: Global,
        mut block: Lent,
        mint: &mut Mint,
    ) -> Result<IoBuf<'static>, (Lent, NoPiece)>
        requires { length block.bytes.items ≡ self.old.block }
        ensures piece { IfOk result (λ node. ReadsPiece S.state node.window self.old self.new) }
        ensures room { IfOk result (λ node. IsInFront self.old.block node) }
        ensures none { IfErr result (λ e. HandsBack S.state e.1 e.0.bytes.items self.old self.new) }
        ensures back { IfErr result (λ e. IsSameBlock block e.0) }
        ensures over { IfSome self.old.stop
            (λ stop. (result ≡ Err (block, NoPiece.Stopped stop)) × (self.new ≡ self.old)) }
        ensures storage { IfOk result (λ node. IsNew mint.old mint.new (lent block.number) node.share) }
        ensures mint { MatchResult result (λ _. Adds 1 mint.old mint.new) (λ _. mint.new ≡ mint.old) }
        ensures totals { IfOk result (λ node. KeepsTotalsBeside mint.old mint.new [] (held node.share ∷ [])) }
    {
        let size = match self.ask() {
            Ok(size) => size,
            Err(stop) => return Err((block, NoPiece::Stopped(stop))),
        };
        let count = match self.fill_front(&mut block.bytes, size) {
            Ok(count) => count,
            Err(stop) => return Err((block, NoPiece::Stopped(stop))),
        };
        match IoBuf::from_lent(alloc, block, count, mint) {
            Ok(node) => Ok(node),
            Err(block) => Err((block, NoPiece::NoMemory)),
        }
    }

    // How many bytes the next piece may have, or why there is none. At the limit it looks whether more is there.
    fn ask(&mut self) -> Result<usize, Stop>
        ensures size { IfOk result (λ n. (n ≡ asked self.old) × (0 < n)) }
        ensures going { OnOk result ((self.new ≡ self.old) × (self.old.stop ≡ None)) }
        ensures stops { IfErr result (λ stop. Stops S.state stop self.old self.new) }
        ensures over { IfSome self.old.stop (λ stop. (result ≡ Err stop) × (self.new ≡ self.old)) }
    {
        if let Some(stop) = self.stop {
            return Err(stop);
        }
        if self.read < self.limit {
            return Ok((self.limit - self.read).min(self.block as u64) as usize);
        }
        let stop = probe(&mut self.input);
        self.stop = Some(stop);
        Err(stop)
    }

    // Fills the data of a node with the next piece, and answers how many bytes came, or why none did.
    fn fill_node(&mut self, node: &mut IoBuf<'static>) -> Result<usize, Stop>
        requires alone { IsAlone node.old.share }
        requires size { (length node.old.window ≡ asked self.old) × (0 < length node.old.window) }
        requires going { self.old.stop ≡ None }
        ensures piece { IfOk result (λ n. ReadsPiece S.state (take n node.new.window) self.old self.new) }
        ensures none { IfErr result (λ stop. Stops S.state stop self.old self.new) }
        ensures within { IfOk result (λ n. n ≤ length node.old.window) }
        ensures node { node.new ≡ rewritten node.new.window (shared_as (claimed node.old.share) node.old) }
        ensures size { length node.new.window ≡ length node.old.window }
        ensures totals { KeepsTotals (held node.old.share ∷ []) (held node.new.share ∷ []) }
    {
        // For the proof alone: where as many bytes are written, the rooms stay.
        writes_window::<NoOwner>();
        match node.mine() {
            Ok(mine) => self.fill_slice(mine.bytes_mut()),
            Err(_) => unreachable!(),
        }
    }

    // Fills the first bytes of a block with the next piece, and answers how many bytes came, or why none did.
    fn fill_front(&mut self, block: &mut [u8], size: usize) -> Result<usize, Stop>
        requires size { (size ≡ asked self.old) × (0 < size) }
        requires within { size ≤ length block.old }
        requires going { self.old.stop ≡ None }
        ensures piece { IfOk result (λ n. ReadsPiece S.state (take n block.new) self.old self.new) }
        ensures none { IfErr result (λ stop. Stops S.state stop self.old self.new) }
        ensures within { IfOk result (λ n. n ≤ size) }
    {
        self.fill_slice(&mut block[..size])
    }

    // Fills a slice with the next piece, and answers how many bytes came, or why none did.
    fn fill_slice(&mut self, into: &mut [u8]) -> Result<usize, Stop>
        requires size { (length into.old ≡ asked self.old) × (0 < length into.old) }
        requires going { self.old.stop ≡ None }
        ensures piece { IfOk result (λ n. ReadsPiece S.state (take n into.new) self.old self.new) }
        ensures none { IfErr result (λ stop. Stops S.state stop self.old self.new) }
        ensures within { IfOk result (λ n. n ≤ length into.old) }
    {
        let (count, filled) = fill(&mut self.input, into);
        self.stop = stop_of(filled);
        match self.stop {
            Some(stop) if count == 0 => Err(stop),
            _ => {
                self.read += count as u64;
                self.pieces += 1;
                Ok(count)
            }
        }
    }
}

// Why no more is read behind a block that was filled so.
fn stop_of(filled: Filled) -> Option<Stop>
    ensures { result ≡ stop_behind filled }
{
    match filled {
        Filled::Full => None,
        Filled::Ended => Some(Stop::End),
        Filled::Broken => Some(Stop::Failure),
    }
}
