ghost use Rattle.std.specs.Prelude.{◌≡◌, ◌<◌, ◌≤◌, ◌+◌, ◌^◌, ℕ, List, Option, [], false, None, Some, take, length, IfOk, IfErr, IfSome, MatchResult, OnOk, OnErr};
ghost use Rattle.frame_head.specs.Codecs.{fault_of};
ghost use Rattle.frame_head.specs.Heads.{FramingUnit};
ghost use Rattle.frame_rule.specs.Decoding.{TakesIn, TakesPartly};
ghost use Rattle.frame_reader.specs.Frames.{GivesNext, HasGiven, Stays, Takes, left_of};
ghost use Rattle.frame_reader.specs.declared.filling.Came.TheVariants.{Bytes, End};

use crate::blocks::Blocks;
use crate::filling::{Came, fill};
use any_scanner::AnyDecoder;
use frame_head::laws::stable_units;
use frame_rule::{Codec, CodecFault, Decoder, FrameUnit, Haul, check};
use iobuf_chain::Chain;
use iobuf_node::IoBuf;
use relay_ports::Lent;
use share_count::Mint;
use std::alloc::Global;
use std::io::{ErrorKind, Read};
use std::marker::Model;
use std::mem;
use storage::Returns;
use thiserror::Error;

// Where so many bytes were read, no more are.
const LIMIT: u64 = 1 << 61;

/// Why no further unit comes.
#[derive(Clone, Copy, Debug, PartialEq, Eq, Error)]
pub enum FrameError {
    /// A read failed with an error of this kind.
    #[error("the input can't be read: {0}")]
    Input(ErrorKind),
    /// Memory was refused.
    #[error("memory was refused")]
    NoMemory,
    /// 2^61 bytes were read, and no more are.
    #[error("2^61 bytes were read, and no more are")]
    TooLong,
}

/// How far a reading is.
#[derive(Clone, Copy, Debug, PartialEq, Eq)]
pub enum Phase {
    /// More may come.
    Reading,
    /// It failed.
    Failed(FrameError),
    /// The input is at its end.
    Ended,
}

/// Reads the frames of an input, as tokio-util's `FramedRead` does.
///
/// One read at a time goes straight into a block of 256 bytes to 64 KiB, which its frames share, and what it brought is
/// decoded at once. Between calls the reader keeps the blocks of the open frame, the units of one block, and three
/// blocks to be filled again: one is a block whose frames are dropped before the second block behind it is read.
#[derive(Drop)]
pub struct FrameReader<R: Read + Drop, D: Decoder> {
    input: R,
    decoder: D,
    alloc: Global,
    mint: Mint,
    // The next unit is the last.
    units: Vec<FrameUnit>,
    back: Vec<Returns>,
    blocks: Blocks,
    phase: Phase,
    read: u64,
    given: u64,
}

impl<R: Read + Drop, D: Decoder> Model for FrameReader<R, D> {
    ghost use Rattle.std.specs.Prelude.{◌≡◌, ◌≤◌, ◌+◌, ◌^◌, false, length, reverse};
    ghost use Rattle.frame_reader.specs.Frames.{Counts, FrameReading};
    ghost use Rattle.frame_reader.specs.declared.reader.Phase.TheVariants.{Reading};

    ghost Value = { FrameReading R D };

    ghost view = { λ r. record {
      input = r.input;
      decoder = r.decoder;
      waiting = reverse r.units.items;
      phase = r.phase;
      read = r.read;
      given = r.given;
    } };

    ghost invariant = { λ r. (r.phase ≡ Reading → ((D.state r.decoder).fed ≡ r.read)
        × ((D.state r.decoder).dead ≡ false) × (r.read ≤ 2 ^ 61 + 65536))
        × Counts D.state D.stands r.phase r.decoder (r.given + length r.units.items) };
}

impl<R: Read + Drop> FrameReader<R, AnyDecoder> {
    /// A reader of the frames of an input, of which nothing was read yet, by a codec that `check` passes. It takes no
    /// memory.
    pub fn new(
        alloc: Global,
        input: R,
        codec: Codec,
    ) -> Result<FrameReader<R, AnyDecoder>, CodecFault>
        ensures codec { MatchResult result (λ _. fault_of codec ≡ None) (λ f. fault_of codec ≡ Some f) }
        ensures given { IfOk result (λ r. HasGiven R.remaining ⟦<AnyDecoder as Decoder>⟧.state
            ⟦<AnyDecoder as Decoder>⟧.stands (R.remaining input) codec [] r) }
    {
        check(&codec)?;
        Ok(FrameReader::by(alloc, input, AnyDecoder::new(codec)))
    }
}

impl<R: Read + Drop, D: Decoder> FrameReader<R, D> {
    /// A reader of the frames of an input by a decoder that was fed nothing. It takes no memory.
    pub fn by(alloc: Global, input: R, decoder: D) -> FrameReader<R, D>
        requires fed { D.stands decoder [] }
        ensures given { HasGiven R.remaining D.state D.stands (R.remaining input) (D.state decoder).codec
            [] result }
    {
        FrameReader {
            input,
            decoder,
            alloc,
            mint: Mint::new(),
            units: Vec::new(alloc),
            back: Vec::new(alloc),
            blocks: Blocks::new(),
            phase: Phase::Reading,
            read: 0,
            given: 0,
        }
    }

    /// The next frame or fault, or nothing behind the last.
    ///
    /// After an error, and behind the last unit, each call answers the same and the input isn't read again. The units
    /// of what was read before an error are given first. Each unit leaves fewer that may come, so that a loop over them
    /// ends. O(1) but where a block is read, which is linear in it.
    pub fn next(&mut self) -> Result<Option<FrameUnit>, FrameError>
        ensures next { (s : Option (List ℕ)) (codec : _) (given : List FramingUnit)
            → HasGiven R.remaining D.state D.stands s codec given self.old
            → GivesNext R.remaining D.state D.stands s codec given result self.new }
        ensures onward { IfOk result (λ o. IfSome o (λ _. left_of self.new < left_of self.old)) }
    {
        'blocks: loop {
            if let Some(unit) = self.units.pop() {
                self.given += 1;
                return Ok(Some(unit));
            }
            match self.phase {
                Phase::Reading => self.read_block(),
                Phase::Failed(e) => return Err(e),
                Phase::Ended => return Ok(None),
            }
        }
    }

    /// The input, as it was left.
    pub fn into_input(self) -> R
        ensures { result ≡ self.input }
    {
        self.input
    }

    // Reads a block and takes it in.
    fn read_block(&mut self)
        requires reading { self.old.phase ≡ Phase.Reading }
        requires empty { self.old.waiting ≡ [] }
        ensures given { Stays R.remaining D.state D.stands self.old self.new }
        ensures on { self.new.phase ≡ Phase.Reading → self.old.read < self.new.read }
        ensures count { self.new.given ≡ self.old.given }
    {
        if self.read >= LIMIT {
            self.phase = Phase::Failed(FrameError::TooLong);
            return;
        }
        self.phase = Phase::Failed(FrameError::NoMemory);
        self.blocks.settle(&mut self.back);
        let Ok(mut block) = self.blocks.take(self.alloc) else {
            return;
        };
        let (count, came) = fill(&mut self.input, &mut block);
        self.blocks.filled(count, block.len());
        let mut haul = Haul {
            units: mem::replace(&mut self.units, Vec::new(self.alloc)),
            back: mem::replace(&mut self.back, Vec::new(self.alloc)),
        };
        let next = self.take_in(block, count, came, &mut haul);
        haul.units.reverse();
        self.units = haul.units;
        self.back = haul.back;
        self.read += count as u64;
        self.phase = next;
    }

    // Feeds the first bytes of a block to the decoder, ends the stream where the input ended, and answers how far the
    // reading is then.
    fn take_in(&mut self, block: Vec<u8>, count: usize, came: Came, haul: &mut Haul) -> Phase
        requires within { (count ≤ length block.items) × (count ≤ 65536) }
        requires room { (D.state self.old.decoder).fed < 2 ^ 61 }
        requires alive { (D.state self.old.decoder).dead ≡ false }
        requires paused { self.old.phase ≡ Phase.Reading → ⊥ }
        requires empty { haul.old.units.items ≡ [] }
        ensures found { Takes D.state D.stands self.old.decoder self.new.decoder (take count block.items)
            haul.new.units.items result }
        ensures goes_on { result ≡ Phase.Reading → (came ≡ Bytes)
            × ((D.state self.new.decoder).fed ≡ (D.state self.old.decoder).fed + count)
            × ((D.state self.new.decoder).dead ≡ false) }
        ensures ends { result ≡ Phase.Ended → came ≡ End }
        ensures same { self.new ≡ record self.old { decoder = self.new.decoder } }
    {
        if let Err(e) = self.feed(block, count, haul) {
            return Phase::Failed(e);
        }
        match came {
            Came::Bytes => return Phase::Reading,
            Came::Failed(kind) => return Phase::Failed(FrameError::Input(kind)),
            Came::End => {}
        }
        match self.decoder.end(haul) {
            Ok(()) => Phase::Ended,
            Err(_) => Phase::Failed(FrameError::NoMemory),
        }
    }

    // Feeds the first bytes of a block to the decoder.
    fn feed(&mut self, block: Vec<u8>, count: usize, haul: &mut Haul) -> Result<(), FrameError>
        requires within { (count ≤ length block.items) × (count ≤ 65536) }
        requires room { (D.state self.old.decoder).fed < 2 ^ 61 }
        requires alive { (D.state self.old.decoder).dead ≡ false }
        requires paused { self.old.phase ≡ Phase.Reading → ⊥ }
        requires empty { haul.old.units.items ≡ [] }
        ensures units { OnOk result (TakesIn (D.stands self.old.decoder) (D.stands self.new.decoder)
            (D.state self.old.decoder).codec (take count block.items) [] haul.new.units.items) }
        ensures state { OnOk result (D.state self.new.decoder ≡ record (D.state self.old.decoder) {
          fed = (D.state self.old.decoder).fed + count;
          kept = (D.state self.new.decoder).kept;
        }) }
        ensures part { OnErr result (TakesPartly (D.stands self.old.decoder) (D.state self.old.decoder).codec
            (take count block.items) [] haul.new.units.items) }
        ensures memory { IfErr result (λ e. e ≡ FrameError.NoMemory) }
        ensures same { self.new ≡ record self.old { decoder = self.new.decoder } }
    {
        // For the proof alone: the units of what was read before stay the first.
        stable_units();
        let mut node = node_on(self.alloc, block, count, &mut self.mint)?;
        let share = share_of(&mut node)?;
        self.blocks.hold(share);
        let piece = Chain::of(self.alloc, node);
        match self.decoder.feed(self.alloc, piece, haul, &mut self.mint) {
            Ok(()) => Ok(()),
            Err(_) => Err(FrameError::NoMemory),
        }
    }
}

// A node on a block, whose first bytes are its data.
pub(crate) fn node_on(
    alloc: Global,
    block: Vec<u8>,
    count: usize,
    mint: &mut Mint,
) -> Result<IoBuf<'static>, FrameError>
    requires { count ≤ length block.items }
    ensures bytes { IfOk result (λ node. node.window ≡ take count block.items) }
    ensures memory { IfErr result (λ e. e ≡ FrameError.NoMemory) }
{
    let lent = Lent {
        number: 0,
        bytes: block,
    };
    match IoBuf::from_lent(alloc, lent, count, mint) {
        Ok(node) => Ok(node),
        Err(_) => Err(FrameError::NoMemory),
    }
}

// A share of a node.
pub(crate) fn share_of(node: &mut IoBuf<'static>) -> Result<Option<IoBuf<'static>>, FrameError>
    ensures bytes { node.new.window ≡ node.old.window }
    ensures memory { IfErr result (λ e. e ≡ FrameError.NoMemory) }
{
    match node.share_one() {
        Ok(share) => Ok(share),
        Err(_) => Err(FrameError::NoMemory),
    }
}
