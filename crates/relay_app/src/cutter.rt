ghost use Rattle.std.specs.Prelude.{◌≡◌, ◌+◌, ◌≤◌, ◌<◌, ◌^◌, [], ◌∷◌, ◌++◌, None, length, IfOk, IfErr, OnOk, OnErr};
ghost use Rattle.iobuf_chain.specs.Copies.{IsHeavy, WithData};
ghost use Rattle.frame_rule.specs.Decoding.{TakesIn};
ghost use Rattle.frame_rule.specs.Hauls.{SharesData};
ghost use Rattle.frame_rule.specs.Units.{units_of};
ghost use Rattle.relay_ports.specs.States.{SinkState};
ghost use Rattle.input_pieces.specs.Pieces.{ReadsNone, ReadsPiece};
ghost use Rattle.relay_app.specs.Cutting.{ClosesCut, Cuts, CutsEnd, HasCut, TakesUnits};

use crate::status::Status;
use crate::stream_fault::{StreamFault, note};
use crate::unit_lines::{print_end, print_unit};
use buffered_io::Printer;
use frame_rule::{Decoder, FrameUnit, Haul};
use input_pieces::{IoBuf, Mint, NoPiece, PieceReader, Stop};
use iobuf_chain::Chain;
use relay_ports::{Sink, Source};
use std::alloc::{AllocError, Global};
use std::marker::Model;
use std::mem;

/// A stream that is cut into frames, of which each is printed. It notes the first fault, and how many bytes were cut.
#[derive(Drop)]
pub(crate) struct Cutter<D: Decoder> {
    decoder: D,
    printer: Printer,
    // What the last piece made whole and handed back. It is let go once the next piece is there: with the small pieces
    // of memory still taken, the allocator has none to put together when it is asked for a block.
    haul: Haul,
    mint: Mint,
    fault: Option<StreamFault>,
    read: u64,
}

impl<D: Decoder> Model for Cutter<D> {
    ghost use Rattle.std.specs.Prelude.{◌+◌, length};
    ghost use Rattle.relay_app.specs.Cutting.{Cutting};

    ghost Value = { Cutting D };

    ghost view = { λ c. record {
      decoder = c.decoder;
      waiting = c.printer;
      fault = c.fault;
      read = c.read;
      held = length c.haul.units.items + length c.haul.back.items;
    } };
}

impl<D: Decoder> Cutter<D> {
    /// A cutter that was given nothing, by the codec of a decoder that was fed nothing.
    pub(crate) fn new(alloc: Global, decoder: D) -> Result<Cutter<D>, AllocError>
        requires { D.stands decoder [] }
        ensures cut { IfOk result (λ c. (w : SinkState) → HasCut D.state D.stands (D.state decoder).codec w [] c w) }
        ensures decoder { IfOk result (λ c. c.decoder ≡ decoder) }
    {
        Ok(Cutter {
            decoder,
            printer: Printer::new(alloc)?,
            haul: Haul::new(alloc),
            mint: Mint::new(),
            fault: None,
            read: 0,
        })
    }

    /// How many bytes were cut.
    pub(crate) fn read(&self) -> u64
        ensures { result ≡ self.now.read }
    {
        self.read
    }

    /// Reads the next piece straight into a new node, and then lets go of all that the piece before it left.
    pub(crate) fn next_piece<S: Source>(
        &mut self,
        alloc: Global,
        reader: &mut PieceReader<S>,
    ) -> Result<IoBuf<'static>, NoPiece>
        requires { reader.old.block ≤ 1048576 }
        ensures piece { IfOk result (λ node. ReadsPiece S.state node.window reader.old reader.new) }
        ensures none { IfErr result (λ e. ReadsNone S.state e reader.old reader.new) }
        ensures heavy { IfOk result (λ node. IsHeavy node) }
        ensures let_go { self.new ≡ record self.old { held = 0 } }
    {
        let piece = reader.next(alloc, &mut self.mint);
        empty(&mut self.haul);
        piece
    }

    /// Cuts the next block, and prints what it completes. No byte of a frame is copied but into the report.
    pub(crate) fn cut<W: Sink>(
        &mut self,
        alloc: Global,
        report: &mut W,
        block: IoBuf<'static>,
    ) -> Result<(), AllocError>
        requires fed { (D.state self.old.decoder).fed + length block.window < 2 ^ 62 }
        requires read { self.old.read + length block.window < 2 ^ 62 }
        requires heavy { IsHeavy block }
        requires kept { WithData IsHeavy (D.state self.old.decoder).kept }
        ensures cut { OnOk result (Cuts D.state D.stands block.entry.window
            self.old (W.state report.old) self.new (W.state report.new)) }
        ensures kept { OnOk result (WithData IsHeavy (D.state self.new.decoder).kept) }
        ensures unprinted { OnErr result (report.new ≡ report.old) }
    {
        let count = block.length() as u64;
        let haul = self.feed(alloc, block)?;
        self.take_units(report, &haul.units);
        self.read += count;
        self.haul = haul;
        Ok(())
    }

    // Feeds a block to the decoder, and answers what came of it. The frames are made of the nodes that were read.
    fn feed(&mut self, alloc: Global, block: IoBuf<'static>) -> Result<Haul, AllocError>
        requires fed { (D.state self.old.decoder).fed + length block.window < 2 ^ 62 }
        requires heavy { IsHeavy block }
        requires kept { WithData IsHeavy (D.state self.old.decoder).kept }
        ensures units { IfOk result (λ haul. TakesIn (D.stands self.old.decoder) (D.stands self.new.decoder)
            (D.state self.old.decoder).codec block.entry.window [] haul.units.items) }
        ensures copies { IfOk result (λ haul. SharesData ((D.state self.old.decoder).kept ++ block.entry ∷ [])
            (D.state self.new.decoder).kept [] haul.units.items) }
        ensures codec { OnOk result ((D.state self.new.decoder).codec ≡ (D.state self.old.decoder).codec) }
        ensures same { self.new ≡ record self.old { decoder = self.new.decoder; held = 0 } }
    {
        let piece = Chain::of(alloc, block);
        let mut haul = mem::replace(&mut self.haul, Haul::new(alloc));
        empty(&mut haul);
        let Ok(()) = self.decoder.feed(alloc, piece, &mut haul, &mut self.mint) else {
            return Err(AllocError);
        };
        Ok(haul)
    }

    /// Prints what the end adds where it was reached, and the last line, and answers the status.
    pub(crate) fn close<W: Sink>(&mut self, alloc: Global, report: &mut W, stop: Stop) -> Status
        ensures { ClosesCut D.state D.stands stop self.old (W.state report.old) (W.state report.new) result }
    {
        if self.end(alloc, report, stop).is_err() {
            return Status::Memory;
        }
        print_end(&mut self.printer, report, self.read);
        self.printer.flush(report);
        Status::at_stop(stop, self.fault, Status::of_report(self.printer.failed()))
    }

    // Prints what the end of the stream adds, where it was reached.
    fn end<W: Sink>(&mut self, alloc: Global, report: &mut W, stop: Stop) -> Result<(), AllocError>
        ensures read { self.new.read ≡ self.old.read }
        ensures ended { OnOk result (CutsEnd D.state D.stands stop
            self.old (W.state report.old) self.new (W.state report.new)) }
        ensures unprinted { OnErr result (report.new ≡ report.old) }
    {
        match stop {
            Stop::Failure | Stop::Limit => return Ok(()),
            Stop::End => {}
        }
        let mut haul = Haul::new(alloc);
        if self.decoder.end(&mut haul).is_err() {
            return Err(AllocError);
        }
        self.take_units(report, &haul.units);
        Ok(())
    }

    // Prints units, and notes the first fault.
    fn take_units<W: Sink>(&mut self, report: &mut W, found: &[FrameUnit])
        ensures { TakesUnits (units_of found.now) self.old (W.state report.old) self.new (W.state report.new) }
    {
        'units: for unit in found {
            print_unit(&mut self.printer, report, unit);
            note(&mut self.fault, unit);
        }
    }
}

// Lets go of all that is in a haul.
fn empty(haul: &mut Haul)
    ensures units { haul.new.units.items ≡ [] }
    ensures back { haul.new.back.items ≡ [] }
{
    'units: while let Some(unit) = haul.units.pop() {
        if let FrameUnit::Frame { chain, .. } = unit {
            chain.discard();
        }
    }
    haul.back.clear();
}
