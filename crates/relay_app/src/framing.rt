ghost use Rattle.std.specs.Prelude.{◌≡◌, ◌≤◌, ◌^◌, [], None, IfOk, OnErr};
ghost use Rattle.frame_head.specs.Codecs.{fault_of};
ghost use Rattle.frame_rule.specs.Decoding.{fresh};
ghost use Rattle.relay_ports.specs.States.{IsFreshSource};
ghost use Rattle.input_pieces.specs.Pieces.{HasRead};
ghost use Rattle.relay_app.specs.Cutting.{CutsTo, HasCut, Interrupted, IsStopOf, ReadsAndReports};
ghost use Rattle.relay_app.specs.Framing.{framing};
ghost use Rattle.relay_app.specs.Runs.{Answers, RunsInput};

use crate::cutter::Cutter;
use crate::status::Status;
use any_scanner::AnyScanner;
use frame_head::laws::stable_units;
use frame_rule::{Codec, Decoder, Framer};
use input_pieces::{NoPiece, PieceReader, Stop};
use relay_ports::{Host, NotOpened, Sink, Source};
use std::alloc::{AllocError, Global};

/// Cuts the input of a name into frames, and writes a line for each unit and a last line to the report.
///
/// The input is read in blocks of `block` bytes, to its end, its first failure, or the limit of `limit` bytes.
/// After a failure of the report nothing more is written, and the input is still read to its end. It is linear in
/// the input, copies no byte of a frame, and keeps two blocks, the units of one (some 200 bytes each), the blocks of
/// the open frame, and 64 KiB of text.
pub fn frames<H: Host>(
    alloc: Global,
    host: &mut H,
    codec: Codec,
    name: &str,
    block: usize,
    limit: u64,
) -> Status
    requires codec { fault_of codec ≡ None }
    requires block { (1 ≤ block) × (block ≤ 1048576) }
    requires limit { limit ≤ 2 ^ 40 }
    ensures { RunsInput (Answers (framing codec)) name.now limit (H.state host.old) (H.state host.new) result }
{
    frames_by(
        alloc,
        host,
        Framer::<AnyScanner>::new(codec),
        name,
        block,
        limit,
    )
}

// Cuts the input of a name into frames by a decoder that was fed nothing.
fn frames_by<H: Host, D: Decoder>(
    alloc: Global,
    host: &mut H,
    decoder: D,
    name: &str,
    block: usize,
    limit: u64,
) -> Status
    requires fed { D.stands decoder [] }
    requires kept { (D.state decoder).kept ≡ [] }
    requires block { (1 ≤ block) × (block ≤ 1048576) }
    requires limit { limit ≤ 2 ^ 40 }
    ensures { RunsInput (Answers (framing (D.state decoder).codec)) name.now limit
        (H.state host.old) (H.state host.new) result }
{
    let input = match host.open_in(name) {
        Ok(input) => input,
        Err(NotOpened::Failed) => return Status::NotOpened { nth: 0 },
        Err(NotOpened::NoMemory) => return Status::Memory,
    };
    let mut reader = PieceReader::new(input, block, limit);
    let status = cut_input(alloc, &mut reader, host.report(), decoder);
    host.finish_in(name, reader.into_input());
    status
}

// Cuts an input of which nothing was read yet.
fn cut_input<S: Source, W: Sink, D: Decoder>(
    alloc: Global,
    reader: &mut PieceReader<S>,
    report: &mut W,
    decoder: D,
) -> Status
    requires fed { D.stands decoder [] }
    requires kept { (D.state decoder).kept ≡ [] }
    requires block { reader.old.block ≤ 1048576 }
    requires limit { reader.old.limit ≤ 2 ^ 40 }
    requires fresh { IsFreshSource (S.state reader.old.input) }
    requires unread { HasRead S.state reader.old.block reader.old.limit (S.state reader.old.input) [] reader.old }
    ensures { ReadsAndReports (framing (D.state decoder).codec) reader.old.limit
        (S.state reader.new.input) (W.state report.old) (W.state report.new) result }
{
    // For the proof alone: lines that were printed stay the first of the report when more is read.
    stable_units();
    let Ok(mut cutter) = Cutter::new(alloc, decoder) else {
        return Status::Memory;
    };
    match cut_pieces(alloc, reader, report, &mut cutter) {
        Ok(stop) => cutter.close(alloc, report, stop),
        Err(AllocError) => Status::Memory,
    }
}

// Cuts piece after piece, until no more is to be read.
#[tactic(auto, using(crate::proofs::Inputs::within_limit))]
fn cut_pieces<S: Source, W: Sink, D: Decoder>(
    alloc: Global,
    reader: &mut PieceReader<S>,
    report: &mut W,
    cutter: &mut Cutter<D>,
) -> Result<Stop, AllocError>
    requires block { reader.old.block ≤ 1048576 }
    requires limit { reader.old.limit ≤ 2 ^ 40 }
    requires unread { HasRead S.state reader.old.block reader.old.limit (S.state reader.old.input) [] reader.old }
    requires fresh { HasCut D.state D.stands (D.state cutter.old.decoder).codec (W.state report.old) []
        cutter.old (W.state report.old) }
    requires kept { (D.state cutter.old.decoder).kept ≡ [] }
    ensures cut { IfOk result (λ stop. CutsTo D.state D.stands (D.state cutter.old.decoder).codec
        reader.old.block reader.old.limit stop (S.state reader.old.input) (S.state reader.new.input)
        (W.state report.old) cutter.new (W.state report.new)) }
    ensures interrupted { OnErr result (Interrupted (D.state cutter.old.decoder).codec
        reader.old.block reader.old.limit (S.state reader.old.input) (S.state reader.new.input)
        (W.state report.old) (W.state report.new)) }
{
    'reading: loop {
        let piece = match cutter.next_piece(alloc, reader) {
            Ok(piece) => piece,
            Err(none) => return stop_of(none),
        };
        cutter.cut(alloc, report, piece)?;
    }
}

// Why a reading stopped, where it wasn't for want of memory.
fn stop_of(none: NoPiece) -> Result<Stop, AllocError>
    ensures { IsStopOf none result }
{
    match none {
        NoPiece::Stopped(stop) => Ok(stop),
        NoPiece::NoMemory => Err(AllocError),
    }
}
