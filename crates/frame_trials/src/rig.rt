ghost use Rattle.std.specs.Prelude.{◌≡◌, None, IfOk, OnOk};
ghost use Rattle.frame_head.specs.Codecs.{fault_of};
ghost use Rattle.frame_rule.specs.Decoding.{fresh};
ghost use Rattle.frame_rule.specs.Framing.{decoding_of};

use frame_rule::{Codec, Decoder, FeedFault, FrameUnit, Framer, Haul, Scanner};
use iobuf_chain::{Chain, Frame};
use iobuf_node::IoBuf;
use share_count::Mint;
use std::alloc::Global;
use std::test::Fail;

// No trial has a piece or a stream of more bytes.
const MOST: usize = 1 << 40;

// A decoder with its haul, the mint of its storages, and how many bytes it was fed.
#[derive(Drop)]
pub(crate) struct Rig<D: Decoder> {
    pub(crate) decoder: D,
    pub(crate) haul: Haul,
    pub(crate) mint: Mint,
    pub(crate) fed: u64,
}

impl<D: Decoder> Rig<D> {
    pub(crate) fn new(alloc: Global, decoder: D) -> Rig<D>
        requires { (D.state decoder).fed ≡ 0 }
        ensures { (D.state result.decoder).fed ≡ result.fed }
    {
        Rig {
            decoder,
            haul: Haul::new(alloc),
            mint: Mint::new(),
            fed: 0,
        }
    }

    // Feeds a piece, and tells whether the decoder was alive.
    pub(crate) fn feed(&mut self, alloc: Global, piece: Frame) -> Result<bool, Fail>
        requires { (D.state self.old.decoder).fed ≡ self.old.fed }
        ensures { OnOk result ((D.state self.new.decoder).fed ≡ self.new.fed) }
    {
        let more = piece.length() as u64;
        let most = MOST as u64;
        if self.fed > most || more > most {
            return Err(Fail::from("too long for a trial"));
        }
        match self
            .decoder
            .feed(alloc, piece, &mut self.haul, &mut self.mint)
        {
            Ok(()) => {
                self.fed += more;
                Ok(true)
            }
            Err(FeedFault::Dead) => Ok(false),
            Err(FeedFault::NoMemory) => Err(Fail::from("no memory")),
        }
    }

    // Feeds a piece of one node.
    pub(crate) fn feed_bytes(&mut self, alloc: Global, bytes: &[u8]) -> Result<bool, Fail>
        requires { (D.state self.old.decoder).fed ≡ self.old.fed }
        ensures { OnOk result ((D.state self.new.decoder).fed ≡ self.new.fed) }
    {
        let piece = one_node(alloc, bytes, &mut self.mint)?;
        self.feed(alloc, piece)
    }

    // Feeds a piece with a node for each of these texts.
    pub(crate) fn feed_nodes(&mut self, alloc: Global, texts: &[&[u8]]) -> Result<bool, Fail>
        requires { (D.state self.old.decoder).fed ≡ self.old.fed }
        ensures { OnOk result ((D.state self.new.decoder).fed ≡ self.new.fed) }
    {
        let piece = nodes(alloc, texts, &mut self.mint)?;
        self.feed(alloc, piece)
    }

    // Feeds a piece of one node for each of these texts. Whether the decoder was alive all the time.
    pub(crate) fn feed_each(&mut self, alloc: Global, pieces: &[&[u8]]) -> Result<bool, Fail>
        requires { (D.state self.old.decoder).fed ≡ self.old.fed }
        ensures { OnOk result ((D.state self.new.decoder).fed ≡ self.new.fed) }
    {
        let mut alive = true;
        'pieces: for bytes in pieces {
            alive &= self.feed_bytes(alloc, bytes)?;
        }
        Ok(alive)
    }

    // Ends the stream, and tells whether the decoder was alive.
    pub(crate) fn end(&mut self) -> Result<bool, Fail>
        requires { (D.state self.old.decoder).fed ≡ self.old.fed }
        ensures { OnOk result ((D.state self.new.decoder).fed ≡ self.new.fed) }
    {
        match self.decoder.end(&mut self.haul) {
            Ok(()) => Ok(true),
            Err(FeedFault::Dead) => Ok(false),
            Err(FeedFault::NoMemory) => Err(Fail::from("no memory")),
        }
    }
}

// A decoder by a codec like this, which was fed nothing.
pub(crate) fn decoder<S: Scanner>(alloc: Global, codec: &Codec) -> Result<Framer<S>, Fail>
    requires checked { fault_of codec.now ≡ None }
    requires kind { S.takes codec.now }
    ensures { IfOk result (λ d. decoding_of S.codec_of d ≡ fresh codec.now) }
{
    let copy = codec.copy(alloc)?;
    Ok(Framer::new(copy))
}

// A piece of one node.
pub(crate) fn one_node(alloc: Global, bytes: &[u8], mint: &mut Mint) -> Result<Frame, Fail> {
    if bytes.len() > MOST {
        return Err(Fail::from("too long for a trial"));
    }
    let node = IoBuf::copy(alloc, bytes, 0, 0, mint)?;
    Ok(Chain::of(alloc, node))
}

// A piece with a node for each of these texts, behind an empty one.
fn nodes(alloc: Global, texts: &[&[u8]], mint: &mut Mint) -> Result<Frame, Fail> {
    let mut all = one_node(alloc, b"", mint)?;
    'texts: for text in texts {
        let next = one_node(alloc, text, mint)?;
        if all.length() > MOST || next.length() > MOST {
            return Err(Fail::from("too long for a trial"));
        }
        if all.append_chain(next).is_err() {
            return Err(Fail::from("no memory"));
        }
    }
    Ok(all)
}

// The units of a stream that comes in pieces of one size, each of one node, as text.
pub(crate) fn cut_in_pieces<D: Decoder>(
    alloc: Global,
    decoder: D,
    input: &[u8],
    piece: usize,
) -> Result<String, Fail>
    requires { (D.state decoder).fed ≡ 0 }
{
    let mut rig = Rig::new(alloc, decoder);
    'pieces: for bytes in input.chunks(piece.max(1)) {
        rig.feed_bytes(alloc, bytes)?;
    }
    rig.end()?;
    text_of(alloc, &rig.haul.units)
}

// The units of a stream of these pieces, each with a node for each of its texts, as text.
pub(crate) fn cut_in_nodes<D: Decoder>(
    alloc: Global,
    decoder: D,
    pieces: &[&[&[u8]]],
) -> Result<String, Fail>
    requires { (D.state decoder).fed ≡ 0 }
{
    let mut rig = Rig::new(alloc, decoder);
    'pieces: for texts in pieces {
        rig.feed_nodes(alloc, texts)?;
    }
    rig.end()?;
    text_of(alloc, &rig.haul.units)
}

// How many units a stream has that comes in pieces of one size, and the last of them as text. What was found is dropped
// behind each piece.
pub(crate) fn count_in_pieces<D: Decoder>(
    alloc: Global,
    decoder: D,
    input: &[u8],
    piece: usize,
) -> Result<(usize, String), Fail>
    requires { (D.state decoder).fed ≡ 0 }
{
    let mut rig = Rig::new(alloc, decoder);
    let mut count = 0usize;
    let mut last = None;
    'pieces: for bytes in input.chunks(piece.max(1)) {
        rig.feed_bytes(alloc, bytes)?;
        count = count.saturating_add(rig.haul.units.len());
        last = rig.haul.units.pop().or(last);
        rig.haul.units.clear();
        rig.haul.back.clear();
    }
    rig.end()?;
    count = count.saturating_add(rig.haul.units.len());
    let mut text = String::new(alloc);
    if let Some(unit) = rig.haul.units.pop().or(last) {
        show(alloc, &unit, &mut text)?;
    }
    Ok((count, text))
}

// The most bytes that are kept behind any piece of a stream, whose pieces have one size, and its units as text.
pub(crate) fn most_held<D: Decoder>(
    alloc: Global,
    decoder: D,
    input: &[u8],
    piece: usize,
) -> Result<(u64, String), Fail>
    requires { (D.state decoder).fed ≡ 0 }
{
    let mut rig = Rig::new(alloc, decoder);
    let mut most = 0;
    'pieces: for bytes in input.chunks(piece.max(1)) {
        rig.feed_bytes(alloc, bytes)?;
        most = rig.decoder.held().max(most);
    }
    rig.end()?;
    let text = text_of(alloc, &rig.haul.units)?;
    Ok((most, text))
}

// Units as text: of a frame where it begins and its bytes, of a fault where it begins and its kind.
pub(crate) fn text_of(alloc: Global, units: &[FrameUnit]) -> Result<String, Fail> {
    let mut text = String::new(alloc);
    for unit in units {
        show(alloc, unit, &mut text)?;
    }
    Ok(text)
}

fn show(alloc: Global, unit: &FrameUnit, text: &mut String) -> Result<(), Fail> {
    match unit {
        FrameUnit::Frame { at, chain } => {
            text.push_str(&format!(in alloc; "F {at} ")?)?;
            show_nodes(alloc, chain, text)?;
            text.push_str(",")?;
        }
        FrameUnit::Fault { at, kind } => {
            text.push_str(&format!(in alloc; "X {at} {kind:?},")?)?;
        }
    }
    Ok(())
}

// The bytes of a chain in hexadecimal, node by node.
fn show_nodes(alloc: Global, chain: &Frame, text: &mut String) -> Result<(), Fail> {
    for i in 0..chain.elements() {
        show_bytes(alloc, chain.node(i).bytes(), text)?;
    }
    Ok(())
}

fn show_bytes(alloc: Global, bytes: &[u8], text: &mut String) -> Result<(), Fail> {
    for b in bytes {
        text.push_str(&format!(in alloc; "{b:02x}")?)?;
    }
    Ok(())
}
