ghost use Rattle.std.specs.Prelude.{◌≡◌, None};
ghost use Rattle.frame_head.specs.Codecs.{fault_of};

use frame_batch::Batch;
use frame_mark::{Finds, Mark, Marked, Marker};
use frame_rule::{Codec, FeedFault, Scanner};
use iobuf_chain::{Chain, Frame};
use iobuf_node::IoBuf;
use share_count::Mint;
use std::alloc::Global;
use std::test::Fail;

// No trial has a piece or a stream of more bytes.
const MOST: u64 = 1 << 40;

// A decoder with what it found, the mint of its storages, and the units as text: of a frame where it begins and its
// bytes, of a fault where it begins and its kind. A bar stands behind those of each call that found some.
#[derive(Drop)]
pub(crate) struct Rig<S: Scanner> {
    pub(crate) marker: Marker<S>,
    pub(crate) finds: Finds,
    pub(crate) mint: Mint,
    pub(crate) text: String,
}

impl<S: Scanner> Rig<S> {
    pub(crate) fn new(alloc: Global, codec: &Codec) -> Result<Rig<S>, Fail>
        requires checked { fault_of codec.now ≡ None }
        requires kind { S.takes codec.now }
    {
        Ok(Rig {
            marker: Marker::new(codec.copy(alloc)?),
            finds: Finds::new(alloc),
            mint: Mint::new(),
            text: String::new(alloc),
        })
    }

    // Marks a piece once. Nothing where the decoder was dead.
    pub(crate) fn mark(
        &mut self,
        alloc: Global,
        piece: Frame,
        most: usize,
    ) -> Result<Option<Marked>, Fail> {
        if self.marker.fed() > MOST || piece.length() as u64 > MOST || most == 0 {
            return Err(Fail::from("too long for a trial"));
        }
        match self
            .marker
            .mark(alloc, piece, most, &mut self.finds, &mut self.mint)
        {
            Ok(marked) => Ok(Some(marked)),
            Err(FeedFault::Dead) => Ok(None),
            Err(FeedFault::NoMemory) => Err(Fail::from("no memory")),
        }
    }

    // Marks a piece once, whose units are these.
    pub(crate) fn marks(
        &mut self,
        alloc: Global,
        piece: Frame,
        most: usize,
        want: &str,
    ) -> Result<Marked, Fail> {
        let Some(marked) = self.mark(alloc, piece, most)? else {
            return Err(Fail::from("the decoder is dead"));
        };
        let text = text_of(alloc, &self.finds.marks, &marked.batch)?;
        if text.as_str() != want {
            return Err(Fail::from("other units"));
        }
        Ok(marked)
    }

    // Marks a piece and what is handed back of it, so many units at a time, until nothing is left.
    pub(crate) fn mark_all(
        &mut self,
        alloc: Global,
        piece: Frame,
        most: usize,
    ) -> Result<(), Fail> {
        let calls = piece.length().saturating_add(1);
        let mut next = Some(piece);
        'calls: for _ in 0..calls {
            let Some(piece) = next.take() else {
                return Ok(());
            };
            let Some(marked) = self.mark(alloc, piece, most)? else {
                return Err(Fail::from("the decoder is dead"));
            };
            self.show(alloc, &marked.batch)?;
            next = marked.rest;
        }
        if next.is_some() {
            return Err(Fail::from("a piece is left"));
        }
        Ok(())
    }

    // Ends the stream.
    pub(crate) fn end(&mut self, alloc: Global) -> Result<(), Fail> {
        match self.marker.end(&mut self.finds) {
            Ok(batch) => self.show(alloc, &batch),
            Err(_) => Err(Fail::from("no end")),
        }
    }

    // Ends the stream, and answers the batch of its end. Nothing where it adds no frame, or the decoder was dead.
    pub(crate) fn last(&mut self) -> Option<Batch> {
        match self.marker.end(&mut self.finds) {
            Ok(batch) => batch,
            Err(_) => None,
        }
    }

    // Shows the units that were marked.
    fn show(&mut self, alloc: Global, batch: &Option<Batch>) -> Result<(), Fail> {
        let shown = text_of(alloc, &self.finds.marks, batch)?;
        self.text.push_str(&shown)?;
        Ok(())
    }
}

// Marks as text, with the frames of a batch in order.
pub(crate) fn text_of(
    alloc: Global,
    marks: &[Mark],
    batch: &Option<Batch>,
) -> Result<String, Fail> {
    let frames = frames_of(alloc, batch)?;
    let mut text = String::new(alloc);
    let mut nth = 0usize;
    for mark in marks {
        match mark {
            Mark::Fault { at, kind } => text.push_str(&format!(in alloc; "X {at} {kind:?},")?)?,
            Mark::Frame { at, from, to } => {
                let hex = nth_frame(&frames, nth, to.saturating_sub(*from))?;
                text.push_str(&format!(in alloc; "F {at} {hex},")?)?;
                nth = nth.saturating_add(1);
            }
        }
    }
    if nth != frames.len() {
        return Err(Fail::from("more frames than marks"));
    }
    Ok(text)
}

// The frames of a batch, each in hexadecimal.
fn frames_of(alloc: Global, batch: &Option<Batch>) -> Result<Vec<String>, Fail> {
    let mut frames = Vec::new(alloc);
    let Some(batch) = batch else {
        return Ok(frames);
    };
    for parts in batch.frames() {
        frames.push(hex_of(alloc, parts)?)?;
    }
    Ok(frames)
}

// A frame, which has as many bytes as its mark says.
fn nth_frame(frames: &[String], nth: usize, size: u64) -> Result<&str, Fail> {
    let Some(hex) = frames.get(nth) else {
        return Err(Fail::from("fewer frames than marks"));
    };
    if hex.len() as u64 / 2 != size {
        return Err(Fail::from("a frame of another size than its mark's"));
    }
    Ok(hex.as_str())
}

// The bytes of a frame in hexadecimal.
fn hex_of(alloc: Global, parts: frame_batch::Parts<'_>) -> Result<String, Fail> {
    let mut text = String::new(alloc);
    for part in parts {
        for b in part {
            text.push_str(&format!(in alloc; "{b:02x}")?)?;
        }
    }
    Ok(text)
}

// A piece of one node.
pub(crate) fn one_node(alloc: Global, bytes: &[u8], mint: &mut Mint) -> Result<Frame, Fail> {
    if bytes.len() as u64 > MOST {
        return Err(Fail::from("too long for a trial"));
    }
    let node = IoBuf::copy(alloc, bytes, 0, 0, mint)?;
    Ok(Chain::of(alloc, node))
}

// A piece with a node for each of these texts, behind an empty one.
pub(crate) fn nodes(alloc: Global, texts: &[&[u8]], mint: &mut Mint) -> Result<Frame, Fail> {
    let mut all = one_node(alloc, b"", mint)?;
    'texts: for text in texts {
        let next = one_node(alloc, text, mint)?;
        if all.length() as u64 > MOST || next.length() as u64 > MOST {
            return Err(Fail::from("too long for a trial"));
        }
        if all.append_chain(next).is_err() {
            return Err(Fail::from("no memory"));
        }
    }
    Ok(all)
}
