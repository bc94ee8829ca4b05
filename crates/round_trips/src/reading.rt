ghost use Rattle.std.specs.Prelude.{◌≡◌, None};
ghost use Rattle.frame_head.specs.Codecs.{fault_of};

use any_scanner::{AnyDecoder, Codec, Decoder, FrameUnit, Haul};
use iobuf_chain::{Chain, Frame};
use iobuf_node::IoBuf;
use share_count::Mint;
use std::alloc::Global;
use std::process::Abort;

// No text has more bytes.
const MOST: u64 = 1 << 40;

// A decoder with its haul, the mint of its storages, and how many bytes it was fed.
#[derive(Drop)]
struct Rig<D: Decoder> {
    decoder: D,
    haul: Haul,
    mint: Mint,
    fed: u64,
}

impl<D: Decoder> Rig<D> {
    // Feeds a piece of one node.
    fn feed(&mut self, rt: &impl Abort, alloc: Global, bytes: &[u8])
        requires { (D.state self.old.decoder).fed ≡ self.old.fed }
        ensures { (D.state self.new.decoder).fed ≡ self.new.fed }
    {
        let piece = one_node(rt, alloc, bytes, &mut self.mint);
        let more = piece.length() as u64;
        assert!(rt; more <= MOST && self.fed <= MOST);
        match self
            .decoder
            .feed(alloc, piece, &mut self.haul, &mut self.mint)
        {
            Ok(()) => self.fed += more,
            Err(_) => panic!(rt; "the decoder refused a piece"),
        }
    }

    // Tells the decoder that nothing more comes.
    fn end(&mut self, rt: &impl Abort) {
        assert!(rt; self.decoder.end(&mut self.haul).is_ok());
    }
}

fn one_node(rt: &impl Abort, alloc: Global, bytes: &[u8], mint: &mut Mint) -> Frame {
    assert!(rt; bytes.len() <= 4000);
    let node = IoBuf::copy(alloc, bytes, 0, 0, mint).expect(rt, "memory for a node");
    Chain::of(alloc, node)
}

// What a decoder makes of a text that comes in pieces of so many bytes: each frame's bytes in hexadecimal, and each
// fault's kind.
pub(crate) fn units_of(
    rt: &impl Abort,
    alloc: Global,
    codec: &Codec,
    text: &[u8],
    piece: usize,
) -> String
    requires { fault_of codec.now ≡ None }
{
    let decoder = AnyDecoder::new(codec.copy(alloc).expect(rt, "memory for a codec"));
    let haul = read(rt, alloc, decoder, text, piece);
    let mut shown = String::new(alloc);
    for unit in &haul.units {
        show(rt, alloc, unit, &mut shown);
    }
    shown
}

fn read<D: Decoder>(rt: &impl Abort, alloc: Global, decoder: D, text: &[u8], piece: usize) -> Haul
    requires { (D.state decoder).fed ≡ 0 }
{
    let mut rig = Rig {
        decoder,
        haul: Haul::new(alloc),
        mint: Mint::new(),
        fed: 0,
    };
    'pieces: for bytes in text.chunks(piece.max(1)) {
        rig.feed(rt, alloc, bytes);
    }
    rig.end(rt);
    rig.haul
}

fn show(rt: &impl Abort, alloc: Global, unit: &FrameUnit, shown: &mut String) {
    match unit {
        FrameUnit::Frame { chain, .. } => show_nodes(rt, alloc, chain, shown),
        FrameUnit::Fault { kind, .. } => {
            let kind = format!(in alloc; "{kind:?}").expect(rt, "memory for a text");
            shown.push_str(&kind).expect(rt, "memory for a text");
        }
    }
    shown.push_str(",").expect(rt, "memory for a text");
}

fn show_nodes(rt: &impl Abort, alloc: Global, chain: &Frame, shown: &mut String) {
    for i in 0..chain.elements() {
        show_bytes(rt, alloc, chain.node(i).bytes(), shown);
    }
}

// Bytes in hexadecimal, behind what is shown.
pub(crate) fn show_bytes(rt: &impl Abort, alloc: Global, bytes: &[u8], shown: &mut String) {
    for b in bytes {
        let digits = format!(in alloc; "{b:02x}").expect(rt, "memory for a text");
        shown.push_str(&digits).expect(rt, "memory for a text");
    }
}
