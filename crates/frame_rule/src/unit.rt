use frame_head::FaultKind;
use iobuf_chain::Frame;

/// What a decoder found, with the offset in the stream at which it begins, in bytes.
#[derive(Debug, Drop)]
pub enum FrameUnit {
    /// A frame.
    Frame { at: u64, chain: Frame },
    /// Something in the place of a frame.
    Fault { at: u64, kind: FaultKind },
}
