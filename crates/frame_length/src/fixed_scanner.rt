use frame_head::{Codec, FaultKind};
use frame_rule::{Scan, Scanner};

/// Counts to the ends of frames of one size. It looks at no byte.
#[derive(Debug, Drop)]
pub struct FixedScanner {
    size: u64,
}

impl Scanner for FixedScanner {
    ghost use Rattle.std.specs.Prelude.{◌≡◌, ◌<◌, None, length};
    ghost use Rattle.frame_head.specs.declared.codecs.Codec.TheVariants.{Fixed};
    ghost use Rattle.frame_head.specs.Codecs.{IsFixed, fault_of};

    ghost codec_of = { λ s. Fixed s.size };

    ghost takes = { IsFixed };

    ghost saw = { λ s r. (fault_of (Fixed s.size) ≡ None) × (length r < s.size) };

    fn new(codec: Codec) -> FixedScanner {
        match codec {
            Codec::Fixed { size } => FixedScanner { size },
            _ => unreachable!(),
        }
    }

    fn scan(&mut self, have: usize, bytes: &[u8]) -> Scan {
        let wanted = self.size as usize - have;
        if bytes.len() < wanted {
            return Scan::Open;
        }
        Scan::Frame {
            used: wanted,
            front: 0,
            back: 0,
        }
    }

    fn last(&self, have: usize) -> Option<FaultKind> {
        let _ = &self.size;
        Some(FaultKind::Cut)
    }

    ghost checked = { λ s r seen. seen.0 };
}
