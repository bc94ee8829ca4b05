ghost use Rattle.std.specs.Prelude.{◌≡◌, ℕ, ◌+◌, ◌-◌, ◌<◌, ◌≤◌, ◌^◌, List, ◌++◌, length, take, drop};
ghost use Rattle.frame_head.specs.Numbers.{adjusted};
ghost use Rattle.frame_length.specs.Fields.{AimsBehind, AimsBy, Looked, field_end, scan_toward, target_behind};

use crate::numbers::{number_of, with_adjustment};
use frame_head::{Codec, FaultKind};
use frame_rule::{Scan, Scanner};

/// How a length field says where a frame ends. Sizes are in bytes.
#[derive(Clone, Copy, Debug)]
pub(crate) struct Header {
    field: u8,
    offset: u32,
    adjust: i32,
    strip: u32,
    little: bool,
    max: u64,
}

/// Finds the ends of frames by a length field. It keeps the bytes of the field as they come, and then where the frame
/// ends.
#[derive(Debug, Drop)]
pub struct LengthScanner {
    header: Header,
    seen: [u8; 8],
    // How many bytes the open frame has in all, once its field is there.
    target: Option<usize>,
}

// What the bytes up to the end of the field tell.
#[derive(Clone, Copy)]
pub(crate) enum Aim {
    // The field goes on.
    Short,
    Wrong { kind: FaultKind, over: u128 },
    At { target: usize },
}

impl Scanner for LengthScanner {
    ghost use Rattle.std.specs.Prelude.{◌≡◌, None};
    ghost use Rattle.frame_head.specs.Codecs.{IsLength, fault_of};
    ghost use Rattle.frame_length.specs.Fields.{Saw, codec_by};

    ghost codec_of = { λ s. codec_by s.header };

    ghost takes = { IsLength };

    ghost saw = { λ s r. (fault_of (codec_by s.header) ≡ None) × Saw s.header s.seen s.target r };

    fn new(codec: Codec) -> LengthScanner {
        match codec {
            Codec::Length {
                field,
                offset,
                adjust,
                strip,
                little,
                max,
            } => LengthScanner {
                header: Header {
                    field,
                    offset,
                    adjust,
                    strip,
                    little,
                    max,
                },
                seen: [0; 8],
                target: None,
            },
            _ => unreachable!(),
        }
    }

    fn scan(&mut self, have: usize, bytes: &[u8]) -> Scan {
        match self.target {
            Some(target) => {
                self.target = still_to(target, have, bytes.len());
                toward(target, self.header.strip, have, bytes.len())
            }
            None => match look(self.header, &mut self.seen, have, bytes) {
                Aim::Short => Scan::Open,
                Aim::Wrong { kind, over } => Scan::Fault {
                    kind,
                    used: self.header.offset as usize + self.header.field as usize - have,
                    over,
                },
                Aim::At { target } => {
                    self.target = still_to(target, have, bytes.len());
                    toward(target, self.header.strip, have, bytes.len())
                }
            },
        }
    }

    fn last(&self, have: usize) -> Option<FaultKind> {
        let _ = &self.target;
        Some(FaultKind::Cut)
    }

    ghost checked = { λ s r seen. seen.0 };
}

// Where the frame ends, if that is behind the next `len` bytes.
fn still_to(target: usize, have: usize, len: usize) -> Option<usize>
    requires { have ≤ target }
    ensures { result ≡ target_behind target have len }
{
    if len < target - have {
        Some(target)
    } else {
        None
    }
}

// A frame of `target` bytes in all, of which `have` and the next `len` are there.
fn toward(target: usize, strip: u32, have: usize, len: usize) -> Scan
    requires { have ≤ target }
    ensures { result ≡ scan_toward target strip have len }
{
    if len < target - have {
        return Scan::Open;
    }
    Scan::Frame {
        used: target - have,
        front: strip as usize,
        back: 0,
    }
}

// Keeps the bytes of the field where they come in parts, and finds where the frame ends once they are all there.
fn look(header: Header, seen: &mut [u8; 8], have: usize, bytes: &[u8]) -> Aim
    requires field { (0 < header.field) × (header.field ≤ 8) }
    requires short { have < field_end header }
    ensures { (r : List ℕ) → length r ≡ have → take (have - header.offset) seen.old ≡ drop header.offset r
        → Looked header seen.new r bytes.now result }
{
    let start = header.offset as usize;
    let end = start + header.field as usize;
    let wanted = end - have;
    if have <= start && wanted <= bytes.len() {
        return aim_by(
            header,
            number_of(&bytes[start - have..wanted], header.little),
        );
    }
    let n = wanted.min(bytes.len());
    let passed = start.saturating_sub(have).min(n);
    keep(seen, have.saturating_sub(start), &bytes[passed..n]);
    if n < wanted {
        return Aim::Short;
    }
    aim_by(
        header,
        number_of(&seen[..header.field as usize], header.little),
    )
}

// What a field of this value tells.
fn aim_by(header: Header, value: u64) -> Aim
    requires { header.field ≤ 8 }
    ensures { AimsBy header (adjusted value header.adjust) result }
{
    match with_adjustment(value, header.adjust) {
        None => Aim::Wrong {
            kind: FaultKind::TooSmall,
            over: 0,
        },
        Some(behind) => {
            let end = header.offset as usize + header.field as usize;
            aim_behind(header.strip, header.max, end, behind)
        }
    }
}

// Writes some bytes to a place.
fn keep(seen: &mut [u8], at: usize, part: &[u8])
    requires { at + length part.now ≤ length seen.old }
    ensures { take (at + length part.now) seen.new ≡ take at seen.old ++ part.now }
{
    for i in 0..part.len() {
        seen[at + i] = part[i];
    }
}

// A frame that ends so many bytes behind the end of its field. A sum of 128 bits doesn't wrap.
fn aim_behind(strip: u32, max: u64, end: usize, behind: u128) -> Aim
    requires room { behind < 2 ^ 65 }
    requires end { end < 2 ^ 33 }
    ensures { AimsBehind strip max end behind result }
{
    let target = behind + end as u128;
    if target > u128::from(max) {
        return Aim::Wrong {
            kind: FaultKind::TooLong,
            over: behind,
        };
    }
    if target < u128::from(strip) {
        return Aim::Wrong {
            kind: FaultKind::StripOver,
            over: behind,
        };
    }
    Aim::At {
        target: target as usize,
    }
}
