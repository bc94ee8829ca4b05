ghost use Rattle.std.specs.Prelude.{IfOk};
ghost use Rattle.frame_head.specs.Codecs.{IsLength, IsLine, IsDelim};

use frame_head::{Codec, LineEnd, Mark, Marks};
use std::alloc::Global;
use std::test::Fail;

// A length field, and what a codec makes of it.
#[derive(Clone, Copy)]
pub(crate) struct Field {
    pub(crate) size: u8,
    pub(crate) offset: u32,
    pub(crate) adjust: i32,
    pub(crate) strip: u32,
    pub(crate) little: bool,
    pub(crate) max: u64,
}

// A field of one byte in front of what it counts.
pub(crate) const BYTE: Field = Field {
    size: 1,
    offset: 0,
    adjust: 0,
    strip: 1,
    little: false,
    max: 1024,
};

pub(crate) fn by_field(f: Field) -> Codec
    ensures { IsLength result }
{
    Codec::Length {
        field: f.size,
        offset: f.offset,
        adjust: f.adjust,
        strip: f.strip,
        little: f.little,
        max: f.max,
    }
}

pub(crate) fn lines(ending: LineEnd, strip: bool, max: u64) -> Codec
    ensures { IsLine result }
{
    Codec::Line { ending, strip, max }
}

pub(crate) fn delims(alloc: Global, marks: &[&[u8]], strip: bool, max: u64) -> Result<Codec, Fail>
    ensures { IfOk result IsDelim }
{
    let mut list = Vec::new(alloc);
    for mark in marks {
        list.push(Mark::new(Vec::from_slice(alloc, mark)?))?;
    }
    let list = Marks::new(list);
    Ok(Codec::Delim { list, strip, max })
}
