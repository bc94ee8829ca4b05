//! What words are read as, in the text of the rows.
use crate::{Order, StageWord, StageWords, SubWords};
use frame_head::{Codec, LineEnd, Mark, Marks, Out};
use std::fmt;

#[derive(Clone, Copy)]
struct ShownMark<'a>(&'a Mark);

impl fmt::Display for ShownMark<'_> {
    fn fmt<W: fmt::Write>(&self, f: &mut fmt::Formatter<W>) -> fmt::Result {
        for b in self.0.bytes() {
            write!(f, "{b:02x}")?;
        }
        Ok(())
    }
}

#[derive(Clone, Copy)]
struct ShownMarks<'a>(&'a Marks);

impl fmt::Display for ShownMarks<'_> {
    fn fmt<W: fmt::Write>(&self, f: &mut fmt::Formatter<W>) -> fmt::Result {
        for i in 0..self.0.len() {
            let bar = if i == 0 { "" } else { "|" };
            write!(f, "{bar}{}", ShownMark(self.0.mark(i)))?;
        }
        Ok(())
    }
}

fn order_name(little: bool) -> &'static str {
    if little { "le" } else { "be" }
}

fn strip_name(strip: bool) -> &'static str {
    if strip { "strip" } else { "whole" }
}

fn end_name(ending: LineEnd) -> &'static str {
    match ending {
        LineEnd::Any => "any",
        LineEnd::Lf => "lf",
        LineEnd::Crlf => "crlf",
    }
}

#[derive(Clone, Copy)]
pub(crate) struct ShownCodec<'a>(pub(crate) &'a Codec);

impl fmt::Display for ShownCodec<'_> {
    fn fmt<W: fmt::Write>(&self, f: &mut fmt::Formatter<W>) -> fmt::Result {
        match self.0 {
            Codec::Length {
                field,
                offset,
                adjust,
                strip,
                little,
                max,
            } => {
                let order = order_name(*little);
                write!(f, "length/{field}/{offset}/{adjust}/{strip}/{order}/{max}")
            }
            Codec::Line { ending, strip, max } => {
                write!(f, "line/{}/{}/{max}", end_name(*ending), strip_name(*strip))
            }
            Codec::Delim { list, strip, max } => {
                write!(f, "delim/{}/{}/{max}", ShownMarks(list), strip_name(*strip))
            }
            Codec::Fixed { size } => write!(f, "fixed/{size}"),
        }
    }
}

#[derive(Clone, Copy)]
struct ShownOut<'a>(&'a Out);

impl fmt::Display for ShownOut<'_> {
    fn fmt<W: fmt::Write>(&self, f: &mut fmt::Formatter<W>) -> fmt::Result {
        match self.0 {
            Out::Length { field, little } => write!(f, "length/{field}/{}", order_name(*little)),
            Out::Line { crlf } => write!(f, "line/{}", if *crlf { "crlf" } else { "lf" }),
            Out::Delim { mark } => write!(f, "delim/{}", ShownMark(mark)),
            Out::Raw => write!(f, "raw"),
        }
    }
}

#[derive(Clone, Copy)]
struct ShownStages<'a>(&'a StageWords);

impl fmt::Display for ShownStages<'_> {
    fn fmt<W: fmt::Write>(&self, f: &mut fmt::Formatter<W>) -> fmt::Result {
        for i in 0..self.0.len() {
            let plus = if i == 0 { " " } else { "+" };
            match self.0.get(i) {
                StageWord::Strip(n) => write!(f, "{plus}strip={n}")?,
                StageWord::Keep(n) => write!(f, "{plus}keep={n}")?,
                StageWord::Upper => write!(f, "{plus}upper")?,
                StageWord::Min(n) => write!(f, "{plus}min={n}")?,
            }
        }
        Ok(())
    }
}

#[derive(Clone, Copy)]
struct ShownSubs<'a>(&'a SubWords);

impl fmt::Display for ShownSubs<'_> {
    fn fmt<W: fmt::Write>(&self, f: &mut fmt::Formatter<W>) -> fmt::Result {
        for i in 0..self.0.len() {
            let sub = self.0.get(i);
            write!(f, " {}@{}..", sub.name.as_str(), sub.first)?;
            if let Some(until) = sub.until {
                write!(f, "{until}")?;
            }
        }
        Ok(())
    }
}

// A number that isn't the default, behind its name.
fn write_number<W: fmt::Write>(
    f: &mut fmt::Formatter<W>,
    name: &str,
    n: u64,
    default: u64,
) -> fmt::Result {
    if n == default {
        return Ok(());
    }
    write!(f, " {name} {n}")
}

// The values that `frames` and `relay` both have.
fn write_values<W: fmt::Write>(
    f: &mut fmt::Formatter<W>,
    cap: u64,
    slow: &str,
    limit: u64,
    input: &str,
) -> fmt::Result {
    write_number(f, "cap", cap, 64)?;
    write!(f, "{slow}")?;
    write_number(f, "limit", limit, 1_099_511_627_776)?;
    write_input(f, input)
}

fn write_input<W: fmt::Write>(f: &mut fmt::Formatter<W>, input: &str) -> fmt::Result {
    if input.is_empty() {
        return Ok(());
    }
    write!(f, " in {input}")
}

#[derive(Clone, Copy)]
pub(crate) struct ShownOrder<'a>(pub(crate) &'a Order);

impl fmt::Display for ShownOrder<'_> {
    fn fmt<W: fmt::Write>(&self, f: &mut fmt::Formatter<W>) -> fmt::Result {
        match self.0 {
            Order::Frames {
                codec,
                block,
                limit,
                input,
            } => {
                write!(f, "frames {}", ShownCodec(codec))?;
                write_number(f, "block", *block as u64, 65_536)?;
                write_values(f, 64, "", *limit, input.as_str())
            }
            Order::Chain { input } => {
                write!(f, "chain")?;
                write_input(f, input.as_str())
            }
            Order::Mill { n } => write!(f, "mill {n}"),
            Order::Relay {
                codec,
                out,
                stages,
                block,
                cap,
                drop_slow,
                limit,
                input,
                subs,
            } => {
                let stages = ShownStages(stages);
                write!(f, "relay {} {}{stages}", ShownCodec(codec), ShownOut(out))?;
                write_number(f, "block", *block as u64, 65_536)?;
                let slow = if *drop_slow { " drop" } else { "" };
                write_values(f, *cap as u64, slow, *limit, input.as_str())?;
                write!(f, "{}", ShownSubs(subs))
            }
        }
    }
}
