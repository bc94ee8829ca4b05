ghost use Rattle.std.specs.Prelude.{◌≡◌, Some, None, MatchResult};
ghost use Rattle.frame_head.specs.Outs.{field_fault, mark_fault, out_fault};

use crate::checks::{CodecFault, GREATEST_MARK};
use crate::marks::Mark;

/// How frames are written one after another, so that a reader can tell them apart.
#[derive(Debug, Drop)]
pub enum Out {
    /// Each frame behind its length, in `field` bytes. `little` is the field's byte order.
    Length { field: u8, little: bool },
    /// Each frame with LF behind it, or CRLF where `crlf` says so.
    Line { crlf: bool },
    /// Each frame with the delimiter behind it.
    Delim { mark: Mark },
    /// The frames alone.
    Raw,
}

/// Refuses a way of writing frames by the first fault that holds for it: `BadField`, then `ZeroLen` for an empty
/// delimiter, then `DelimOver` for one of more than 64 bytes. It takes no memory and is O(1).
pub fn check_out(out: &Out) -> Result<(), CodecFault>
    ensures { MatchResult result (λ _. out_fault out.now ≡ None) (λ f. out_fault out.now ≡ Some f) }
{
    match out {
        Out::Length { field, .. } => check_field(*field),
        Out::Delim { mark } => check_mark(mark),
        Out::Line { .. } => Ok(()),
        Out::Raw => Ok(()),
    }
}

fn check_field(field: u8) -> Result<(), CodecFault>
    ensures { MatchResult result (λ _. field_fault field ≡ None) (λ f. field_fault field ≡ Some f) }
{
    if field != 1 && field != 2 && field != 4 && field != 8 {
        return Err(CodecFault::BadField);
    }
    Ok(())
}

fn check_mark(mark: &Mark) -> Result<(), CodecFault>
    ensures { MatchResult result (λ _. mark_fault mark.now ≡ None) (λ f. mark_fault mark.now ≡ Some f) }
{
    if mark.bytes().is_empty() {
        return Err(CodecFault::ZeroLen);
    }
    if mark.bytes().len() > GREATEST_MARK {
        return Err(CodecFault::DelimOver);
    }
    Ok(())
}
