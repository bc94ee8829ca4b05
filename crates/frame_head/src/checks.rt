ghost use Rattle.std.specs.Prelude.{◌≡◌, Some, None, MatchResult};
ghost use Rattle.frame_head.specs.Checks.{size_fault, marks_fault, length_fault};

use crate::marks::Marks;
use thiserror::Error;

/// Why a codec is refused. Its text is the variant's name.
#[derive(Clone, Copy, Debug, PartialEq, Eq, Error)]
pub enum CodecFault {
    /// A length field has 1, 2, 4 or 8 bytes.
    #[error("BadField")]
    BadField,
    /// A maximum, a size or a delimiter is empty.
    #[error("ZeroLen")]
    ZeroLen,
    /// A maximum or a size is over 16,777,216 bytes.
    #[error("MaxOver")]
    MaxOver,
    /// The length field ends behind the longest frame.
    #[error("OffsetOver")]
    OffsetOver,
    /// The list of delimiters is empty.
    #[error("NoDelim")]
    NoDelim,
    /// There are more than 8 delimiters, or one is longer than 64 bytes.
    #[error("DelimOver")]
    DelimOver,
}

const GREATEST_SIZE: u64 = 16_777_216;

pub(crate) const GREATEST_MARK: usize = 64;

const MOST_MARKS: usize = 8;

pub(crate) fn check_size(n: u64) -> Result<(), CodecFault>
    ensures { MatchResult result (λ _. size_fault n ≡ None) (λ f. size_fault n ≡ Some f) }
{
    if n == 0 {
        return Err(CodecFault::ZeroLen);
    }
    if n > GREATEST_SIZE {
        return Err(CodecFault::MaxOver);
    }
    Ok(())
}

pub(crate) fn check_length(field: u8, offset: u32, max: u64) -> Result<(), CodecFault>
    ensures { MatchResult result (λ _. length_fault field offset max ≡ None)
        (λ f. length_fault field offset max ≡ Some f) }
{
    if field != 1 && field != 2 && field != 4 && field != 8 {
        return Err(CodecFault::BadField);
    }
    check_size(max)?;
    if u64::from(offset) + u64::from(field) > max {
        return Err(CodecFault::OffsetOver);
    }
    Ok(())
}

pub(crate) fn check_marks(list: &Marks, max: u64) -> Result<(), CodecFault>
    ensures { MatchResult result (λ _. marks_fault list.now max ≡ None) (λ f. marks_fault list.now max ≡ Some f) }
{
    if list.has_empty() {
        return Err(CodecFault::ZeroLen);
    }
    check_size(max)?;
    if list.is_empty() {
        return Err(CodecFault::NoDelim);
    }
    if list.len() > MOST_MARKS || list.has_longer_than(GREATEST_MARK) {
        return Err(CodecFault::DelimOver);
    }
    Ok(())
}
