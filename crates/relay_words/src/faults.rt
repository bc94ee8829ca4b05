//! Why a word is bad.
ghost use Rattle.std.specs.Prelude.{◌≡◌, Some, option_map};
ghost use Rattle.relay_words.specs.declared.faults.WordFault.TheVariants.{NoMemory};
ghost use Rattle.relay_words.specs.Faults.{usage};

use std::alloc::AllocError;
use thiserror::Error;

/// Why a word is bad, in the order in which they are tested.
#[derive(Clone, Copy, Debug, PartialEq, Eq)]
pub enum UsageKind {
    /// There is no word, or the first is no command.
    Command,
    /// The word begins with `-` and is no option of the command.
    Option,
    /// The option was given before, or the subscriber's name was.
    Twice,
    /// The option's value is missing, or a value hasn't its form or its range.
    Value,
    /// A codec, or the value of `--out`, hasn't its form.
    Codec,
    /// The field of a length isn't 1, 2, 4 or 8.
    BadField,
    /// A maximum, a size or a delimiter is empty.
    ZeroLen,
    /// A maximum or a size is over 16,777,216.
    MaxOver,
    /// A length field ends behind the longest frame.
    OffsetOver,
    /// There is no delimiter.
    NoDelim,
    /// There are more than 8 delimiters, or one is longer than 64 bytes.
    DelimOver,
    /// The word hasn't the form of a subscriber, or is the 65th.
    Sub,
    /// One word too many.
    Extra,
    /// A word that the command needs isn't there; the number of words is named.
    Missing,
    /// The longest frame doesn't fit the field that its length is written in.
    OutOver,
    /// A subscriber has the name of the input.
    InOut,
    /// The command is good, and can't run yet. `read_words` never gives it.
    NotBuilt,
}

/// Why words aren't read. Its text is the variant's name.
#[derive(Clone, Copy, Debug, PartialEq, Eq, Error)]
pub enum WordFault {
    /// The first bad word, counted from 0, and why it is bad.
    #[error("Usage")]
    Usage { word: u32, kind: UsageKind },
    /// Memory ran out.
    #[error("NoMemory")]
    NoMemory,
}

impl From<AllocError> for WordFault {
    ghost from_gives = { λ _ f. f ≡ NoMemory };

    fn from(_error: AllocError) -> WordFault {
        WordFault::NoMemory
    }
}

pub(crate) fn usage(at: usize, kind: UsageKind) -> WordFault
    ensures { result ≡ usage at kind }
{
    let word = if at < 0xffff_ffff {
        at as u32
    } else {
        u32::MAX
    };
    WordFault::Usage { word, kind }
}

pub(crate) fn usage_of(at: usize, kind: Option<UsageKind>) -> Option<WordFault>
    ensures { result ≡ option_map (usage at) kind }
{
    match kind {
        None => None,
        Some(kind) => Some(usage(at, kind)),
    }
}
