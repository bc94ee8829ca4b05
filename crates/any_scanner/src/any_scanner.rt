ghost use Rattle.std.specs.Prelude.{◌≡◌, ℕ, List};

use frame_delim::DelimScanner;
use frame_head::{Codec, FaultKind};
use frame_length::{FixedScanner, LengthScanner};
use frame_line::LineScanner;
use frame_rule::{Scan, Scanner};

/// Finds the ends of units by any codec: the scanner of its kind.
#[derive(Debug, Drop)]
pub enum AnyScanner {
    Length(LengthScanner),
    Fixed(FixedScanner),
    Line(LineScanner),
    Delim(DelimScanner),
}

impl Scanner for AnyScanner {
    ghost use Rattle.any_scanner.specs.declared.any_scanner.AnyScanner.TheVariants.{Length, Fixed, Line, Delim};

    ghost codec_of = { elim [
      | Length s ↦ ⟦<LengthScanner as Scanner>⟧.codec_of s
      | Fixed s ↦ ⟦<FixedScanner as Scanner>⟧.codec_of s
      | Line s ↦ ⟦<LineScanner as Scanner>⟧.codec_of s
      | Delim s ↦ ⟦<DelimScanner as Scanner>⟧.codec_of s
    ] };

    ghost takes = { λ codec. Unit };

    ghost saw = { elim [
      | Length s ↦ ⟦<LengthScanner as Scanner>⟧.saw s
      | Fixed s ↦ ⟦<FixedScanner as Scanner>⟧.saw s
      | Line s ↦ ⟦<LineScanner as Scanner>⟧.saw s
      | Delim s ↦ ⟦<DelimScanner as Scanner>⟧.saw s
    ] };

    fn new(codec: Codec) -> AnyScanner {
        match codec {
            Codec::Length { .. } => AnyScanner::Length(LengthScanner::new(codec)),
            Codec::Fixed { .. } => AnyScanner::Fixed(FixedScanner::new(codec)),
            Codec::Line { .. } => AnyScanner::Line(LineScanner::new(codec)),
            Codec::Delim { .. } => AnyScanner::Delim(DelimScanner::new(codec)),
        }
    }

    fn scan(&mut self, have: usize, bytes: &[u8]) -> Scan {
        match self {
            AnyScanner::Length(scanner) => scanner.scan(have, bytes),
            AnyScanner::Fixed(scanner) => scanner.scan(have, bytes),
            AnyScanner::Line(scanner) => scanner.scan(have, bytes),
            AnyScanner::Delim(scanner) => scanner.scan(have, bytes),
        }
    }

    fn last(&self, have: usize) -> Option<FaultKind> {
        match self {
            AnyScanner::Length(scanner) => scanner.last(have),
            AnyScanner::Fixed(scanner) => scanner.last(have),
            AnyScanner::Line(scanner) => scanner.last(have),
            AnyScanner::Delim(scanner) => scanner.last(have),
        }
    }

    ghost checked = { elim [
      | Length s ↦ λ r seen. seen.0
      | Fixed s ↦ λ r seen. seen.0
      | Line s ↦ λ r seen. seen.0
      | Delim s ↦ λ r seen. seen.0
    ] };
}
