//! The grammar of framed streams: what the frames and the faults of a list of bytes are.
//!
//! The definitions stand in `specs/`, over the types of this crate. The laws on them are public functions of `laws`.
#![tactic(auto)]

mod checks;
mod codecs;
mod copies;
#[cfg(test)]
mod header_tests;
mod headers;
pub mod laws;
mod lengths;
mod marks;
mod out;
#[cfg(test)]
mod out_tests;
#[cfg(test)]
mod tests;

pub use checks::CodecFault;
pub use codecs::{Codec, FaultKind, LineEnd, check, longest};
pub use headers::{LengthHead, ending, fits_field, header};
pub use lengths::most_in_field;
pub use marks::{Mark, Marks};
pub use out::{Out, check_out};
