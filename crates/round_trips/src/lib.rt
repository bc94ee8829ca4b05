//! Frames that are written and read back: by the encoder, and by decoders whose stream comes whole and cut in pieces.
#![tactic(auto)]

#[cfg(test)]
mod reading;
#[cfg(test)]
mod tests;
#[cfg(test)]
mod writing;
