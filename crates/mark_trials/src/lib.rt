//! Trials of decoders that mark, of every codec, over streams that come in pieces.
#![tactic(auto)]

#[cfg(test)]
mod blocks;
#[cfg(test)]
mod codecs;
#[cfg(test)]
mod nodes;
#[cfg(test)]
mod rig;
#[cfg(test)]
mod tests;
