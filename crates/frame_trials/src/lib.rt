//! Trials of decoders of every codec over streams that come in pieces.
#![tactic(auto)]

#[cfg(test)]
mod codecs;
#[cfg(test)]
mod floods;
#[cfg(test)]
mod lives;
#[cfg(test)]
mod names;
#[cfg(test)]
mod rig;
#[cfg(test)]
mod storages;
#[cfg(test)]
mod tests;
