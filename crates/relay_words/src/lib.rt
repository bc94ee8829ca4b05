//! The words of the command line: what they ask for, or the first bad word and why it is bad.
//!
//! `read_words` answers the definition `order` of `specs/Orders.antt`. Words with the form of a number, a name, a codec
//! and so on are defined in the files before it, each with a function of its own here.
#![tactic(auto)]

mod codecs;
mod command;
mod faults;
mod hex;
mod items;
mod kinds;
mod name;
mod numbers;
mod order;
mod outs;
mod parts;
mod read;
#[cfg(test)]
mod rows;
#[cfg(test)]
mod shown;
mod stages;
mod subscribers;
#[cfg(test)]
mod tests;
mod values;
mod word_list;

pub use faults::{UsageKind, WordFault};
pub use name::Name;
pub use order::Order;
pub use read::read_words;
pub use stages::{StageWord, StageWords};
pub use subscribers::{SubWord, SubWords};
pub use word_list::WordList;
