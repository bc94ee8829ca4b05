mod crossing;
mod orders;
mod owners;
mod returns;
mod ways;

use crate::{Back, Told};

// An answer that isn't the one that was looked for.
#[derive(Debug, Drop)]
struct Unexpected;

// The receipt of what was handed back: number, weight, lasts.
fn receipt_of<O: Told>(back: &Back<O>) -> Option<(u64, u64, u64)> {
    match back {
        Back::Kept(r) | Back::Done(r) => Some((r.number(), r.weight(), r.lasts())),
        Back::Lent(_, r) => Some((r.number(), r.weight(), r.lasts())),
        Back::Tag(_, r) => Some((r.number(), r.weight(), r.lasts())),
        Back::Ran(_, r) => Some((r.number(), r.weight(), r.lasts())),
        Back::Nothing => None,
    }
}
