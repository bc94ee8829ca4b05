//! What a unit hands back.
use crate::receipt::Receipt;

/// What a unit hands back at its end, with the receipt for all that it had.
#[derive(Debug, Drop)]
pub enum Given<P> {
    /// It was the last: here is the payload.
    Last(P, Receipt<P>),
    /// Others hold the storage.
    Kept(Receipt<P>),
}
