//! Cursors that write into chains: over bytes that are there, and behind them.
#![tactic(auto)]

mod append;
mod appender;
mod cursor;
mod numbers;
mod private;
#[cfg(test)]
mod tests;
mod unshare;
mod write;

pub use append::{ensure_room, push_bytes, put_bytes};
pub use appender::Appender;
pub use cursor::UnshareCursor;
pub use private::PrivateCursor;
pub use read_cursor::Short;
pub use unshare::write_alone;
pub use write::write_over;
