use crate::Release;
use std::alloc::{AllocError, Global};
use std::sync::Arc;
use std::sync::atomic::{AtomicU64, Ordering};

// Tells a word that others see, too: each run adds 2^32 and the sum of the bytes.
#[derive(Drop)]
pub(crate) struct Teller {
    word: Arc<AtomicU64, Global>,
    runs: u64,
    last: Vec<u8>,
}

impl Teller {
    pub(crate) fn new(alloc: Global, word: &Arc<AtomicU64, Global>) -> Result<Teller, AllocError> {
        Ok(Teller {
            word: Arc::try_clone(word)?,
            runs: 0,
            last: Vec::new(alloc),
        })
    }

    // How often it was told, and the bytes that it was told latest.
    pub(crate) fn told(&self) -> (u64, &[u8]) {
        (self.runs, &self.last)
    }
}

impl Release for Teller {
    ghost use Rattle.std.specs.Prelude.{Some};

    ghost runs = { λ t. t.runs };

    ghost last = { λ t. Some t.last.items };

    fn released(&mut self, bytes: Vec<u8>) {
        let mut sum = 1 << 32;
        for byte in &bytes {
            sum = u64::wrapping_add(sum, u64::from(*byte));
        }
        self.word.fetch_add(sum, Ordering::SeqCst);
        self.last = bytes;
        self.runs = self.runs.saturating_add(1);
    }
}
