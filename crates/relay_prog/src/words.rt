use std::alloc::{AllocError, Global};
use std::env::FillError;
use std::rt::Env;

/// The words that the program was given, without its own name. What isn't UTF-8 in a word is replaced by U+FFFD, which
/// stands in no word of the grammar.
pub fn words<R: Env>(rt: &R, alloc: Global) -> Result<Vec<String>, AllocError> {
    let mut words = Vec::new(alloc);
    for i in 1..usize::MAX {
        match word(rt, alloc, i)? {
            Some(word) => words.push(word)?,
            None => break,
        }
    }
    Ok(words)
}

// One word, in a buffer that is doubled until the word fits.
fn word<R: Env>(rt: &R, alloc: Global, i: usize) -> Result<Option<String>, AllocError> {
    let mut size = 4096usize;
    for _ in 0..32 {
        let mut bytes = vec![in alloc; 0u8; size]?;
        match rt.arg(i, &mut bytes) {
            Ok(n) => return Ok(Some(String::from_utf8_lossy(alloc, &bytes[..n])?)),
            Err(FillError::NotPresent) => return Ok(None),
            Err(FillError::TooLong) => size = size.saturating_mul(2),
        }
    }
    Err(AllocError)
}
