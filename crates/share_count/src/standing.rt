//! Whether others hold a storage.

/// What a look at a storage's word found.
#[derive(Debug, Clone, Copy, PartialEq, Eq)]
pub enum Standing {
    /// Nobody else holds the storage.
    Sole,
    /// Others may hold it: the weight of all live units as it was found.
    Shared { found: u64 },
}
