//! The refusals of the containers.

/// There was no memory for a call that needs some.
#[derive(Clone, Copy, Debug, PartialEq, Eq, Drop)]
pub struct NoMemory;

/// Why a map did not take a pair.
#[derive(Clone, Copy, Debug, PartialEq, Eq, Drop)]
pub enum InsertError<K, V> {
    /// Borrowed storage has no empty place left: the pair comes back.
    Full(K, V),
    /// There was no memory for a new pair of an owned map: the pair is dropped.
    NoMemory,
}
