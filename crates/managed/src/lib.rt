//! Storage that a value either owns or borrows: one value, a list, a sorted map, and a table of slots.
#![tactic(auto)]

mod elements;
mod error;
pub mod laws;
mod map;
mod object;
mod slice;
mod slot_key;
mod slot_links;
mod slot_map;

pub use error::{InsertError, NoMemory};
pub use map::{
    Iter, Iter as ManagedMapIter, IterMut, IterMut as ManagedMapIterMut, ManagedMap, Range,
};
pub use object::Managed;
pub use slice::ManagedSlice;
pub use slot_key::{SlotIndex, SlotKey};
pub use slot_map::SlotMap;
