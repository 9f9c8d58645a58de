//! A list, owned or borrowed.
ghost use Rattle.std.specs.Prelude.{◌≡◌, ◌<◌, length, slice_set, IfOk};
ghost use Rattle.std.specs.Borrow.{sem};
ghost use Rattle.managed.specs.ItemLoans.{lends_heap};
ghost use Rattle.managed.specs.Storage.{items_of, KeepsItemStorage};
ghost use Rattle.managed.specs.declared.slice.ManagedSlice.TheVariants.{Borrowed, Owned};

use crate::NoMemory;
use crate::elements::put;
use std::alloc::Global;
use std::fmt;

/// A list that is either owned or borrowed for writing.
#[derive(Drop)]
pub enum ManagedSlice<'a, T> {
    /// The list of a caller.
    Borrowed(&'a mut [T]),
    /// A list on the heap.
    Owned(Vec<T>),
}

impl<'a, T> From<&'a mut [T]> for ManagedSlice<'a, T> {
    ghost from_gives = { λ value managed. managed ≡ Borrowed value };

    fn from(value: &'a mut [T]) -> Self {
        ManagedSlice::Borrowed(value)
    }
}

impl<'a, T> From<Vec<T>> for ManagedSlice<'a, T> {
    ghost from_gives = { λ value managed. managed ≡ Owned value };

    fn from(value: Vec<T>) -> Self {
        ManagedSlice::Owned(value)
    }
}

impl<'a, T: fmt::Debug> fmt::Debug for ManagedSlice<'a, T> {
    fn fmt<W: fmt::Write>(&self, f: &mut fmt::Formatter<W>) -> fmt::Result {
        match self {
            ManagedSlice::Borrowed(items) => f.debug_tuple("Borrowed").field(items).finish(),
            ManagedSlice::Owned(items) => f.debug_tuple("Owned").field(items).finish(),
        }
    }
}

impl<'a, T> ManagedSlice<'a, T> {
    ghost use Rattle.managed.specs.ItemLoans.{lends_items};

    /// The items, to read.
    pub fn as_slice(&self) -> &[T]
        ensures value { result.now ≡ items_of self.now }
    {
        match self {
            ManagedSlice::Borrowed(items) => items,
            ManagedSlice::Owned(items) => items.as_slice(),
        }
    }

    /// The items, to read and write.
    pub fn as_mut_slice(&mut self) -> &mut [T]
        ensures* written { sem 𝓛 (lends_items T.row self.entry result) }
        ensures value { result.now ≡ items_of self.old }
    {
        match self {
            ManagedSlice::Borrowed(items) => items,
            ManagedSlice::Owned(items) => items_in(items),
        }
    }
}

// The items of a list on the heap.
fn items_in<T>(list: &mut Vec<T>) -> &mut [T]
    ensures* written { sem 𝓛 (lends_heap T.row list.entry result) }
    ensures value { result.now ≡ list.old.items }
{
    list.as_mut_slice()
}

impl<'a, T: Drop> ManagedSlice<'a, T> {
    /// Writes an item.
    pub fn set(&mut self, index: usize, item: T)
        requires { index < length (items_of self.old) }
        ensures written { items_of self.new ≡ slice_set (items_of self.old) index item }
        ensures within { KeepsItemStorage self.old self.new }
    {
        match self {
            ManagedSlice::Borrowed(items) => put(items, index, item),
            ManagedSlice::Owned(items) => put(items, index, item),
        }
    }
}

impl<'a, T: Copy> ManagedSlice<'a, T> {
    /// An owned list of the array's items, in its order.
    pub fn from_array<const N: usize>(
        alloc: Global,
        array: [T; N],
    ) -> Result<ManagedSlice<'a, T>, NoMemory>
        ensures value { IfOk result (λ list. items_of list ≡ array) }
    {
        match Vec::from_array(alloc, array) {
            Ok(items) => Ok(ManagedSlice::Owned(items)),
            Err(_) => Err(NoMemory),
        }
    }
}
