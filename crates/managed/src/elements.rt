//! The lists that a slot map keeps.
ghost use Rattle.std.specs.Prelude.{◌≡◌, ◌<◌, length, slice_get, slice_set};
ghost use Rattle.std.specs.Fn.{FnOnceTakesAtMut};
ghost use Rattle.std.specs.Option.{ForSome};
ghost use Rattle.managed.specs.Updates.{IsWrittenAt};
ghost use Rattle.managed.specs.Storage.{items_of};

use crate::ManagedSlice;

// The list of a caller, unless there is one of its own.
#[derive(Drop)]
pub(crate) struct Elements<'a, T> {
    pub(crate) borrowed: &'a mut [T],
    pub(crate) owned: Option<Vec<T>>,
}

impl<'a, T> Elements<'a, T> {
    ghost use Rattle.managed.specs.Elements.{elements_in};

    pub(crate) fn new(elements: ManagedSlice<'a, T>) -> Self
        ensures { elements_in result ≡ items_of elements.entry }
    {
        match elements {
            ManagedSlice::Borrowed(borrowed) => Elements {
                borrowed,
                owned: None,
            },
            ManagedSlice::Owned(items) => Elements {
                borrowed: &mut [],
                owned: Some(items),
            },
        }
    }

    pub(crate) fn as_slice(&self) -> &[T]
        ensures { result.now ≡ elements_in self.now }
    {
        match &self.owned {
            Some(items) => items.as_slice(),
            None => self.borrowed,
        }
    }

    // Writes an element, and nothing where there is none at the place.
    pub(crate) fn set(&mut self, index: usize, element: T)
    where
        T: Drop,
        ensures { elements_in self.new ≡ slice_set (elements_in self.old) index element }
    {
        match &mut self.owned {
            Some(items) => put(items, index, element),
            None => put(self.borrowed, index, element),
        }
    }
}

// Writes an item, and nothing where there is none at the place.
pub(crate) fn put<T: Drop>(items: &mut [T], index: usize, element: T)
    ensures { items.new ≡ slice_set items.old index element }
{
    if index < items.len() {
        items[index] = element;
    }
}

// Calls a closure at an item.
pub(crate) fn write_at<T, F: FnOnce(&mut T)>(items: &mut [T], index: usize, f: F)
    requires room { index < length items.old }
    requires callable { ForSome (slice_get items.old index) (FnOnceTakesAtMut F.FnOnce f) }
    ensures { IsWrittenAt F.FnOnce f items.old index items.new }
{
    f(&mut items[index]);
}
