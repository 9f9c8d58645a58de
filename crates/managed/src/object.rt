//! One value, owned or borrowed.
ghost use Rattle.std.specs.Prelude.{◌≡◌};
ghost use Rattle.std.specs.Borrow.{sem};
ghost use Rattle.managed.specs.Storage.{value_of};
ghost use Rattle.managed.specs.declared.object.Managed.TheVariants.{Borrowed, Owned};

use std::fmt;
use std::ops::{Deref, DerefMut};

/// A value that is either owned or borrowed for writing.
#[derive(Drop)]
pub enum Managed<'a, T> {
    /// The value of a caller.
    Borrowed(&'a mut T),
    /// A value on the heap.
    Owned(Box<T>),
}

impl<'a, T> From<&'a mut T> for Managed<'a, T> {
    ghost from_gives = { λ value managed. managed ≡ Borrowed value };

    fn from(value: &'a mut T) -> Self {
        Managed::Borrowed(value)
    }
}

impl<'a, T> From<Box<T>> for Managed<'a, T> {
    ghost from_gives = { λ value managed. managed ≡ Owned value };

    fn from(value: Box<T>) -> Self {
        Managed::Owned(value)
    }
}

impl<'a, T: fmt::Debug> fmt::Debug for Managed<'a, T> {
    fn fmt<W: fmt::Write>(&self, f: &mut fmt::Formatter<W>) -> fmt::Result {
        match self {
            Managed::Borrowed(value) => f.debug_tuple("Borrowed").field(value).finish(),
            Managed::Owned(value) => f.debug_tuple("Owned").field(value).finish(),
        }
    }
}

impl<'a, T> Deref for Managed<'a, T> {
    type Target = T;

    ghost deref_gives = { λ managed value. value ≡ value_of managed };

    fn deref(&self) -> &T {
        match self {
            Managed::Borrowed(value) => value,
            Managed::Owned(value) => value,
        }
    }
}

impl<'a, T> DerefMut for Managed<'a, T> {
    ghost use Rattle.managed.specs.Loans.{lends_value};

    ghost deref_mut_gives = { λ managed value. value ≡ value_of managed };

    fn deref_mut(&mut self) -> &mut T
        ensures* written { sem 𝓛 (lends_value T.row self.entry result) }
        ensures value { result.now ≡ value_of self.old }
    {
        match self {
            Managed::Borrowed(value) => value,
            Managed::Owned(value) => value,
        }
    }
}
