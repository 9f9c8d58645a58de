//! The keys of a slot map, and the slots that it keeps them in.
ghost use Rattle.std.specs.Prelude.{◌≡◌};

/// A key of a slot map: a place, and the generation at which it was handed out.
#[derive(Clone, Copy, Debug, PartialEq, Eq, Hash)]
pub struct SlotKey {
    pub(crate) place: usize,
    pub(crate) generation: u64,
}

impl Default for SlotKey {
    /// The key that an unused slot map hands out first.
    fn default() -> Self
        ensures place { result.place ≡ 0 }
        ensures generation { result.generation ≡ 1 }
    {
        SlotKey {
            place: 0,
            generation: 1,
        }
    }
}

/// What a slot map notes of one place, in storage that its user gives.
#[derive(Clone, Copy, Debug, PartialEq, Eq, Hash)]
pub struct SlotIndex {
    pub(crate) state: SlotState,
}

#[derive(Clone, Copy, Debug, PartialEq, Eq, Hash)]
pub(crate) enum SlotState {
    // A free place, and the one that was freed before it, if one was.
    Free(usize),
    // The generation at which the place was handed out.
    InUse(u64),
}

impl Default for SlotIndex {
    fn default() -> Self {
        SlotIndex {
            state: SlotState::Free(0),
        }
    }
}
