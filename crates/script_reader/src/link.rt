//! What stands between the reader of a script and the host that answers its events.
ghost use Rattle.std.specs.Prelude.{◌≡◌, ℕ, ◌<◌, List, [], ◌∷◌};
ghost use Rattle.host_model.specs.Script.{Event, IsArrival, time_limit};
ghost use Rattle.script_reader.specs.Reading.{arrival_with, event_with};

use crate::EventHead;

/// Makes of each event that is read the one that the host meets. It is told the id of the DHCP message that the host sent last, and
/// keeps the event's time.
pub trait Link {
    /// What the host meets of the events to come. The function says which id the host will have sent last, once it met some of them:
    /// what is met may hang on it.
    ghost makes: { Self → (List Event → ℕ) → List Event → List Event };

    /// Makes of an event the one that the host meets: its head is answered, and its bytes are changed in place. A frame that is
    /// dropped becomes a tick.
    fn meet(&mut self, last_id: u32, head: EventHead, brought: &mut [u8]) -> EventHead
        requires time { head.micros < time_limit }
        requires arrival { IsArrival (arrival_with head.kind brought.old) }
        ensures passes { (told : List Event → ℕ) → told [] ≡ last_id → (more : List Event)
            → makes self.old told (event_with head brought.old ∷ more)
            ≡ event_with result brought.new ∷ makes self.new (λ met. told (event_with result brought.new ∷ met)) more }
        ensures time { result.micros ≡ head.micros }
        ensures arrival { IsArrival (arrival_with result.kind brought.new) };

    /// Of no event it makes none.
    ghost ends: { (link : Self) (told : List Event → ℕ) → makes link told [] ≡ [] };
}

/// The host meets what is read.
#[derive(Clone, Copy, Debug)]
pub struct Direct;

impl Link for Direct {
    ghost use Rattle.std.specs.Prelude.{refl};

    ghost makes = { λ _ _ events. events };

    fn meet(&mut self, _last_id: u32, head: EventHead, _brought: &mut [u8]) -> EventHead {
        head
    }

    ghost ends = { λ _ _. refl };
}
