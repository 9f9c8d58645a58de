//! A link that disturbs.
ghost use Rattle.std.specs.Prelude.{◌≡◌, refl};
ghost use Rattle.host_disturb.specs.Disturber.{disturber_of, makes_of};

use crate::FaultValues;
use net_wire::Instant;
use phy_layers::{FaultLayer, FaultSettings, TracerDirection, meet_fate};
use script_reader::{EventHead, EventKind, Link};

/// Lets each frame meet the fault rule on its way in, and leaves a tick of one that is dropped. It takes no memory.
#[derive(Clone, Copy, Debug)]
pub struct Disturber {
    layer: FaultLayer,
}

impl Disturber {
    /// The link before any event.
    pub fn new(faults: &FaultValues) -> Disturber
        ensures value { result ≡ disturber_of faults.now }
    {
        let mut layer = FaultLayer::new(faults.seed);
        layer.settings = FaultSettings {
            corrupt_chance: faults.corrupt_chance,
            drop_chance: faults.drop_chance,
            max_packet_size: faults.max_size,
            max_tx_rate: faults.rate,
            max_rx_rate: faults.rate,
            bucket_interval: faults.interval,
        };
        Disturber { layer }
    }
}

impl Link for Disturber {
    ghost makes = { makes_of };

    fn meet(&mut self, _last_id: u32, head: EventHead, brought: &mut [u8]) -> EventHead {
        match head.kind {
            EventKind::Frame => {
                let at = Instant::from_micros(head.micros as i64);
                let fate = self.layer.meet(TracerDirection::RX, at, brought.len());
                if meet_fate(fate, brought) {
                    head
                } else {
                    EventHead {
                        kind: EventKind::Tick,
                        micros: head.micros,
                    }
                }
            }
            EventKind::Tick | EventKind::Reset | EventKind::Query(_) => head,
        }
    }

    ghost ends = { λ _ _. refl };
}
