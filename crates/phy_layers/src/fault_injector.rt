//! A layer that disturbs a link: it drops frames and flips bits.
ghost use Rattle.std.specs.Prelude.{◌≡◌, ◌⊎◌, ◌<◌, ◌≤◌, ◌^◌, length, min, pos, IfOk, OnErr, IsNone, IsErr};
ghost use Rattle.std.specs.Borrow.{sem, follows};
ghost use Rattle.wire_base.specs.Causes.{IsRisen};
ghost use Rattle.phy_layers.specs.Device.{Received, Transmitted};
ghost use Rattle.phy_layers.specs.FaultRule.{IsFateOf, flip};
ghost use Rattle.phy_layers.specs.FaultLayer.{fresh_layer, outcome_at, layer_after, limited, drops_of, FaultGave, FaultWent, FaultIdle, FaultLostIn, FaultLostOut, FaultRefusedIn, FaultRefusedOut};
ghost use Rattle.phy_layers.specs.Loans.{injector_with};
ghost use Rattle.phy_layers.specs.PcapBytes.{IsCapturable};
ghost use Rattle.phy_layers.specs.contracts.fault_injector.FaultInjector.{the_row};
ghost use Rattle.phy_layers.specs.declared.capabilities.TracerDirection.{TracerDirection};
ghost use Rattle.phy_layers.specs.declared.fault_rule.Fate.{Fate};

use crate::Device;
use crate::capabilities::{DeviceCapabilities, DeviceError, PacketMeta, TracerDirection};
use crate::fault_layer::FaultLayer;
use crate::fault_rule::{Fate, MTU, flip_bit, meet_fate};
use net_wire::{Duration, Instant};

/// Lets each frame of a device meet the fault rule (`fault_rule`).
#[derive(Debug, Drop)]
pub struct FaultInjector<D> {
    inner: D,
    layer: FaultLayer,
}

impl<D: Device> FaultInjector<D> {
    /// A layer that disturbs nothing yet.
    pub fn new(inner: D, seed: u32) -> FaultInjector<D>
        ensures inner { result.inner ≡ inner }
        ensures layer { result.layer ≡ fresh_layer seed }
    {
        FaultInjector {
            inner,
            layer: FaultLayer::new(seed),
        }
    }

    pub fn into_inner(self) -> D
        ensures value { result ≡ self.inner }
    {
        self.inner
    }

    /// The device, to be changed. The layer's own part stays.
    pub fn get_mut(&mut self) -> &mut D
        ensures value { result.now ≡ self.old.inner }
        ensures* writes_back { sem 𝓛 (follows (the_row D.row) D.row self.entry.ghost_name
            result.ghost_name (injector_with self.old)) }
    {
        &mut self.inner
    }

    /// The chance that a frame has a bit flipped, in percent.
    pub fn corrupt_chance(&self) -> u8
        ensures value { result ≡ self.now.layer.settings.corrupt_chance }
    {
        self.layer.settings.corrupt_chance
    }

    /// The chance that a frame is dropped, in percent.
    pub fn drop_chance(&self) -> u8
        ensures value { result ≡ self.now.layer.settings.drop_chance }
    {
        self.layer.settings.drop_chance
    }

    /// The most bytes of a frame that passes; 0 is no limit.
    pub fn max_packet_size(&self) -> usize
        ensures value { result ≡ self.now.layer.settings.max_packet_size }
    {
        self.layer.settings.max_packet_size
    }

    /// How many frames are sent from one refill to the next; 0 is no limit.
    pub fn max_tx_rate(&self) -> u64
        ensures value { result ≡ self.now.layer.settings.max_tx_rate }
    {
        self.layer.settings.max_tx_rate
    }

    /// How many frames are received from one refill to the next; 0 is no limit.
    pub fn max_rx_rate(&self) -> u64
        ensures value { result ≡ self.now.layer.settings.max_rx_rate }
    {
        self.layer.settings.max_rx_rate
    }

    /// The time from one refill to the next.
    pub fn bucket_interval(&self) -> Duration
        ensures value { result ≡ self.now.layer.settings.bucket_interval }
    {
        self.layer.settings.bucket_interval
    }

    pub fn set_corrupt_chance(&mut self, pct: u8)
        requires { pct ≤ 100 }
        ensures value { self.new ≡ record self.old {
          layer = record self.old.layer {
            settings = record self.old.layer.settings { corrupt_chance = pct };
          };
        } }
    {
        self.layer.settings.corrupt_chance = pct;
    }

    pub fn set_drop_chance(&mut self, pct: u8)
        requires { pct ≤ 100 }
        ensures value { self.new ≡ record self.old {
          layer = record self.old.layer {
            settings = record self.old.layer.settings { drop_chance = pct };
          };
        } }
    {
        self.layer.settings.drop_chance = pct;
    }

    pub fn set_max_packet_size(&mut self, size: usize)
        ensures value { self.new ≡ record self.old {
          layer = record self.old.layer {
            settings = record self.old.layer.settings { max_packet_size = size };
          };
        } }
    {
        self.layer.settings.max_packet_size = size;
    }

    pub fn set_max_tx_rate(&mut self, rate: u64)
        ensures value { self.new ≡ record self.old {
          layer = record self.old.layer {
            settings = record self.old.layer.settings { max_tx_rate = rate };
          };
        } }
    {
        self.layer.settings.max_tx_rate = rate;
    }

    pub fn set_max_rx_rate(&mut self, rate: u64)
        ensures value { self.new ≡ record self.old {
          layer = record self.old.layer {
            settings = record self.old.layer.settings { max_rx_rate = rate };
          };
        } }
    {
        self.layer.settings.max_rx_rate = rate;
    }

    /// Sets the time from one refill to the next, and the last refill to moment 0.
    pub fn set_bucket_interval(&mut self, interval: Duration)
        ensures value { self.new ≡ record self.old {
          layer = record self.old.layer {
            settings = record self.old.layer.settings { bucket_interval = interval };
            state = record self.old.layer.state { refilled_at = pos 0 };
          };
        } }
    {
        self.layer.settings.bucket_interval = interval;
        self.layer.state.refilled_at = Instant::ZERO;
    }
}

impl<D: Device> Device for FaultInjector<D> {
    ghost waiting = { λ layer. D.waiting layer.inner };

    ghost sent = { λ layer. D.sent layer.inner };

    ghost faults = { λ layer. D.faults layer.inner };

    ghost drops = { λ layer. drops_of (D.drops layer.inner) layer.layer };

    ghost takes = { λ layer. limited (D.takes layer.inner) };

    ghost gave = { λ before after now frame meta. FaultGave D.gave before.inner after.inner
        before.layer after.layer now frame meta };

    ghost ready = { λ layer. D.ready layer.inner };

    ghost idle = { λ before after. FaultIdle D.idle before.inner after.inner before.layer after.layer };

    ghost refused_in = { λ before after now. FaultRefusedIn D.refused_in before.inner after.inner
        before.layer after.layer now };

    ghost refused_out = { λ before after now frame. FaultRefusedOut D.refused_out before.inner
        after.inner before.layer after.layer now frame };

    ghost went = { λ before after now frame meta. FaultWent D.went before.inner after.inner
        before.layer after.layer now frame meta };

    ghost lost_in = { λ before after now. FaultLostIn D.gave D.lost_in before.inner after.inner
        before.layer after.layer now };

    ghost lost_out = { λ before after now frame. FaultLostOut D.lost_out before.inner after.inner
        before.layer after.layer now frame };

    fn capabilities(&self) -> DeviceCapabilities {
        let inner = self.inner.capabilities();
        DeviceCapabilities {
            max_transmission_unit: inner.max_transmission_unit.min(MTU),
            ..inner
        }
    }

    fn receive(
        &mut self,
        now: Instant,
        into: &mut [u8],
    ) -> Result<Option<(usize, PacketMeta)>, DeviceError> {
        let Some((len, meta)) = self.inner.receive(now, into)? else {
            return Ok(None);
        };
        let fate = self.layer.meet(TracerDirection::RX, now, len);
        if !meet_fate(fate, &mut into[..len]) {
            return Ok(None);
        }
        Ok(Some((len, meta)))
    }

    fn transmit(
        &mut self,
        now: Instant,
        meta: PacketMeta,
        frame: &[u8],
    ) -> Result<(), DeviceError> {
        match self.layer.meet(TracerDirection::TX, now, frame.len()) {
            Fate::Dropped => Ok(()),
            Fate::Whole => self.inner.transmit(now, meta, frame),
            Fate::Flipped { at, bit } => {
                transmit_flipped(&mut self.inner, now, meta, frame, (at, bit))
            }
        }
    }
}

/// Sends a frame with one bit flipped.
fn transmit_flipped<D: Device>(
    inner: &mut D,
    now: Instant,
    meta: PacketMeta,
    frame: &[u8],
    place: (usize, u32),
) -> Result<(), DeviceError>
    requires ready { D.ready inner.old }
    requires time { IsCapturable now }
    requires size { length frame.now ≤ (D.takes inner.old).max_transmission_unit }
    requires limit { length frame.now ≤ 1536 }
    requires at { place.0 < length frame.now }
    requires bit { place.1 < 8 }
    ensures transmitted { Transmitted D.waiting D.faults D.drops D.takes D.went D.lost_out D.refused_out
        result now meta (flip frame.now place.0 place.1) inner.old inner.new }
    ensures ready { D.ready inner.new }
{
    let (at, bit) = place;
    let mut buffer = [0; MTU];
    let passed = &mut buffer[..frame.len()];
    passed.copy_from_slice(frame);
    flip_bit(passed, at, bit);
    inner.transmit(now, meta, passed)
}
