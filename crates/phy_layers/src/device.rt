//! What frames are received from and sent to.
ghost use Rattle.std.specs.Prelude.{◌≡◌, ℕ, ◌^◌, ◌<◌, ◌≤◌, List, Option, length, ℤ};
ghost use Rattle.phy_layers.specs.Device.{Received, Transmitted};
ghost use Rattle.phy_layers.specs.PcapBytes.{IsCapturable};
ghost use Rattle.phy_layers.specs.declared.capabilities.DeviceCapabilities.{DeviceCapabilities};
ghost use Rattle.phy_layers.specs.declared.capabilities.PacketMeta.{PacketMeta};

use crate::capabilities::{DeviceCapabilities, DeviceError, PacketMeta};
use net_wire::Instant;

/// A device that frames come from and go to, or a layer over one.
pub trait Device {
    /// The frames that wait to be received, the next one first, where the device tells them.
    ghost waiting: { Self → Option (List (List ℕ)) };

    /// The frames that were sent, the latest one last, where the device tells them.
    ghost sent: { Self → Option (List (List ℕ)) };

    /// How often the outside failed. A count that stands at the last value of a `u64` stays there.
    ghost faults: { Self → ℕ };

    /// How many frames were dropped.
    ghost drops: { Self → ℕ };

    /// What the device takes and gives.
    ghost takes: { Self → DeviceCapabilities };

    /// Whether its calls can be made: the closures of all layers may be called.
    ghost ready: { Self → Type 0 };

    /// The device before and after a call at a moment that gave a frame.
    ghost gave: { Self → Self → ℤ → List ℕ → PacketMeta → Type 0 };

    /// The device before and after a call that found no frame.
    ghost idle: { Self → Self → Type 0 };

    /// The device before and after a call at a moment that dropped what was received.
    ghost lost_in: { Self → Self → ℤ → Type 0 };

    /// The device before and after a call at a moment that refused to receive.
    ghost refused_in: { Self → Self → ℤ → Type 0 };

    /// The device before and after a call at a moment that sent a frame.
    ghost went: { Self → Self → ℤ → List ℕ → PacketMeta → Type 0 };

    /// The device before and after a call at a moment that dropped what was to be sent.
    ghost lost_out: { Self → Self → ℤ → List ℕ → Type 0 };

    /// The device before and after a call at a moment that refused to send a frame.
    ghost refused_out: { Self → Self → ℤ → List ℕ → Type 0 };

    fn capabilities(&self) -> DeviceCapabilities
        ensures value { result ≡ takes self.now }
        ensures receive { result.max_receive < 2 ^ 32 }
        ensures transmit { result.max_transmission_unit < 2 ^ 32 };

    /// Writes the next frame to the front of `into`, and answers its length. `None` says that no
    /// frame waits, or that it was dropped.
    fn receive(
        &mut self,
        now: Instant,
        into: &mut [u8],
    ) -> Result<Option<(usize, PacketMeta)>, DeviceError>
        requires ready { ready self.old }
        requires time { IsCapturable now }
        requires room { (takes self.old).max_receive ≤ length into.old }
        ensures received { Received waiting sent faults drops takes gave idle lost_in refused_in
            result now into.new self.old self.new }
        ensures ready { ready self.new };

    /// Sends a frame. `Ok` also where a layer dropped it.
    fn transmit(&mut self, now: Instant, meta: PacketMeta, frame: &[u8]) -> Result<(), DeviceError>
        requires ready { ready self.old }
        requires time { IsCapturable now }
        requires size { length frame.now ≤ (takes self.old).max_transmission_unit }
        ensures transmitted { Transmitted waiting faults drops takes went lost_out refused_out result
            now meta frame.now self.old self.new }
        ensures ready { ready self.new };
}
