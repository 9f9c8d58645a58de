//! A device in memory: its frames are given, and what it sends is kept.
ghost use Rattle.std.specs.Prelude.{◌≡◌, ◌^◌, ◌<◌, ◌≤◌, [], ◌∷◌, ◌++◌, length, take, All, true, false, OnOk, OnErr, IfErr, IfSome, IfNone};
ghost use Rattle.phy_layers.specs.Calls.{no_calls};

use crate::capabilities::{DeviceCapabilities, DeviceError, Medium, PacketMeta};
use crate::{Device, FailingCalls, FrameBytes};
use net_wire::Instant;
use std::alloc::Global;
use std::marker::Model;

/// Gives frames in order, and keeps what is sent. Its calls fail by their numbers.
#[derive(Debug, Drop)]
pub struct MemoryDevice {
    medium: Medium,
    mtu: usize,
    /// All frames that it gives.
    arriving: Vec<FrameBytes>,
    /// The place of the next one.
    next: usize,
    sent: Vec<FrameBytes>,
    calls: FailingCalls,
}

impl Model for MemoryDevice {
    ghost use Rattle.std.specs.Prelude.{◌^◌, ◌<◌, ◌≤◌, All, drop, length};
    ghost use Rattle.phy_layers.specs.MemoryState.{MemoryState};

    ghost Value = { MemoryState };

    ghost view = { λ device. record {
      medium = device.medium;
      mtu = device.mtu;
      waiting = drop device.next device.arriving.items;
      sent = device.sent.items;
      calls = device.calls;
    } };

    ghost invariant = { λ device. (device.mtu < 2 ^ 32)
        × All (λ frame. length frame ≤ device.mtu) device.arriving.items };
}

impl MemoryDevice {
    /// A device that gives `arriving` in order, with the number 0 each. The calls of `receive` and
    /// `transmit` whose numbers, counted together from 1, are in `fails` fail.
    pub fn new(
        alloc: Global,
        medium: Medium,
        mtu: usize,
        arriving: Vec<FrameBytes>,
        fails: Vec<u64>,
    ) -> MemoryDevice
        requires mtu { mtu < 2 ^ 32 }
        requires within { All (λ frame. length frame ≤ mtu) arriving.items }
        ensures value { result ≡ record {
          medium = medium;
          mtu = mtu;
          waiting = arriving.items;
          sent = [];
          calls = no_calls fails.items;
        } }
    {
        MemoryDevice {
            medium,
            mtu,
            arriving,
            next: 0,
            sent: Vec::new(alloc),
            calls: FailingCalls::new(fails),
        }
    }

    /// All frames that were sent, in order.
    pub fn sent_frames(&self) -> &[FrameBytes]
        ensures value { result.now ≡ self.now.sent }
    {
        self.sent.as_slice()
    }
}

impl MemoryDevice {
    /// Takes the next frame, and answers its length.
    fn take_next(&mut self, into: &mut [u8]) -> Option<usize>
        requires { self.old.mtu ≤ length into.old }
        ensures some { IfSome result (λ len. (len ≤ self.old.mtu)
            × (self.old.waiting ≡ take len into.new ∷ self.new.waiting)
            × (self.new ≡ record self.old { waiting = self.new.waiting })) }
        ensures none { IfNone result ((self.old.waiting ≡ []) × (self.new ≡ self.old)) }
    {
        if self.next >= self.arriving.len() {
            return None;
        }
        let bytes = self.arriving[self.next].as_slice();
        let len = bytes.len();
        into[..len].copy_from_slice(bytes);
        self.next += 1;
        Some(len)
    }

    /// Keeps a frame that is sent.
    fn keep(&mut self, frame: &[u8]) -> Result<(), DeviceError>
        ensures ok { OnOk result (self.new
            ≡ record self.old { sent = self.old.sent ++ frame.now ∷ [] }) }
        ensures err { OnErr result (self.new ≡ self.old) }
        ensures memory { IfErr result (λ error. error ≡ DeviceError.NoMemory) }
    {
        let alloc = *self.sent.allocator();
        let Ok(frame) = FrameBytes::from_slice(alloc, frame) else {
            return Err(DeviceError::NoMemory);
        };
        match self.sent.push(frame) {
            Ok(()) => Ok(()),
            Err(_) => Err(DeviceError::NoMemory),
        }
    }
}

impl Device for MemoryDevice {
    ghost use Rattle.std.specs.Prelude.{◌⊎◌, Some};
    ghost use Rattle.phy_layers.specs.MemoryState.{memory_capabilities, MemoryGave, MemoryIdle, MemoryWent, MemoryFailed, MemoryFull};

    ghost waiting = { λ device. Some device.waiting };

    ghost sent = { λ device. Some device.sent };

    ghost faults = { λ device. device.calls.faults };

    ghost drops = { λ _. 0 };

    ghost takes = { memory_capabilities };

    ghost ready = { λ _. Unit {0} };

    ghost gave = { λ before after now frame meta. MemoryGave before after frame meta };

    ghost idle = { MemoryIdle };

    ghost lost_in = { λ before after now. ⊥ };

    ghost refused_in = { λ before after now. MemoryFailed before after };

    ghost went = { λ before after now frame meta. MemoryWent before after frame };

    ghost lost_out = { λ before after now frame. ⊥ };

    ghost refused_out = { λ before after now frame. MemoryFailed before after ⊎ MemoryFull before after };

    fn capabilities(&self) -> DeviceCapabilities {
        DeviceCapabilities {
            medium: self.medium,
            max_transmission_unit: self.mtu,
            max_receive: self.mtu,
        }
    }

    fn receive(
        &mut self,
        now: Instant,
        into: &mut [u8],
    ) -> Result<Option<(usize, PacketMeta)>, DeviceError> {
        let _ = now;
        if self.calls.next_fails() {
            return Err(DeviceError::Fault);
        }
        match self.take_next(into) {
            Some(len) => Ok(Some((len, PacketMeta { id: 0 }))),
            None => Ok(None),
        }
    }

    fn transmit(
        &mut self,
        now: Instant,
        meta: PacketMeta,
        frame: &[u8],
    ) -> Result<(), DeviceError> {
        let _ = (now, meta);
        if self.calls.next_fails() {
            return Err(DeviceError::Fault);
        }
        self.keep(frame)
    }
}
