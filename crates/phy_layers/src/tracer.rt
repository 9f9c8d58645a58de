//! A layer that shows each frame to a closure.
ghost use Rattle.std.specs.Prelude.{◌≡◌};
ghost use Rattle.std.specs.Borrow.{sem, follows};
ghost use Rattle.phy_layers.specs.Loans.{tracer_with};
ghost use Rattle.phy_layers.specs.contracts.tracer.Tracer.{the_row};
ghost use Rattle.phy_layers.specs.TracerLayer.{Shown, TracerGave, TracerWent, TracerStill, TracerStopped};

use crate::Device;
use crate::capabilities::{DeviceCapabilities, DeviceError, Medium, PacketMeta, TracerDirection};
use crate::tracer_packet::TracerPacket;
use net_wire::Instant;

/// Shows each frame once: a received one after it came, a sent one before it goes.
#[derive(Drop)]
pub struct Tracer<D, F> {
    inner: D,
    writer: F,
}

impl<D: Device, F: FnMut(Instant, &TracerPacket<'_>)> Tracer<D, F> {
    /// A tracer is ready where its closure may be called on every packet.
    pub fn new(inner: D, writer: F) -> Tracer<D, F>
        ensures inner { result.inner ≡ inner }
        ensures writer { result.writer ≡ writer }
    {
        Tracer { inner, writer }
    }

    pub fn get_ref(&self) -> &D
        ensures value { result.now ≡ self.now.inner }
    {
        &self.inner
    }

    /// The device, to be changed. The closure stays.
    pub fn get_mut(&mut self) -> &mut D
        ensures value { result.now ≡ self.old.inner }
        ensures* writes_back { sem 𝓛 (follows (the_row D.row F.row) D.row self.entry.ghost_name
            result.ghost_name (tracer_with self.old)) }
    {
        &mut self.inner
    }
}

impl<D: Device, F: FnMut(Instant, &TracerPacket<'_>) + Drop> Tracer<D, F> {
    pub fn into_inner(self) -> D
        ensures value { result ≡ self.inner }
    {
        self.inner
    }
}

impl<D: Device, F: FnMut(Instant, &TracerPacket<'_>)> Device for Tracer<D, F> {
    ghost waiting = { λ layer. D.waiting layer.inner };

    ghost sent = { λ layer. D.sent layer.inner };

    ghost faults = { λ layer. D.faults layer.inner };

    ghost drops = { λ layer. D.drops layer.inner };

    ghost takes = { λ layer. D.takes layer.inner };

    ghost gave = { λ before after now frame meta. TracerGave D.gave F.step
        (D.takes before.inner).medium before.inner after.inner before.writer after.writer now frame meta };

    ghost went = { λ before after now frame meta. TracerWent D.went F.step
        (D.takes before.inner).medium before.inner after.inner before.writer after.writer now frame meta };

    ghost ready = { λ layer. D.ready layer.inner × F.IsAlwaysCallable layer.writer };

    ghost idle = { λ before after. TracerStill D.idle before.inner after.inner before.writer after.writer };

    ghost lost_in = { λ before after now. TracerStill (λ old new. D.lost_in old new now) before.inner
        after.inner before.writer after.writer };

    ghost refused_in = { λ before after now. TracerStill (λ old new. D.refused_in old new now)
        before.inner after.inner before.writer after.writer };

    ghost lost_out = { λ before after now frame. TracerStopped D.lost_out F.step
        (D.takes before.inner).medium before.inner after.inner before.writer after.writer now frame };

    ghost refused_out = { λ before after now frame. TracerStopped D.refused_out F.step
        (D.takes before.inner).medium before.inner after.inner before.writer after.writer now frame };

    fn capabilities(&self) -> DeviceCapabilities {
        self.inner.capabilities()
    }

    fn receive(
        &mut self,
        now: Instant,
        into: &mut [u8],
    ) -> Result<Option<(usize, PacketMeta)>, DeviceError> {
        let medium = self.inner.capabilities().medium;
        let Some((len, meta)) = self.inner.receive(now, into)? else {
            return Ok(None);
        };
        show(
            &mut self.writer,
            now,
            &into[..len],
            medium,
            TracerDirection::RX,
        );
        Ok(Some((len, meta)))
    }

    fn transmit(
        &mut self,
        now: Instant,
        meta: PacketMeta,
        frame: &[u8],
    ) -> Result<(), DeviceError> {
        let medium = self.inner.capabilities().medium;
        show(&mut self.writer, now, frame, medium, TracerDirection::TX);
        self.inner.transmit(now, meta, frame)
    }
}

/// Calls the closure once, on a frame.
fn show<F: FnMut(Instant, &TracerPacket<'_>)>(
    writer: &mut F,
    now: Instant,
    buffer: &[u8],
    medium: Medium,
    direction: TracerDirection,
)
    requires { F.IsAlwaysCallable writer.old }
    ensures shown { Shown F.step writer.old writer.new now buffer.now medium direction }
    ensures again { F.IsAlwaysCallable writer.new }
{
    let packet = TracerPacket {
        buffer,
        medium,
        direction,
    };
    writer(now, &packet);
}
