//! A layer that captures frames.
ghost use Rattle.std.specs.Prelude.{◌≡◌, ◌⊎◌, ◌^◌, ◌<◌, ◌≤◌, length, Ok, Err, IfOk, IfErr, OnOk, OnErr, IsErrOf};
ghost use Rattle.std.specs.Borrow.{sem, follows};
ghost use Rattle.phy_layers.specs.Loans.{writer_with};
ghost use Rattle.phy_layers.specs.contracts.pcap_writer.PcapWriter.{the_row};
ghost use Rattle.wire_base.specs.Causes.{IsRisen};
ghost use Rattle.phy_layers.specs.Sink.{Took};
ghost use Rattle.phy_layers.specs.PcapBytes.{global_header, packet_record, epoch_micros, IsCapturable};
ghost use Rattle.phy_layers.specs.PcapLinkType.{link_type_number};
ghost use Rattle.phy_layers.specs.CaptureLayer.{medium_link_type, faults_of, Captured, CaptureGave, CaptureWent, CaptureStill, CaptureStopped, CaptureRefusedIn, CaptureRefusedOut};
ghost use Rattle.phy_layers.specs.declared.byte_sink.SinkError.{SinkError};

use crate::capabilities::{DeviceCapabilities, DeviceError, PacketMeta, TracerDirection};
use crate::capture_mode::{PcapMode, link_type_of};
use crate::{Device, PcapSink, SinkError};
use net_wire::Instant;

/// Captures frames on their way: a received one after it came, a sent one before it goes. A frame
/// whose record the sink refuses is lost, or not sent.
#[derive(Debug, Drop)]
pub struct PcapWriter<D, S> {
    lower: D,
    sink: S,
    mode: PcapMode,
}

/// A device and a sink that a capture could not begin with.
#[derive(Debug, Drop)]
pub struct PcapRefused<D, S> {
    pub error: SinkError,
    /// The device, as it was.
    pub lower: D,
    /// The sink, as the refusal left it.
    pub sink: S,
}

impl<D: Device, S: PcapSink> PcapWriter<D, S> {
    /// Begins a capture: the header, with the link type of the device's frames.
    pub fn new(lower: D, mut sink: S, mode: PcapMode) -> Result<PcapWriter<D, S>, PcapRefused<D, S>>
        ensures lower { IfOk result (λ writer. writer.lower ≡ lower) }
        ensures mode { IfOk result (λ writer. writer.mode ≡ mode) }
        ensures ok { IfOk result (λ writer. Took S.bytes S.faults S.grows (Ok tt)
            (global_header (link_type_number (medium_link_type (D.takes lower).medium))) sink writer.sink) }
        ensures back { IfErr result (λ refused. refused.lower ≡ lower) }
        ensures err { IfErr result (λ refused. Took S.bytes S.faults S.grows (Err refused.error)
            (global_header (link_type_number (medium_link_type (D.takes lower).medium))) sink refused.sink) }
    {
        match sink.global_header(link_type_of(lower.capabilities().medium)) {
            Ok(()) => Ok(PcapWriter { lower, sink, mode }),
            Err(error) => Err(PcapRefused { error, lower, sink }),
        }
    }

    pub fn get_ref(&self) -> &D
        ensures value { result.now ≡ self.now.lower }
    {
        &self.lower
    }

    /// The device, to be changed. The sink and the mode stay.
    pub fn get_mut(&mut self) -> &mut D
        ensures value { result.now ≡ self.old.lower }
        ensures* writes_back { sem 𝓛 (follows (the_row D.row S.row) D.row self.entry.ghost_name
            result.ghost_name (writer_with self.old)) }
    {
        &mut self.lower
    }

    pub fn sink(&self) -> &S
        ensures value { result.now ≡ self.now.sink }
    {
        &self.sink
    }
}

impl<D: Device, S: PcapSink> Device for PcapWriter<D, S> {
    ghost waiting = { λ layer. D.waiting layer.lower };

    ghost sent = { λ layer. D.sent layer.lower };

    ghost faults = { λ layer. faults_of (D.faults layer.lower) (S.faults layer.sink) };

    ghost drops = { λ layer. D.drops layer.lower };

    ghost takes = { λ layer. D.takes layer.lower };

    ghost gave = { λ before after now frame meta. CaptureGave D.gave S.bytes S.faults S.grows
        before.lower after.lower before.sink after.sink before.mode after.mode now frame meta };

    ghost went = { λ before after now frame meta. CaptureWent D.went S.bytes S.faults S.grows
        before.lower after.lower before.sink after.sink before.mode after.mode now frame meta };

    ghost ready = { λ layer. D.ready layer.lower };

    ghost idle = { λ before after. CaptureStill D.idle before.lower after.lower before.sink after.sink
        before.mode after.mode };

    ghost lost_in = { λ before after now. CaptureStill (λ old new. D.lost_in old new now) before.lower
        after.lower before.sink after.sink before.mode after.mode };

    ghost refused_in = { λ before after now. CaptureStill (λ old new. D.refused_in old new now)
        before.lower after.lower before.sink after.sink before.mode after.mode
        ⊎ CaptureRefusedIn D.gave S.bytes S.faults S.grows before.lower after.lower before.sink
        after.sink before.mode after.mode now };

    ghost lost_out = { λ before after now frame. CaptureStopped D.lost_out S.bytes S.faults S.grows
        before.lower after.lower before.sink after.sink before.mode after.mode now frame };

    ghost refused_out = { λ before after now frame. CaptureStopped D.refused_out S.bytes S.faults
        S.grows before.lower after.lower before.sink after.sink before.mode after.mode now frame
        ⊎ CaptureRefusedOut S.bytes S.faults S.grows before.lower after.lower before.sink after.sink
        before.mode after.mode now frame };

    fn capabilities(&self) -> DeviceCapabilities {
        self.lower.capabilities()
    }

    fn receive(
        &mut self,
        now: Instant,
        into: &mut [u8],
    ) -> Result<Option<(usize, PacketMeta)>, DeviceError> {
        let limit = self.lower.capabilities().max_receive;
        let Some((len, meta)) = self.lower.receive(now, into)? else {
            return Ok(None);
        };
        prove!(len <= limit);
        capture(
            &mut self.sink,
            self.mode,
            TracerDirection::RX,
            now,
            &into[..len],
        )?;
        Ok(Some((len, meta)))
    }

    fn transmit(
        &mut self,
        now: Instant,
        meta: PacketMeta,
        frame: &[u8],
    ) -> Result<(), DeviceError> {
        let limit = self.lower.capabilities().max_transmission_unit;
        prove!(frame.len() <= limit);
        capture(&mut self.sink, self.mode, TracerDirection::TX, now, frame)?;
        self.lower.transmit(now, meta, frame)
    }
}

/// Captures a frame, where frames that go its way are captured.
fn capture<S: PcapSink>(
    sink: &mut S,
    mode: PcapMode,
    direction: TracerDirection,
    now: Instant,
    frame: &[u8],
) -> Result<(), DeviceError>
    requires time { IsCapturable now }
    requires size { length frame.now < 2 ^ 32 }
    ensures captured { OnOk result (Captured S.bytes S.faults S.grows mode direction now frame.now
        sink.old sink.new) }
    ensures refused { OnErr result ((error : SinkError) × Took S.bytes S.faults S.grows (Err error)
        (packet_record (epoch_micros now) frame.now) sink.old sink.new) }
    ensures quiet { OnOk result (S.faults sink.new ≡ S.faults sink.old) }
    ensures later { S.faults sink.old ≤ S.faults sink.new }
    ensures fault { IsErrOf result DeviceError.Fault → IsRisen (S.faults sink.old) (S.faults sink.new) }
{
    if !mode.captures(direction) {
        return Ok(());
    }
    match sink.packet(now, frame) {
        Ok(()) => Ok(()),
        Err(SinkError::Fault) => Err(DeviceError::Fault),
        Err(SinkError::NoMemory) => Err(DeviceError::NoMemory),
    }
}
