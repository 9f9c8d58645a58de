//! Layers over a device in memory: what reached the device is read off the relations of the layers.
ghost use Rattle.std.specs.Prelude.{◌≡◌, ◌⊎◌, ◌≤◌, length, OnOk, min};
ghost use Rattle.wire_base.specs.Causes.{IsRisen};
ghost use Rattle.phy_layers.specs.PcapBytes.{IsCapturable};
ghost use Rattle.uses.specs.Reached.{Reached};

use net_wire::Instant;
use phy_layers::{
    Device, DeviceError, FaultInjector, FuzzInjector, Fuzzer, MemoryDevice, PacketMeta, Tracer,
    TracerPacket,
};

/// A tracer over a fault injector over a fuzzer over a device in memory.
pub type Bench<F, FTx, FRx> = Tracer<FaultInjector<FuzzInjector<MemoryDevice, FTx, FRx>>, F>;

/// Sends a frame through the three layers. Unless the fault rule dropped it, the closure saw it as
/// it was handed in, the rule made something of it, the fuzzer something of that, and this alone
/// joined what the device sent.
pub fn send_through<F: FnMut(Instant, &TracerPacket<'_>), FTx: Fuzzer, FRx: Fuzzer>(
    bench: &mut Bench<F, FTx, FRx>,
    now: Instant,
    frame: &[u8],
) -> Result<(), DeviceError>
    requires callable { F.IsAlwaysCallable bench.old.writer }
    requires time { IsCapturable now }
    requires size { length frame.now ≤ min (min bench.old.inner.inner.inner.mtu 1536) 1536 }
    ensures reached { OnOk result (Reached F.step FTx.fuzzed bench.old.inner.layer
        bench.old.inner.inner.inner.medium now frame.now bench.old.writer bench.new.writer
        bench.old.inner.inner.fuzz_tx bench.new.inner.inner.fuzz_tx
        bench.old.inner.inner.inner.sent bench.new.inner.inner.inner.sent
        ⊎ IsRisen bench.old.inner.layer.dropped bench.new.inner.layer.dropped) }
{
    bench.transmit(now, PacketMeta { id: 0 }, frame)
}
