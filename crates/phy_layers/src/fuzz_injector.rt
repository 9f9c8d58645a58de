//! A layer that hands each frame to a fuzzer.
ghost use Rattle.std.specs.Prelude.{◌≡◌};
ghost use Rattle.phy_layers.specs.FaultLayer.{limited};
ghost use Rattle.phy_layers.specs.FuzzLayer.{FuzzGave, FuzzWent, FuzzStill, FuzzStopped};

use crate::Device;
use crate::capabilities::{DeviceCapabilities, DeviceError, PacketMeta};
use crate::fault_rule::MTU;
use crate::fuzzer::Fuzzer;
use net_wire::Instant;

/// Lets a fuzzer change each frame: a received one after it came, a sent one before it goes.
#[derive(Debug, Drop)]
pub struct FuzzInjector<D, FTx, FRx> {
    inner: D,
    fuzz_tx: FTx,
    fuzz_rx: FRx,
}

impl<D: Device, FTx: Fuzzer, FRx: Fuzzer> FuzzInjector<D, FTx, FRx> {
    pub fn new(inner: D, fuzz_tx: FTx, fuzz_rx: FRx) -> FuzzInjector<D, FTx, FRx>
        ensures value { result ≡ record { inner = inner; fuzz_tx = fuzz_tx; fuzz_rx = fuzz_rx } }
    {
        FuzzInjector {
            inner,
            fuzz_tx,
            fuzz_rx,
        }
    }
}

impl<D: Device, FTx: Fuzzer + Drop, FRx: Fuzzer + Drop> FuzzInjector<D, FTx, FRx> {
    pub fn into_inner(self) -> D
        ensures value { result ≡ self.inner }
    {
        self.inner
    }
}

impl<D: Device, FTx: Fuzzer, FRx: Fuzzer> Device for FuzzInjector<D, FTx, FRx> {
    ghost waiting = { λ layer. D.waiting layer.inner };

    ghost sent = { λ layer. D.sent layer.inner };

    ghost faults = { λ layer. D.faults layer.inner };

    ghost drops = { λ layer. D.drops layer.inner };

    ghost takes = { λ layer. limited (D.takes layer.inner) };

    ghost gave = { λ before after now frame meta. FuzzGave D.gave FRx.fuzzed before.inner
        after.inner before.fuzz_tx after.fuzz_tx before.fuzz_rx after.fuzz_rx now frame meta };

    ghost went = { λ before after now frame meta. FuzzWent D.went FTx.fuzzed before.inner
        after.inner before.fuzz_tx after.fuzz_tx before.fuzz_rx after.fuzz_rx now frame meta };

    ghost ready = { λ layer. D.ready layer.inner };

    ghost idle = { λ before after. FuzzStill D.idle before.inner after.inner
        before.fuzz_tx after.fuzz_tx before.fuzz_rx after.fuzz_rx };

    ghost lost_in = { λ before after now. FuzzStill (λ old new. D.lost_in old new now) before.inner
        after.inner before.fuzz_tx after.fuzz_tx before.fuzz_rx after.fuzz_rx };

    ghost refused_in = { λ before after now. FuzzStill (λ old new. D.refused_in old new now)
        before.inner after.inner before.fuzz_tx after.fuzz_tx before.fuzz_rx after.fuzz_rx };

    ghost lost_out = { λ before after now frame. FuzzStopped D.lost_out FTx.fuzzed before.inner
        after.inner before.fuzz_tx after.fuzz_tx before.fuzz_rx after.fuzz_rx now frame };

    ghost refused_out = { λ before after now frame. FuzzStopped D.refused_out FTx.fuzzed before.inner
        after.inner before.fuzz_tx after.fuzz_tx before.fuzz_rx after.fuzz_rx now frame };

    fn capabilities(&self) -> DeviceCapabilities {
        let inner = self.inner.capabilities();
        DeviceCapabilities {
            max_transmission_unit: inner.max_transmission_unit.min(MTU),
            ..inner
        }
    }

    fn receive(
        &mut self,
        now: Instant,
        into: &mut [u8],
    ) -> Result<Option<(usize, PacketMeta)>, DeviceError> {
        let Some((len, meta)) = self.inner.receive(now, into)? else {
            return Ok(None);
        };
        self.fuzz_rx.fuzz_packet(&mut into[..len]);
        Ok(Some((len, meta)))
    }

    fn transmit(
        &mut self,
        now: Instant,
        meta: PacketMeta,
        frame: &[u8],
    ) -> Result<(), DeviceError> {
        let mut buffer = [0; MTU];
        let handed = &mut buffer[..frame.len()];
        handed.copy_from_slice(frame);
        self.fuzz_tx.fuzz_packet(handed);
        self.inner.transmit(now, meta, handed)
    }
}
