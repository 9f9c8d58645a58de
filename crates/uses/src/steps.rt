//! A caller of the `Host` of `net_host`.
ghost use Rattle.std.specs.Prelude.{◌≡◌, ◌<◌, ◌^◌, length, IfOk};
ghost use Rattle.phy_layers.specs.PcapBytes.{epoch_micros, IsCapturable};
ghost use Rattle.host_model.specs.Anchor.{anchor_before};
ghost use Rattle.host_model.specs.Lease.{leased_under};
ghost use Rattle.uses.specs.Leasing.{leasing};

use net_host::{EventWords, HandleError, Host, HostConfig, ScriptEvent, no_queries};
use net_wire::{Instant, Ipv4Cidr};
use std::alloc::Global;

/// The address that is leased behind a tick, an offer and an acknowledgement, which come at one instant.
pub fn lease_behind(
    alloc: Global,
    config: &HostConfig<'_>,
    at: Instant,
    words: EventWords,
    offer: &[u8],
    acknowledgement: &[u8],
) -> Result<Option<Ipv4Cidr>, HandleError>
    requires time { IsCapturable at }
    requires offer { length offer.now < 2 ^ 16 }
    requires acknowledgement { length acknowledgement.now < 2 ^ 16 }
    ensures { IfOk result (λ lease. lease ≡ leased_under (anchor_before config.now
        (leasing config.now (epoch_micros at) words offer.now acknowledgement.now))) }
{
    let mut places = [None; 3];
    let mut slots = no_queries();
    let mut host = Host::new(alloc, config, &mut places, &mut slots);
    host.handle(at, ScriptEvent::Tick, words)?;
    host.handle(at, ScriptEvent::Frame(offer), words)?;
    host.handle(at, ScriptEvent::Frame(acknowledgement), words)?;
    Ok(host.lease())
}
