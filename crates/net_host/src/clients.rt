//! What a host does with its clients in an event.
ghost use Rattle.std.specs.Prelude.{◌≡◌, ℕ, false, List, OnOk};
ghost use Rattle.std.specs.Option.{option_map};
ghost use Rattle.dhcp_client.specs.Hearing.{ear_of};
ghost use Rattle.dhcp_client.specs.Heard.{IsShort};
ghost use Rattle.dns_client.specs.Client.{client_of};
ghost use Rattle.net_wire.specs.ArrivalValues.{datagram_value};
ghost use Rattle.net_wire.specs.declared.address.IpAddress.{IpAddress};
ghost use Rattle.host_model.specs.Frames.{not_asked};
ghost use Rattle.host_model.specs.Hearing.{heard_by, is_for_client};
ghost use Rattle.host_model.specs.Queries.{hears_datagram};
ghost use Rattle.host_model.specs.QuerySlots.{Slot};
ghost use Rattle.host_model.specs.Settings.{Settings};
ghost use Rattle.net_host.specs.Hearing.{after_datagram};
ghost use Rattle.net_host.specs.Holding.{held_after, served_after};
ghost use Rattle.net_host.specs.Polling.{Polled, IsReady};
ghost use Rattle.net_host.specs.QueryPolling.{AreLent};
ghost use Rattle.net_host.specs.QueryStanding.{StandAs};
ghost use Rattle.phy_layers.specs.PcapBytes.{IsCapturable};

use crate::emitter::Emitter;
use crate::queries::{hear_response, serve};
use dhcp_client::{Event, Socket};
use host_model::Held;
use net_wire::{Context, Datagram, EmitError, Ipv4Address, NoMemory};

/// Tells the clients what a datagram brings: the DHCP client where it goes from the port of servers to its own,
/// and else the DNS client.
pub(crate) fn tell_datagram(
    dhcp: &mut Socket<'_>,
    dns: &mut dns_client::Socket<'_>,
    cx: &Context,
    datagram: Option<Datagram<'_>>,
)
    ensures dhcp { dhcp.new ≡ after_datagram cx.entry.now (option_map datagram_value datagram.entry) dhcp.old }
    ensures short { IsShort (heard_by (ear_of dhcp.old cx.entry.now) (option_map datagram_value datagram.entry)) }
    ensures queries { (settings : Settings) (servers : List IpAddress) (slots : List Slot) (numbers : List ℕ)
        → settings.client ≡ dhcp.old.settings
        → StandAs servers slots (client_of dns.old) numbers
        → StandAs servers (hears_datagram settings servers (option_map datagram_value datagram.entry) slots)
        (client_of dns.new) numbers }
    ensures lent { AreLent (client_of dns.old) → AreLent (client_of dns.new) }
{
    if let Some(datagram) = datagram {
        if is_for_client(dhcp, &datagram) {
            dhcp.process(cx, datagram.src_addr, datagram.payload);
        } else {
            hear_response(dns, &datagram);
        }
    }
}

/// Whether a datagram goes from the port of servers to that of the DHCP client.
fn is_for_client(dhcp: &Socket<'_>, datagram: &Datagram<'_>) -> bool
    ensures { result ≡ is_for_client dhcp.now.settings (datagram_value datagram.now) }
{
    datagram.src_port == dhcp.server_port() && datagram.dst_port == dhcp.client_port()
}

/// The address to ask for, where it is not the one that was asked for.
pub(crate) fn not_asked(
    asked: Option<Ipv4Address>,
    address: Option<Ipv4Address>,
) -> Option<Ipv4Address>
    ensures { result ≡ not_asked asked address }
{
    if asked == address { None } else { address }
}

/// Holds what the DHCP client leases by now, where that changed, and lets its servers be asked.
pub(crate) fn hold(dhcp: &mut Socket<'_>, held: &mut Option<Held>, dns: &mut dns_client::Socket<'_>)
    ensures held { held.new ≡ held_after dhcp.old held.old }
    ensures told { dhcp.new ≡ record dhcp.old { changed = false } }
    ensures servers { (servers : List IpAddress) (slots : List Slot) (numbers : List ℕ)
        → StandAs servers slots (client_of dns.old) numbers
        → StandAs (served_after dhcp.old servers) slots (client_of dns.new) numbers }
    ensures lent { AreLent (client_of dns.old) → AreLent (client_of dns.new) }
{
    match dhcp.poll() {
        Some(Event::Configured(config)) => {
            *held = Some(Held {
                address: config.address,
                router: config.router,
            });
            serve(dns, config.dns_servers);
        }
        Some(Event::Deconfigured) => {
            *held = None;
            serve(dns, &[]);
        }
        None => {}
    }
}

/// Sends what the DHCP client has due; a message whose next hop is not known ends it. `word` is the id of a
/// message that begins an exchange.
pub(crate) fn poll_dhcp(
    dhcp: &mut Socket<'_>,
    cx: &Context,
    word: u32,
    out: &mut Emitter<'_>,
) -> Result<(), NoMemory>
    requires ready { IsReady dhcp.old cx.now.ip_mtu }
    requires time { IsCapturable cx.now.now }
    ensures value { OnOk result (Polled cx.entry.now word dhcp.old out.old dhcp.new out.new) }
    ensures ready { IsReady dhcp.new cx.entry.now.ip_mtu }
{
    while dhcp.poll_at() <= cx.now {
        match dhcp.dispatch(cx, word, out) {
            Ok(()) => {}
            Err(EmitError::Unresolved) => return Ok(()),
            Err(EmitError::NoMemory) => return Err(NoMemory),
        }
    }
    Ok(())
}
