//! The outside that takes the messages of the client.
ghost use Rattle.std.specs.Prelude.{◌≡◌, ◌+◌, ◌<◌, ◌≤◌, length, Option, Some};
ghost use Rattle.net_wire.specs.declared.address.IpAddress.{IpAddress};
ghost use Rattle.net_wire.specs.declared.protocol.IpProtocol.TheVariants.{Udp};
ghost use Rattle.dns_client.specs.Emit.{Outgoing, Emitted};

use crate::QueryHandle;
use net_wire::{EmitError, IpAddress, IpRepr, UdpRepr};

/// Takes the messages of a client, and knows from which address they go.
pub trait DnsEmit {
    /// The emitter before and after a call that took a message.
    ghost took: { Self → Self → Outgoing → Type 0 };

    /// The emitter before and after a call that refused a message, since the hardware address of the next hop
    /// is not known.
    ghost refused: { Self → Self → Outgoing → Type 0 };

    /// The address from which datagrams go to a destination.
    ghost source: { Self → IpAddress → Option IpAddress };

    /// `None` where there is no address to send from.
    fn source_for(&self, dst: IpAddress) -> Option<IpAddress>
        ensures { result ≡ source self.now dst };

    /// Sends a message in a UDP datagram. `place` is the place in the list of servers or groups, which has
    /// three at most.
    fn emit(
        &mut self,
        handle: QueryHandle,
        place: usize,
        ip: &IpRepr,
        udp: &UdpRepr,
        payload: &[u8],
    ) -> Result<(), EmitError>
        requires place { place < 3 }
        requires source { source self.old ip.now.dst_addr ≡ Some ip.now.src_addr }
        requires len { ip.now.payload_len ≡ length payload.now + 8 }
        requires size { length payload.now ≤ 271 }
        requires udp { ip.now.next_header ≡ Udp }
        ensures { Emitted took refused
            (record { slot = handle.0; place = place; ip = ip.now; udp = udp.now; payload = payload.now })
            result self.old self.new };
}
