//! Where the client's messages go.
use net_wire::{DhcpRepr, EmitError, Ipv4Repr, UdpRepr};

/// Takes messages of the client, and sends them or refuses them.
pub trait DhcpEmit {
    ghost use Rattle.std.specs.Prelude.{◌≡◌, ◌+◌, length};
    ghost use Rattle.net_wire.specs.declared.protocol.IpProtocol.TheVariants.{Udp};
    ghost use Rattle.net_wire.specs.DhcpMessage.{message_of};
    ghost use Rattle.net_wire.specs.DhcpBytes.{message_bytes, IsWritable};
    ghost use Rattle.dhcp_client.specs.Messages.{Outgoing, outgoing_of};
    ghost use Rattle.dhcp_client.specs.Emit.{Emitted};

    /// What is so between an emitter, and itself after it took a message.
    ghost took: { Self → Self → Outgoing → Type 0 };

    /// What is so between an emitter, and itself after it refused a message, since the hardware address of
    /// the next hop is not known.
    ghost refused: { Self → Self → Outgoing → Type 0 };

    /// Sends a message in a UDP datagram in IPv4.
    fn emit(&mut self, ip: &Ipv4Repr, udp: &UdpRepr, dhcp: &DhcpRepr<'_>) -> Result<(), EmitError>
        requires writable { IsWritable (message_of dhcp.now) }
        requires len { ip.now.payload_len ≡ length (message_bytes (message_of dhcp.now)) + 8 }
        requires udp { ip.now.next_header ≡ Udp }
        ensures { Emitted took refused (outgoing_of ip.now udp.now dhcp.now) result self.old self.new };
}
