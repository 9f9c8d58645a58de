//! What is written is read again.
ghost use Rattle.frame_laws.specs.SentArp.{IsArpCutAsSent};
ghost use Rattle.frame_laws.specs.SentParts.{AreCutAsSent};

/// Every frame that `net_wire::udp_frame` writes is cut, without a stop and to its last byte, into the
/// headers of Ethernet, IPv4 and UDP with the values of the datagram, and its payload.
pub fn sent_frames_are_cut()
    ensures { AreCutAsSent }
{}

/// Every frame that is sent with an ARP packet (`net_wire::arp_frame`) is cut, without a stop, into the
/// headers of Ethernet and ARP with the values of the packet, also where padding follows.
pub fn sent_arp_frames_are_cut()
    ensures { IsArpCutAsSent }
{}
