//! Addresses and numbers that name what a field holds, as calls without a body.
ghost use Rattle.std.specs.Prelude.{◌≡◌};
ghost use Rattle.rule_examples.specs.NetAddresses.{UnicastByExample, GroupsByExample, ProtocolsByExample};

use ether_link::{ArpHardwareId, ArpOperation, EtherType, IpNumber};
use net_wire::arp::{REPLY, REQUEST};

/// Which IPv4 addresses are those of one host (RFC 1122, section 3.2.1.3).
pub fn unicast_by_example()
    ensures { UnicastByExample }
{}

/// Which hardware addresses are those of groups (IEEE 802.3, section 3.2.3).
pub fn groups_by_example()
    ensures { GroupsByExample }
{}

/// The numbers of protocols, and the protocols of numbers (RFC 7042, appendix B; IANA).
pub fn protocols_by_example()
    ensures { ProtocolsByExample }
{}

/// Ether types (RFC 7042, appendix B; IEEE 802.1Q and 802.1AE).
pub fn ether_types()
    ensures ipv4 { EtherType.IPV4.0 ≡ 0x0800 }
    ensures arp { EtherType.ARP.0 ≡ 0x0806 }
    ensures vlan { EtherType.VLAN_TAGGED_FRAME.0 ≡ 0x8100 }
    ensures ipv6 { EtherType.IPV6.0 ≡ 0x86DD }
    ensures bridging { EtherType.PROVIDER_BRIDGING.0 ≡ 0x88A8 }
    ensures macsec { EtherType.MACSEC.0 ≡ 0x88E5 }
    ensures double_vlan { EtherType.VLAN_DOUBLE_TAGGED_FRAME.0 ≡ 0x9100 }
{}

/// IP protocol numbers (IANA).
pub fn ip_numbers()
    ensures hop_by_hop { IpNumber.IPV6_HEADER_HOP_BY_HOP.0 ≡ 0 }
    ensures icmp { IpNumber.ICMP.0 ≡ 1 }
    ensures tcp { IpNumber.TCP.0 ≡ 6 }
    ensures udp { IpNumber.UDP.0 ≡ 17 }
    ensures route { IpNumber.IPV6_ROUTE_HEADER.0 ≡ 43 }
    ensures fragment { IpNumber.IPV6_FRAGMENTATION_HEADER.0 ≡ 44 }
    ensures payload { IpNumber.ENCAPSULATING_SECURITY_PAYLOAD.0 ≡ 50 }
    ensures auth { IpNumber.AUTHENTICATION_HEADER.0 ≡ 51 }
    ensures icmpv6 { IpNumber.IPV6_ICMP.0 ≡ 58 }
    ensures options { IpNumber.IPV6_DESTINATION_OPTIONS.0 ≡ 60 }
{}

/// Kinds of hardware (IANA, "ARP Parameters"; those above 256 by Linux's `if_arp.h`).
pub fn hardware_types()
    ensures ethernet { ArpHardwareId.ETHERNET.0 ≡ 1 }
    ensures frad { ArpHardwareId.FRAD.0 ≡ 770 }
    ensures loopback { ArpHardwareId.LOOPBACK.0 ≡ 772 }
    ensures gre { ArpHardwareId.IPGRE.0 ≡ 778 }
    ensures radiotap { ArpHardwareId.IEEE80211_RADIOTAP.0 ≡ 803 }
    ensures gre6 { ArpHardwareId.IP6GRE.0 ≡ 823 }
    ensures netlink { ArpHardwareId.NETLINK.0 ≡ 824 }
{}

/// The operations of ARP packets, as the dissector and as the host name them (RFC 826).
pub fn arp_operations()
    ensures request { ArpOperation.REQUEST.0 ≡ 1 }
    ensures reply { ArpOperation.REPLY.0 ≡ 2 }
    ensures sent_request { REQUEST ≡ 1 }
    ensures sent_reply { REPLY ≡ 2 }
{}
