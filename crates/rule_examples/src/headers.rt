//! The fields of headers, as calls without a body: each says what the definitions read in bytes that all differ, or
//! write of them, so that exchanged fields, a shifted flag and a swapped pair of names are refused.
ghost use Rattle.rule_examples.specs.ExtensionHeaders.{AuthFields, FragmentFields, OptionFields, NumbersByExample};
ghost use Rattle.rule_examples.specs.IpFields.{Ipv4Fields, Ipv6Fields, IpByVersion, Ipv4Fragments};
ghost use Rattle.rule_examples.specs.LinkFields.{Ethernet2Fields, ArpFields, CookedFields};
ghost use Rattle.rule_examples.specs.SentHeaders.{SentHeaders};
ghost use Rattle.rule_examples.specs.Tags.{VlanFields, SecurityTagFields};
ghost use Rattle.rule_examples.specs.TransportFields.{UdpFields, TcpFields, TcpSizes};

/// Ethernet II frames (IEEE 802.3, section 3.2).
pub fn ethernet2_fields()
    ensures { Ethernet2Fields }
{}

/// ARP packets (RFC 826).
pub fn arp_fields()
    ensures { ArpFields }
{}

/// Linux cooked captures (LINKTYPE_LINUX_SLL).
pub fn cooked_fields()
    ensures { CookedFields }
{}

/// VLAN tags (IEEE 802.1Q, section 9.6).
pub fn vlan_fields()
    ensures { VlanFields }
{}

/// Security tags of MACsec (IEEE 802.1AE, section 9).
pub fn security_tag_fields()
    ensures { SecurityTagFields }
{}

/// IPv4 headers (RFC 791, section 3.1).
pub fn ipv4_fields()
    ensures { Ipv4Fields }
{}

/// Which IPv4 packets are fragments (RFC 791, section 3.1).
pub fn ipv4_fragments()
    ensures { Ipv4Fragments }
{}

/// IPv6 headers (RFC 8200, section 3).
pub fn ipv6_fields()
    ensures { Ipv6Fields }
{}

/// IP headers by their version.
pub fn ip_by_version()
    ensures { IpByVersion }
{}

/// Authentication headers (RFC 4302, section 2).
pub fn auth_fields()
    ensures { AuthFields }
{}

/// Fragment headers (RFC 8200, section 4.5).
pub fn fragment_fields()
    ensures { FragmentFields }
{}

/// Options and routing headers (RFC 8200, sections 4.3, 4.4 and 4.6).
pub fn option_fields()
    ensures { OptionFields }
{}

/// The numbers of what an IP packet carries (IANA).
pub fn numbers_by_example()
    ensures { NumbersByExample }
{}

/// UDP datagrams (RFC 768).
pub fn udp_fields()
    ensures { UdpFields }
{}

/// TCP segments (RFC 9293, section 3.1).
pub fn tcp_fields()
    ensures fields { TcpFields }
    ensures sizes { TcpSizes }
{}

/// The headers that a host writes: Ethernet II, IPv4, UDP and ARP.
pub fn sent_headers()
    ensures { SentHeaders }
{}
