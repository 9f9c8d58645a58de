//! Windows and stops of packets on examples, as calls without a body.
ghost use Rattle.ether_lax.specs.Examples.{HasSecuredWindow, HasIpv4Window, HasIpv6Window, HasUdpWindow, StopsBehindFragment, EndsEncrypted};

/// Where the window of a security tag ends, what says so, and whether bytes are missing.
pub fn short_lengths_end_windows()
    ensures { HasSecuredWindow }
{}

/// The same of an IPv4 packet.
pub fn total_lengths_end_windows()
    ensures { HasIpv4Window }
{}

/// The same of an IPv6 packet.
pub fn payload_lengths_end_windows()
    ensures { HasIpv6Window }
{}

/// Where a UDP datagram ends.
pub fn udp_lengths_end_windows()
    ensures { HasUdpWindow }
{}

/// A refused extension header behind a fragment header.
pub fn a_refused_header_of_a_fragment_stops()
    ensures { StopsBehindFragment }
{}

/// A changed or encrypted payload.
pub fn an_encrypted_payload_is_not_read()
    ensures { EndsEncrypted }
{}
