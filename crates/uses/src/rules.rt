//! `rule_examples`: a rule on bytes made by hand.
ghost use Rattle.rule_examples.specs.TransportFields.{UdpFields};

/// The bytes of a UDP header are read in the order of RFC 768.
pub fn reads_udp()
    ensures { UdpFields }
{
    rule_examples::headers::udp_fields();
}
