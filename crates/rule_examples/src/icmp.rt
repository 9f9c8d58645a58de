//! Messages of both versions of ICMP on each side of every limit, as calls without a body.
ghost use Rattle.rule_examples.specs.Icmpv4Messages.{Icmpv4Kinds, Icmpv4Sizes};
ghost use Rattle.rule_examples.specs.Icmpv6Messages.{Icmpv6Kinds, Icmpv6Sizes};

/// What ICMPv4 messages are, by type and code (RFC 792).
pub fn icmpv4_kinds()
    ensures { Icmpv4Kinds }
{}

/// How long ICMPv4 messages are (RFC 792).
pub fn icmpv4_sizes()
    ensures { Icmpv4Sizes }
{}

/// What ICMPv6 messages are, by type and code (RFC 4443; IANA, "ICMPv6 Parameters").
pub fn icmpv6_kinds()
    ensures { Icmpv6Kinds }
{}

/// How long ICMPv6 messages are (RFC 4443, section 2.1).
pub fn icmpv6_sizes()
    ensures { Icmpv6Sizes }
{}
