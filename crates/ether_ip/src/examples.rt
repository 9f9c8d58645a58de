//! The grammar of packets on examples, as calls without a body: each says what headers made by hand name.
ghost use Rattle.ether_ip.specs.AnnouncedExamples.{AnnouncesBySecurityTag, AnnouncesByLength};
ghost use Rattle.ether_ip.specs.Examples.{NamesByEtherType, HasThreeLinkExtensions, NamesBehindSecurityTag, NamesByHardware, NamesByNextHeader, NamesTransport, NamesBehindIpv4, NamesInFragment, EndsThere};

/// Which part an ether type names.
pub fn ether_types_name_parts()
    ensures { NamesByEtherType }
{}

/// Three link extensions are read at most.
pub fn a_fourth_link_extension_is_not_read()
    ensures { HasThreeLinkExtensions }
{}

/// A changed or encrypted payload ends a layout.
pub fn a_modified_payload_names_nothing()
    ensures { NamesBehindSecurityTag }
{}

/// The short length of a security tag.
pub fn short_lengths_count_the_ether_type()
    ensures { AnnouncesBySecurityTag }
{}

/// Which kinds of hardware carry ether types in a cooked capture.
pub fn cooked_packets_go_on_by_hardware()
    ensures { NamesByHardware }
{}

/// Each number of an IPv6 extension header.
pub fn next_headers_name_extensions()
    ensures { NamesByNextHeader }
{}

/// Each number of a transport header.
pub fn numbers_name_transports()
    ensures { NamesTransport }
{}

/// What stands behind IPv4 headers.
pub fn ipv4_has_one_extension()
    ensures { NamesBehindIpv4 }
{}

/// What fragments name.
pub fn fragments_carry_no_transport()
    ensures { NamesInFragment }
{}

/// What ends a layout.
pub fn arp_and_transports_end()
    ensures { EndsThere }
{}

/// What length fields say.
pub fn lengths_are_announced()
    ensures { AnnouncesByLength }
{}
