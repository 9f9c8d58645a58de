//! Facts about the definitions, each a function that does nothing and whose clause is the fact.
ghost use Rattle.net_wire.specs.Arp.{SentArpCounts};
ghost use Rattle.net_wire.specs.ArpExamples.{ArpByExample};
ghost use Rattle.net_wire.specs.Arrival.{SentFramesArrive};
ghost use Rattle.net_wire.specs.ArrivalExamples.{DatagramsByExample};
ghost use Rattle.net_wire.specs.Datagram.{IsOneSentFrame};
ghost use Rattle.net_wire.specs.DhcpReadBack.{ReadsWritten};
ghost use Rattle.net_wire.specs.DnsExamples.{NamesByExample, RecordsByExample};
ghost use Rattle.net_wire.specs.DnsMessage.{ReadsQuery};
ghost use Rattle.net_wire.specs.DnsName.{ReadsSpelled};

/// No two frames carry one datagram between the same stations with the same hop limit.
pub fn one_sent_frame()
    ensures { IsOneSentFrame }
{}

/// The name that is read in a DNS message is the one that its bytes spell.
pub fn names_are_spelled()
    ensures { ReadsSpelled }
{}

/// The question of a written DNS query is read again.
pub fn queries_are_read()
    ensures { ReadsQuery }
{}

/// Names in DNS messages, with the example of RFC 1035, section 4.1.4.
pub fn names_by_example()
    ensures { NamesByExample }
{}

/// Questions and records of DNS messages.
pub fn records_by_example()
    ensures { RecordsByExample }
{}

/// Datagrams that frames carry, and frames that carry none.
pub fn datagrams_by_example()
    ensures { DatagramsByExample }
{}

/// ARP packets that count, and packets that do not.
pub fn arp_by_example()
    ensures { ArpByExample }
{}

/// A frame that is sent with a datagram of one host carries it to each station that takes the frame.
pub fn sent_frames_arrive()
    ensures { SentFramesArrive }
{}

/// A DHCP message that was written is read again, but for the options of the caller, which read as nothing.
/// Its numbers and addresses are as wide as their fields, its type has a name or a number without one, its
/// request list is not empty, its name servers are one to three single hosts, and no option of the caller is
/// of a kind that is read.
pub fn messages_are_read()
    ensures { ReadsWritten }
{}

/// A frame that is sent with an ARP packet of one host counts at each station that takes the frame, whatever
/// follows.
pub fn sent_arp_counts()
    ensures { SentArpCounts }
{}
