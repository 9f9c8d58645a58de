//! Closed examples of the texts, each a function that does nothing and whose clause is the example.
ghost use Rattle.net_wire.specs.PrettyExamples.{IsEchoPrinted, AreCutPrinted, AreMessagesPrinted};

/// An echo request, a line a layer.
pub fn an_echo_request_has_three_lines()
    ensures { IsEchoPrinted }
{}

/// Packets that are cut, at three levels.
pub fn a_cut_packet_is_named_as_such()
    ensures { AreCutPrinted }
{}

/// Other messages of ICMP for IPv4.
pub fn a_message_is_named_by_type_and_code()
    ensures { AreMessagesPrinted }
{}
