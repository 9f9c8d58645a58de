//! DHCP messages and their options, as calls without a body (RFC 2131; RFC 2132).
ghost use Rattle.rule_examples.specs.DhcpMessages.{DhcpByExample, DhcpTypes};
ghost use Rattle.rule_examples.specs.DhcpOptionRules.{ServersByExample, OptionsByExample, FlagsByExample, LengthsByExample};

/// A message whose fields all differ, written and read (RFC 2131, section 2, figure 1).
pub fn messages_by_example()
    ensures { DhcpByExample }
{}

/// The numbers of the types, and whether a server or a client sends them (RFC 2132, section 9.6).
pub fn types_by_example()
    ensures { DhcpTypes }
{}

/// Which of the addresses of name servers count (RFC 2132, section 3.8).
pub fn servers_by_example()
    ensures { ServersByExample }
{}

/// Which options bytes hold (RFC 2132, section 2).
pub fn options_by_example()
    ensures { OptionsByExample }
{}

/// What the fixed part of a message says (RFC 2131, section 2).
pub fn flags_by_example()
    ensures { FlagsByExample }
{}

/// Which lengths the options of a kind have.
pub fn lengths_by_example()
    ensures { LengthsByExample }
{}
