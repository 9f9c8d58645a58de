//! Facts about the two headers, each a function that does nothing and whose clause is the fact.
ghost use Rattle.ipsec_wire.specs.Ah.{IsReadBack, ClearsReserved};
ghost use Rattle.ipsec_wire.specs.Esp.{IsReadBack as IsEspReadBack, ChangesNothing};

/// The bytes of an authentication header, with anything behind them, read as that header.
pub fn a_written_authentication_header_is_read_back()
    ensures { IsReadBack }
{}

/// An authentication header that is read, and written over the bytes that it was read from, clears
/// the reserved bytes and changes nothing else.
pub fn rewriting_clears_the_reserved_bytes()
    ensures { ClearsReserved }
{}

/// The bytes of an ESP header, with anything behind them, read as that header.
pub fn a_written_security_payload_is_read_back()
    ensures { IsEspReadBack }
{}

/// An ESP header that is read, and written over the bytes that it was read from, changes nothing.
pub fn rewriting_a_security_payload_changes_nothing()
    ensures { ChangesNothing }
{}
