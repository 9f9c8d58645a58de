//! Captures and dissections on examples, as calls without a body.
ghost use Rattle.capture_explain.specs.PrintExamples.{IsCapturePrinted};
ghost use Rattle.capture_explain.specs.Examples.{HasHeaderNumbers, HasEntryBytes, HasSecurityHeaders, HasNoFragmentHeader, StopsAtRefused};

/// The numbers of the header of a file.
pub fn a_header_has_its_numbers()
    ensures { HasHeaderNumbers }
{}

/// The bytes of an entry.
pub fn an_entry_has_its_bytes()
    ensures { HasEntryBytes }
{}

/// The parts of a frame with an authentication header and a security payload.
pub fn security_headers_are_read()
    ensures { HasSecurityHeaders }
{}

/// A fragment carries no security payload.
pub fn a_fragment_has_no_security_header()
    ensures { HasNoFragmentHeader }
{}

/// The layer of the refused part stops a dissection.
pub fn a_refused_part_stops()
    ensures { StopsAtRefused }
{}

/// The lines of two frames that are printed.
pub fn a_printed_capture_has_its_lines()
    ensures { IsCapturePrinted }
{}
