//! Laws of captures, as calls without a body.
ghost use Rattle.capture_explain.specs.Laws.{AreWritten, AreOneFile};
ghost use Rattle.capture_explain.specs.Places.{NoPartIsRefused};

/// Bytes begin with no header and no entry where a part of one is refused or they end inside it.
pub fn no_part_is_refused()
    ensures { NoPartIsRefused }
{}

/// What a sink of captures is given is a header and entries.
pub fn written_captures_are_files()
    ensures { AreWritten }
{}

/// Some bytes are one file at most, and its entries have one list of rows.
pub fn captures_have_one_explanation()
    ensures { AreOneFile }
{}
