//! Texts on examples, as calls without a body.
ghost use Rattle.script_text.specs.TextExamples.{HasLines, HasWords, HasTimes, HasBytes, HasEscapes, HasEvents, HasWrongWords, HasSettings, HasLimits};

/// The words of a line.
pub fn lines_have_words()
    ensures { HasWords }
{}

/// Times.
pub fn times_are_read()
    ensures { HasTimes }
{}

/// The bytes of a frame.
pub fn bytes_are_read()
    ensures { HasBytes }
{}

/// The bytes of a name.
pub fn escapes_are_read()
    ensures { HasEscapes }
{}

/// The events of right texts.
pub fn texts_have_events()
    ensures { HasEvents }
{}

/// The places of wrong words.
pub fn wrong_words_have_places()
    ensures { HasWrongWords }
{}

/// Settings.
pub fn settings_are_tried()
    ensures { HasSettings }
{}

/// Texts with as many events as there may be.
pub fn limits_are_kept()
    ensures { HasLimits }
{}

/// The lines of events.
pub fn events_have_lines()
    ensures { HasLines }
{}
