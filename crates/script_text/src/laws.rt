//! Laws of texts, as calls without a body.
ghost use Rattle.script_text.specs.TextLaws.{IsOneOfThree, HasScript, ReadsWords, ReadsTexts, ReadsCommented};

/// A text is exactly one of right, long and wrong.
pub fn a_text_is_one_of_three()
    ensures { IsOneOfThree }
{}

/// The words of an event are read as they were written.
pub fn words_are_read_again()
    ensures { ReadsWords }
{}

/// The text of events is right, and has these events.
pub fn texts_are_read_again()
    ensures { ReadsTexts }
{}

/// And so is that with a comment in a further line.
pub fn comments_mean_nothing()
    ensures { ReadsCommented }
{}

/// The events of a right text are those of a script.
pub fn right_texts_are_scripts()
    ensures { HasScript }
{}
