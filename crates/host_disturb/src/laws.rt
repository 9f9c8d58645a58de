//! Theorems on scripts that come over a bad link, each a function that does nothing and whose clause is the theorem.
ghost use Rattle.host_disturb.specs.Examples.{DropsByExample, FlipsByExample, LimitsByExample, RatesByExample, DrawsByExample};
ghost use Rattle.host_disturb.specs.Laws.{EventsAreKept, EachIsMet, ScriptsStayScripts, GoodLinksChangeNothing, LongFramesAreDropped, FramesAloneDraw, LaterEventsChangeNothing};

/// There are as many events as the script has, at the same times and with the same words.
pub fn events_are_kept()
    ensures { EventsAreKept }
{}

/// Each frame is met in its place: whole, with exactly one other bit, or as a tick. All else is met as it is.
pub fn each_is_met()
    ensures { EachIsMet }
{}

/// What is met in place of a valid script is a valid script.
pub fn scripts_stay_scripts()
    ensures { ScriptsStayScripts }
{}

/// With both chances, size limit and rate 0 a script without frames of more than 1536 bytes is itself.
pub fn good_links_change_nothing()
    ensures { GoodLinksChangeNothing }
{}

/// A frame of more than 1536 bytes leaves a tick and draws nothing.
pub fn long_frames_are_dropped()
    ensures { LongFramesAreDropped }
{}

/// Ticks, resets and queries are met as they are and draw nothing.
pub fn frames_alone_draw()
    ensures { FramesAloneDraw }
{}

/// What becomes of events does not depend on later ones.
pub fn later_events_change_nothing()
    ensures { LaterEventsChangeNothing }
{}

/// Closed examples: a dropped frame and a flipped bit; a size limit and a rate; which frames draw, and what.
pub fn disturbs_by_example()
    ensures drops { DropsByExample }
    ensures flips { FlipsByExample }
    ensures limits { LimitsByExample }
    ensures rates { RatesByExample }
    ensures draws { DrawsByExample }
{}
