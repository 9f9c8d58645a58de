//! Laws over the definitions.
ghost use Rattle.frame_verdict.specs.Ignored.{IgnoredFramesChangeNothing, OneIgnoredFrameIsTicked, AllIgnoredFramesAreTicked};
ghost use Rattle.frame_verdict.specs.VerdictExamples.{FramesByExample, MessagesByExample, ResponsesByExample, WordsByExample};

/// With ticks in place of any of the frames of a script that are ignored, every event has the same effect, and every frame
/// that is left the same verdict.
pub fn ignored_frames_change_nothing()
    ensures any { IgnoredFramesChangeNothing }
    ensures one { OneIgnoredFrameIsTicked }
    ensures all { AllIgnoredFramesAreTicked }
{}

/// Closed examples: the smallest frame of each verdict, and the words.
pub fn verdicts_by_example()
    ensures frames { FramesByExample }
    ensures messages { MessagesByExample }
    ensures responses { ResponsesByExample }
    ensures words { WordsByExample }
{}
