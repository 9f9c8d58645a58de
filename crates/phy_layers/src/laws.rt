//! Facts about the fault rule, each a function that does nothing and whose clause is the fact.
ghost use Rattle.phy_layers.specs.FaultLaw.{IsWholeOrOneBit, AreSizesDrawn, AreFlipsDrawn, AreRatesKept};

/// A frame that passes the fault rule is the given one, or differs from it in exactly one bit.
pub fn a_passing_frame_is_whole_or_has_one_bit_flipped()
    ensures { IsWholeOrOneBit }
{}

/// Draws of frames of several lengths.
pub fn a_frame_over_the_size_is_dropped_before_or_after_a_draw()
    ensures { AreSizesDrawn }
{}

/// Draws of frames that are corrupted.
pub fn a_flip_draws_a_place_and_a_bit()
    ensures { AreFlipsDrawn }
{}

/// Frames before and behind a refill.
pub fn a_refill_comes_before_the_fall()
    ensures { AreRatesKept }
{}
