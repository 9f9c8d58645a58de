//! What errors print, as calls without a body: one text of each, and each layer's word.
ghost use Rattle.rule_examples.specs.IpTexts.{HeaderTexts, SliceTexts, PacketTexts};
ghost use Rattle.rule_examples.specs.LinkTexts.{LayerWords, LinkTexts};

/// The words of the layers.
pub fn layer_words()
    ensures { LayerWords }
{}

/// The texts of the link layer's errors.
pub fn link_texts()
    ensures { LinkTexts }
{}

/// The texts of what is wrong in the bytes of a header.
pub fn header_texts()
    ensures { HeaderTexts }
{}

/// The texts of what slices refuse.
pub fn slice_texts()
    ensures { SliceTexts }
{}

/// The texts of what any part of a packet refuses.
pub fn packet_texts()
    ensures { PacketTexts }
{}
