//! Laws of layouts, as calls without a body. `E` is the type of the refusals.
ghost use Rattle.std.specs.Prelude.{◌≡◌, ℕ, ◌+◌, ◌-◌, ◌≤◌, min, Bool, false, List, take, slice_range, Option, None};
ghost use Rattle.ether_link.specs.Form.{Form, IsSameHeader, header_len, refusal};
ghost use Rattle.ether_link.specs.Cut.{IsCuttable, cut_places, proper};
ghost use Rattle.ether_link.specs.declared.layout.PartKind.{PartKind};
ghost use Rattle.ether_link.specs.LinkGrammar.{LinkErrors, link_grammar};
ghost use Rattle.ether_link.specs.Layout.{Grammar, IsOrderly, HasLayout, HasOneLayout, IsLayoutFrom, AreNested, moved_places, moved_stop};
ghost use Rattle.ether_link.specs.declared.layout.Turn.{Turn};
ghost use Rattle.ether_link.specs.declared.layout.Place.{Place};
ghost use Rattle.ether_link.specs.declared.layout.Stop.{Stop};

/// Every window of a frame has a layout, from every turn.
pub fn some_layout<E>(frame: &[u8])
    ensures { (grammar : Grammar E) → IsOrderly grammar
        → (turn : Option Turn) (start end : ℕ) → HasLayout grammar frame.now turn start end }
{}

/// A window has no two layouts from a turn.
pub fn one_layout<E>(frame: &[u8])
    ensures { (grammar : Grammar E)
        → (turn : Option Turn) (start end : ℕ) → HasOneLayout grammar frame.now turn start end }
{}

/// The parts of a layout lie one inside the window of the other.
pub fn layouts_are_nested<E>(frame: &[u8])
    ensures { (grammar : Grammar E) → IsOrderly grammar
        → (turn : Option Turn) (start end : ℕ) (places : List Place) (stop : Option (Stop E))
        → IsLayoutFrom grammar frame.now turn start end places stop → AreNested start end places }
{}

/// The parts of the link layer are in order where those above them are.
pub fn link_parts_are_orderly<E>()
    ensures { (errors : LinkErrors E) (above : Grammar E)
        → IsOrderly above → IsOrderly (link_grammar errors above) }
{}

/// What the first bytes begin with, all of them begin with.
pub fn same_part<E>(bytes: &[u8], n: usize)
    ensures { (form : Form E) → form.alone (take form.least bytes.now) ≡ false
        → refusal form (take n bytes.now) ≡ None → IsSameHeader form (take n bytes.now) bytes.now n }
{}

/// The first bytes begin with what all of them begin with, where they have room for its header.
pub fn kept_part<E>(bytes: &[u8], n: usize)
    ensures { (form : Form E) → form.alone (take form.least bytes.now) ≡ false
        → refusal form bytes.now ≡ None → header_len form bytes.now ≤ n
        → refusal form (take n bytes.now) ≡ None }
{}

/// A layout of some bytes of a frame is one of the frame, counted from its first byte.
pub fn layout_in_place<E>(frame: &[u8], from: usize, to: usize)
    ensures { (grammar : Grammar E)
        → (turn : Option Turn) (start end : ℕ) (places : List Place) (stop : Option (Stop E))
        → end ≤ to - from
        → IsLayoutFrom grammar (slice_range frame.now from to) turn start end places stop
        → IsLayoutFrom grammar frame.now turn (from + start) (from + end)
        (moved_places from places) (moved_stop from stop) }
{}

/// The layout of the first n bytes is the front of the layout of all bytes, with what they leave of the
/// windows. Parts of kinds that end a layout are left out of both: such a part may be read in the first
/// n bytes alone, or in all of them alone.
pub fn cut_law<E>(frame: &[u8], n: usize)
    ensures { (grammar : Grammar E) (is_last : PartKind → Bool) → IsCuttable grammar is_last
        → (turn : Option Turn) (start end : ℕ)
        (places kept : List Place) (stop last : Option (Stop E)) → start ≤ n
        → IsLayoutFrom grammar frame.now turn start end places stop
        → IsLayoutFrom grammar (take n frame.now) turn start (min end n) kept last
        → proper is_last kept ≡ cut_places n (proper is_last places) }
{}
