//! `ether_lax`: what a filter asks of a frame.
ghost use Rattle.std.specs.Prelude.{◌≡◌, ◌≤◌, ◌↔◌, IsTrue, None, length};
ghost use Rattle.ether_lax.specs.Notes.{IsNoteOf};
ghost use Rattle.ether_lax.specs.declared.note.FrameNote.{FrameNote};

use ether_lax::note_of;

/// Nothing stopped the dissection of a frame: every header that its parts name is there and whole.
pub fn is_dissected(frame: &[u8]) -> bool
    requires { length frame.now ≤ 65535 }
    ensures { (note : FrameNote) × IsNoteOf frame.now note × (IsTrue result ↔ (note.stop ≡ None)) }
{
    let note = note_of(frame);
    note.stop.is_none()
}
