//! Names in messages (RFC 1035, sections 3.1 and 4.1.4).
ghost use Rattle.std.specs.Prelude.{◌≡◌, ◌≤◌, length, IfSome};
ghost use Rattle.net_wire.specs.DnsName.{piece_at, labels_at, name_len};
ghost use Rattle.net_wire.specs.DnsLabels.{IsFirstLabel};

use crate::Malformed;

/// What stands first in bytes.
pub(crate) enum Piece<'a> {
    /// The end of a name; the bytes after it.
    End(&'a [u8]),
    /// A label; the bytes after it.
    Label(&'a [u8], &'a [u8]),
    /// Where the name goes on, as an offset in the message; the bytes after it.
    Pointer(usize, &'a [u8]),
    Malformed,
}

impl<'a> Piece<'a> {
    ghost use Rattle.net_wire.specs.DnsLabels.{piece_of, TakesPiece};

    #[tactic(auto, using(crate::proofs::DnsNameLemmas::takes_piece))]
    pub(crate) fn first(bytes: &'a [u8]) -> Piece<'a>
        ensures value { piece_of result ≡ piece_at bytes.now }
        ensures takes { TakesPiece (length bytes.now) (piece_of result) }
    {
        match bytes {
            [0, after @ ..] => Piece::End(after),
            [len @ 1..=63, after @ ..] if *len as usize <= after.len() => {
                let (label, after) = after.split_at(*len as usize);
                Piece::Label(label, after)
            }
            [high @ 0xC0..=0xFF, low, after @ ..] => {
                Piece::Pointer((*high as usize - 0xC0) * 256 + *low as usize, after)
            }
            _ => Piece::Malformed,
        }
    }
}

/// The labels of a name, in order. A malformed name gives the labels before the fault, then one
/// `Malformed`, and then ends.
#[derive(Clone, Copy, Debug)]
pub struct Labels<'a> {
    /// Where a pointer may lead.
    below: &'a [u8],
    /// What is still to read; `None` after the end or the fault.
    rest: Option<&'a [u8]>,
}

impl<'a> Labels<'a> {
    ghost use Rattle.net_wire.specs.DnsLabels.{labels_left};

    /// The labels of the name that stands first in the bytes.
    pub fn new(message: &'a [u8], bytes: &'a [u8]) -> Labels<'a>
        ensures value { labels_left result ≡ labels_at message.now bytes.now }
    {
        Labels {
            below: message,
            rest: Some(bytes),
        }
    }
}

impl<'a> Iterator for Labels<'a> {
    ghost use Rattle.std.specs.Iterator.{YieldsFirstBy, item_count};
    ghost use Rattle.net_wire.specs.DnsLabels.{label_of, labels_left};

    type Item = Result<&'a [u8], Malformed>;

    ghost next_gives = { YieldsFirstBy label_of labels_left };

    ghost remaining = { item_count labels_left };

    fn next(&mut self) -> Option<Result<&'a [u8], Malformed>> {
        let Some(rest) = self.rest else {
            return None;
        };
        match first_label(self.below, rest) {
            Ok(None) => {
                self.rest = None;
                None
            }
            Ok(Some((label, more))) => {
                *self = more;
                Some(Ok(label))
            }
            Err(fault) => {
                self.rest = None;
                Some(Err(fault))
            }
        }
    }
}

/// The first label, and those after it.
#[tactic(auto, using(crate::proofs::DnsNameLemmas::labels_at_piece))]
fn first_label<'a>(
    mut below: &'a [u8],
    mut rest: &'a [u8],
) -> Result<Option<(&'a [u8], Labels<'a>)>, Malformed>
    ensures { IsFirstLabel (labels_at below.entry.now rest.entry.now) result }
{
    loop {
        match Piece::first(rest) {
            Piece::End(_) => return Ok(None),
            Piece::Label(label, after) => {
                return Ok(Some((
                    label,
                    Labels {
                        below,
                        rest: Some(after),
                    },
                )));
            }
            Piece::Pointer(target, _) => {
                if target >= below.len() {
                    return Err(Malformed);
                }
                (below, rest) = below.split_at(target);
            }
            Piece::Malformed => return Err(Malformed),
        }
    }
}

/// How many bytes the name has in place that stands first in the bytes.
#[tactic(auto, using(crate::proofs::DnsNameLemmas::name_len_piece))]
pub fn name_len(bytes: &[u8]) -> Option<usize>
    ensures value { result ≡ name_len bytes.now }
    ensures within { IfSome result (λ len. len ≤ length bytes.now) }
{
    let mut rest = bytes;
    let mut len = 0;
    loop {
        match Piece::first(rest) {
            Piece::End(_) => return Some(len + 1),
            Piece::Label(label, after) => {
                len += 1 + label.len();
                rest = after;
            }
            Piece::Pointer(_, _) => return Some(len + 2),
            Piece::Malformed => return None,
        }
    }
}
