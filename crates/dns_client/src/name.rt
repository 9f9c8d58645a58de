//! Names as they are written, and as they are asked for.
ghost use Rattle.std.specs.Prelude.{◌≡◌, ◌<◌, ◌++◌, ◌∷◌, [], IfOk, IfSome, MatchResult, length, is_some};
ghost use Rattle.std.specs.Option.{option_copied};
ghost use Rattle.dns_client.specs.PlainName.{plain_name};
ghost use Rattle.dns_client.specs.TextName.{without_point, parts_of, parts_behind, labels_of_text};
ghost use Rattle.dns_client.specs.TextName.{label_fault, end_fault, mdns_of_label, bytes_of_text};
ghost use Rattle.net_wire.specs.DnsLabels.{labels_left};
ghost use Rattle.net_wire.specs.DnsName.{name_of};

use crate::{MulticastDns, StartQueryError};
use arrayvec::ArrayVec;
use net_wire::dns::{Labels, name_len};

/// The bytes of a name that is written with a point between labels, and whether it is asked for by mDNS. One
/// closing point is dropped first.
pub fn name_bytes(name: &str) -> Result<(ArrayVec<u8, 255>, MulticastDns), StartQueryError>
    ensures value { result ≡ bytes_of_text name.now }
    ensures plain { IfOk result (λ named. plain_name named.0.items ≡ Some (labels_of_text name.now)) }
{
    let mut bytes = ArrayVec::new();
    let mut mdns = MulticastDns::Disabled;
    let mut rest = Some(without_point(name.as_bytes()));
    while let Some(text) = rest {
        let (label, more) = first_part(text);
        match add_label(&mut bytes, label) {
            Ok(()) => {}
            Err(error) => return Err(error),
        }
        mdns = mdns_for(label);
        rest = more;
    }
    match close(&mut bytes) {
        Ok(()) => Ok((bytes, mdns)),
        Err(error) => Err(error),
    }
}

fn without_point(text: &[u8]) -> &[u8]
    ensures value { result.now ≡ without_point text.now }
{
    if text.is_empty() {
        return text;
    }
    let last = text.len() - 1;
    if text[last] == b'.' {
        &text[..last]
    } else {
        text
    }
}

/// What is before the first point of a text, and what is behind it.
fn first_part<'a>(text: &'a [u8]) -> (&'a [u8], Option<&'a [u8]>)
    ensures value { parts_of text.now ≡ result.0.now ∷ parts_behind (option_copied result.1) }
    ensures shorter { IfSome result.1 (λ more. length more.now < length text.now) }
{
    for at in 0..text.len() {
        if text[at] == b'.' {
            return (&text[..at], Some(&text[at + 1..]));
        }
    }
    (text, None)
}

fn mdns_for(label: &[u8]) -> MulticastDns
    ensures value { result ≡ mdns_of_label label.now }
{
    if label == b"local".as_slice() {
        MulticastDns::Enabled
    } else {
        MulticastDns::Disabled
    }
}

/// Adds a label behind its length.
fn add_label(bytes: &mut ArrayVec<u8, 255>, label: &[u8]) -> Result<(), StartQueryError>
    ensures value { MatchResult result
        (λ _. (label_fault (length bytes.old.items) label.now ≡ None)
        × (bytes.new.items ≡ bytes.old.items ++ length label.now ∷ label.now))
        (λ error. label_fault (length bytes.old.items) label.now ≡ Some error) }
{
    if label.is_empty() {
        return Err(StartQueryError::InvalidName);
    }
    if label.len() > 63 {
        return Err(StartQueryError::InvalidName);
    }
    if bytes.len() + (1 + label.len()) > 255 {
        return Err(StartQueryError::NameTooLong);
    }
    bytes.push(label.len() as u8);
    match bytes.try_extend_from_slice(label) {
        Ok(()) => Ok(()),
        Err(_) => unreachable!(),
    }
}

/// Adds the zero byte that closes a name.
fn close(bytes: &mut ArrayVec<u8, 255>) -> Result<(), StartQueryError>
    ensures value { MatchResult result
        (λ _. (end_fault (length bytes.old.items) ≡ None) × (bytes.new.items ≡ bytes.old.items ++ 0 ∷ []))
        (λ error. end_fault (length bytes.old.items) ≡ Some error) }
{
    if bytes.len() + 1 > 255 {
        return Err(StartQueryError::NameTooLong);
    }
    bytes.push(0);
    Ok(())
}

/// Whether the bytes are one whole name with no pointer.
pub(crate) fn is_plain(raw: &[u8]) -> bool
    ensures value { result ≡ is_some (plain_name raw.now) }
{
    match name_len(raw) {
        Some(len) => {
            if len == raw.len() {
                is_whole(Labels::new(&[], raw))
            } else {
                false
            }
        }
        None => false,
    }
}

/// Whether there is no fault among labels.
pub(crate) fn is_whole(labels: Labels<'_>) -> bool
    ensures value { result ≡ is_some (name_of (labels_left labels.entry)) }
{
    for label in labels {
        match label {
            Ok(_) => {}
            Err(_) => return false,
        }
    }
    true
}
