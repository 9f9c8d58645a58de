//! IPv4 addresses as people write them.
ghost use Rattle.std.specs.Prelude.{◌≡◌, ℕ, ◌∷◌, [], IfSome, IfNone};
ghost use Rattle.std.specs.List.{AllZip};
ghost use Rattle.host_top.specs.Ipv4Word.{IsOctetWord, IsIpv4Word, pieces};

use crate::word::number_of;
use net_wire::Ipv4Address;

/// The address that four decimal numbers of one to three digits write, joined by points.
pub(crate) fn ipv4_of(word: &[u8]) -> Option<Ipv4Address>
    ensures found { IfSome result (IsIpv4Word word.now) }
    ensures refuses { IfNone result ((address : Ipv4Address) → IsIpv4Word word.now address → ⊥) }
{
    let (a, behind_a) = split_at_point(word)?;
    let (b, behind_b) = split_at_point(behind_a)?;
    let (c, d) = split_at_point(behind_b)?;
    match split_at_point(d) {
        Some(_) => None,
        None => address_with(a, b, c, d),
    }
}

/// The address that four octets write.
fn address_with(a: &[u8], b: &[u8], c: &[u8], d: &[u8]) -> Option<Ipv4Address>
    ensures found { IfSome result (λ address. AllZip IsOctetWord (a.now ∷ b.now ∷ c.now ∷ d.now ∷ []) address.0) }
    ensures refuses { IfNone result ((address : Ipv4Address)
        → AllZip IsOctetWord (a.now ∷ b.now ∷ c.now ∷ d.now ∷ []) address.0 → ⊥) }
{
    Some(Ipv4Address([octet_of(a)?, octet_of(b)?, octet_of(c)?, octet_of(d)?]))
}

/// What stands before the first point of a word, and behind it.
fn split_at_point(word: &[u8]) -> Option<(&[u8], &[u8])>
    ensures found { IfSome result (λ parts. pieces word.now ≡ parts.0.now ∷ pieces parts.1.now) }
    ensures none { IfNone result (pieces word.now ≡ word.now ∷ []) }
{
    for place in 0..word.len() {
        if word[place] == b'.' {
            return Some((&word[..place], &word[place + 1..]));
        }
    }
    None
}

/// The octet that a word of one to three decimal digits writes.
fn octet_of(word: &[u8]) -> Option<u8>
    ensures found { IfSome result (IsOctetWord word.now) }
    ensures refuses { IfNone result ((octet : ℕ) → IsOctetWord word.now octet → ⊥) }
{
    let number = number_of(word, 10, 3)?;
    if number > 255 {
        return None;
    }
    Some(number as u8)
}
