//! What one word writes.
ghost use Rattle.std.specs.Prelude.{ℕ, ◌≤◌, IfSome, IfNone};
ghost use Rattle.host_top.specs.Word.{IsNumberWord, IsU32Word, IsAddressWord};

use net_wire::EthernetAddress;

/// The address of one station that a word of twelve hexadecimal digits writes.
pub fn address_of(word: &[u8]) -> Option<EthernetAddress>
    ensures found { IfSome result (IsAddressWord word.now) }
    ensures refuses { IfNone result ((address : EthernetAddress) → IsAddressWord word.now address → ⊥) }
{
    if word.len() != 12 {
        return None;
    }
    let number = number_of(word, 16, 12)?;
    let [_, _, a, b, c, d, e, f] = number.to_be_bytes();
    let address = EthernetAddress([a, b, c, d, e, f]);
    if address.is_group() {
        return None;
    }
    Some(address)
}

/// The number that a word of one to ten decimal digits writes.
pub fn u32_of(word: &[u8]) -> Option<u32>
    ensures found { IfSome result (IsU32Word word.now) }
    ensures refuses { IfNone result ((number : ℕ) → IsU32Word word.now number → ⊥) }
{
    let number = number_of(word, 10, 10)?;
    if number > u64::from(u32::MAX) {
        return None;
    }
    Some(number as u32)
}

/// The number that a word of at most so many digits writes.
pub fn number_of(word: &[u8], radix: u32, most_digits: usize) -> Option<u64>
    requires radix { radix ≤ 16 }
    requires binary { 2 ≤ radix }
    requires digits { most_digits ≤ 12 }
    ensures found { IfSome result (IsNumberWord radix most_digits word.now) }
    ensures refuses { IfNone result ((number : ℕ) → IsNumberWord radix most_digits word.now number → ⊥) }
{
    if word.is_empty() || word.len() > most_digits {
        return None;
    }
    let mut number = 0;
    for byte in word {
        let digit = char::from(*byte).to_digit(radix)?;
        number = number * u64::from(radix) + u64::from(digit);
    }
    Some(number)
}
