//! The internet checksum (RFC 1071; RFC 791, section 3.1; RFC 768).
ghost use Rattle.std.specs.Prelude.{◌≡◌, ◌+◌, ◌*◌, ◌%◌, ◌^◌, ◌<◌, ◌≤◌, ◌≢◌, length};
ghost use Rattle.wire_base.specs.Checksum.{word_sum};

/// The sum of the 16-bit words, an odd last byte padded with a zero byte on the right.
pub fn sum_words(bytes: &[u8]) -> u64
    requires { length bytes.now < 2 ^ 40 }
    ensures value { result ≡ word_sum bytes.now }
    ensures within { 2 * result ≤ 65535 * (length bytes.now + 1) }
{
    let mut sum = 0;
    let mut rest = bytes;
    // Four words a step while there are as many, which takes less than half the time of one a step.
    while let [a, b, c, d, e, f, g, h, after @ ..] = rest {
        let (first, second) = (u16::from_be_bytes([*a, *b]), u16::from_be_bytes([*c, *d]));
        let (third, fourth) = (u16::from_be_bytes([*e, *f]), u16::from_be_bytes([*g, *h]));
        sum += u64::from(first) + u64::from(second) + u64::from(third) + u64::from(fourth);
        rest = after;
    }
    while let [high, low, after @ ..] = rest {
        sum += u64::from(*high) * 256 + u64::from(*low);
        rest = after;
    }
    if let [last] = rest {
        sum += u64::from(*last) * 256;
    }
    sum
}

/// The one number below FFFF that brings a sum of words to zero in one's complement arithmetic.
pub fn checksum_of(sum: u64) -> u16
    requires { sum < 2 ^ 60 }
    ensures zero { (sum + result) % 65535 ≡ 0 }
    ensures within { result < 65535 }
{
    let residue = sum % 65535;
    if residue == 0 {
        0
    } else {
        (65535 - residue) as u16
    }
}

/// The same checksum as UDP writes it: FFFF in place of 0, which would say that there is none
/// (RFC 768).
pub fn transmitted_checksum_of(sum: u64) -> u16
    requires { sum < 2 ^ 60 }
    ensures zero { (sum + result) % 65535 ≡ 0 }
    ensures present { result ≢ 0 }
{
    (65535 - sum % 65535) as u16
}
