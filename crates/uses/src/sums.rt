//! `wire_base`: a header's checksum is tried, and written.
ghost use Rattle.std.specs.Prelude.{◌≡◌, ◌+◌, ◌<◌, ◌≤◌, ◌↔◌, ◌%◌, IsTrue, length};
ghost use Rattle.wire_base.specs.Bytes.{be16_at};
ghost use Rattle.wire_base.specs.Checksum.{SumsToZero, word_sum};

use wire_base::checksum::{checksum_of, sum_words};
use wire_base::number::read_be16;

/// A header whose words sum to zero is undamaged as far as its checksum tells (RFC 791, section 3.1).
pub fn is_undamaged(header: &[u8]) -> bool
    requires { length header.now ≤ 60 }
    ensures { IsTrue result ↔ SumsToZero header.now }
{
    sum_words(header) % 65535 == 0
}

/// The checksum of a header whose checksum field holds zero.
pub fn header_checksum(header: &[u8]) -> u16
    requires { length header.now ≤ 60 }
    ensures zero { (word_sum header.now + result) % 65535 ≡ 0 }
    ensures within { result < 65535 }
{
    checksum_of(sum_words(header))
}

/// The total length that an IPv4 header announces (RFC 791, section 3.1).
pub fn total_length(header: &[u8]) -> u16
    requires { 20 ≤ length header.now }
    ensures { result ≡ be16_at header.now 2 }
{
    read_be16(header, 2)
}
