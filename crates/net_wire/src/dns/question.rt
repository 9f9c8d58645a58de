//! Questions (RFC 1035, section 4.1.2).
ghost use Rattle.std.specs.Prelude.{◌≡◌, Some, None, MatchResult};

use super::DnsType;
use super::name::name_len;
use crate::Malformed;
use wire_base::number::read_be16;

/// A question of the internet's class.
#[derive(Clone, Copy, Debug, PartialEq, Eq)]
pub struct Question<'a> {
    /// In place, a pointer included.
    pub name: &'a [u8],
    pub type_: DnsType,
}

impl<'a> Question<'a> {
    ghost use Rattle.net_wire.specs.DnsMessage.{question_at};
    ghost use Rattle.net_wire.specs.DnsRead.{question_value};

    /// The bytes after the question that stands first, and the question.
    pub fn parse(bytes: &'a [u8]) -> Result<(&'a [u8], Question<'a>), Malformed>
        ensures value { MatchResult result
            (λ found. question_at bytes.now ≡ Some (question_value found.1, found.0.now))
            (λ _. question_at bytes.now ≡ None) }
    {
        let Some(len) = name_len(bytes) else {
            return Err(Malformed);
        };
        let (name, fixed) = bytes.split_at(len);
        if fixed.len() < 4 {
            return Err(Malformed);
        }
        if read_be16(fixed, 2) != 1 {
            return Err(Malformed);
        }
        let type_ = DnsType::from(read_be16(fixed, 0));
        Ok((&fixed[4..], Question { name, type_ }))
    }
}
