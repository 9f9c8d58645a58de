//! Queries as bytes (RFC 1035, sections 4.1.1 and 4.1.2).
ghost use Rattle.std.specs.Prelude.{◌≡◌, ◌+◌, length};

use super::Question;
use wire_base::number::append;

/// The flag of recursion, and the counts: one question and no records.
const COUNTS: [u8; 10] = [1, 0, 0, 1, 0, 0, 0, 0, 0, 0];

/// A query of one question.
#[derive(Clone, Copy, Debug, PartialEq, Eq)]
pub struct Repr<'a> {
    pub transaction_id: u16,
    pub question: Question<'a>,
}

impl<'a> Repr<'a> {
    ghost use Rattle.net_wire.specs.DnsMessage.{query_bytes};
    ghost use Rattle.net_wire.specs.DnsRead.{question_value};

    /// How many bytes the query has.
    pub fn buffer_len(&self) -> usize
        ensures value { result ≡ length self.now.question.name.now + 16 }
    {
        self.question.name.len() + 16
    }

    /// Writes the query, which fills `into`.
    #[tactic(auto, unfolding(crate::specs::DnsMessage::query_bytes))]
    pub fn emit(&self, into: &mut [u8])
        requires { length into.old ≡ length self.now.question.name.now + 16 }
        ensures value { into.new ≡ query_bytes self.now.transaction_id (question_value self.now.question) }
    {
        let at = append(into, 0, &self.transaction_id.to_be_bytes());
        let at = append(into, at, &COUNTS);
        let at = append(into, at, self.question.name);
        let at = append(into, at, &self.question.type_.number().to_be_bytes());
        append(into, at, &[0, 1]);
    }
}
