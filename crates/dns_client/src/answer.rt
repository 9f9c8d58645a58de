//! The answer records of a response, and the chain of aliases through them.
ghost use Rattle.std.specs.Prelude.{◌≡◌, ◌≤◌, ◌++◌, ◌∷◌, [], ◌↔◌, List, take, IsTrue, IsSome, MatchOption};
ghost use Rattle.std.specs.Prelude.{Some, None, option_map};
ghost use Rattle.net_wire.specs.DnsLabels.{labels_left};
ghost use Rattle.net_wire.specs.DnsName.{name_of, wire_len};
ghost use Rattle.net_wire.specs.declared.address.IpAddress.{IpAddress};
ghost use Rattle.dns_client.specs.AnswerChain.{Name, AnswerValue, answer_at, answers_at, next_name};
ghost use Rattle.dns_client.specs.AnswerChain.{addresses_for, chain_answer, content_of};
ghost use Rattle.dns_client.specs.AnswerRead.{IfName, content_value, answer_value};
ghost use Rattle.net_wire.specs.DnsRead.{body_value};

use crate::name::is_whole;
use arrayvec::ArrayVec;
use net_wire::IpAddress;
use net_wire::dns::{Labels, Packet, Record, RecordData};

/// What an answer says.
#[derive(Clone, Copy)]
pub(crate) enum AnswerData<'a> {
    /// An address, by a record of the type of this number.
    Address(u16, IpAddress),
    /// The name that the owner is an alias of.
    Alias(Labels<'a>),
    Neither,
}

/// An answer whose names read whole.
#[derive(Clone, Copy)]
pub(crate) struct Answer<'a> {
    pub(crate) owner: Labels<'a>,
    pub(crate) content: AnswerData<'a>,
}

/// Whether two labels are the same, byte by byte.
fn is_same_label(one: &[u8], other: &[u8]) -> bool
    ensures { IsTrue result ↔ (one.now ≡ other.now) }
{
    one == other
}

/// Whether two runs of labels are the same.
pub(crate) fn same_labels(left: Labels<'_>, mut right: Labels<'_>) -> bool
    ensures { IsTrue result ↔ (labels_left left.entry ≡ labels_left right.entry) }
{
    for label in left {
        let Some(other) = right.next() else {
            return false;
        };
        match label {
            Ok(one) => match other {
                Ok(two) => {
                    if !is_same_label(one, two) {
                        return false;
                    }
                }
                Err(_) => return false,
            },
            Err(_) => match other {
                Ok(_) => return false,
                Err(_) => {}
            },
        }
    }
    right.next().is_none()
}

/// Whether labels are a whole name of at most 255 bytes, its closing zero included.
pub(crate) fn is_short(labels: Labels<'_>) -> bool
    ensures { IsTrue result ↔ IfName (name_of (labels_left labels.entry)) (λ name. wire_len name ≤ 255) }
{
    let mut len = 1;
    for label in labels {
        match label {
            Ok(text) => {
                if len + text.len() > 254 {
                    return false;
                }
                len += 1 + text.len();
            }
            Err(_) => return false,
        }
    }
    true
}

/// What a record says, if an alias in it reads whole and has at most 255 bytes.
#[tactic(auto, using(crate::proofs::AnswerLemmas::alias_whole, crate::proofs::AnswerLemmas::alias_some, crate::proofs::AnswerLemmas::alias_refused))]
fn content_of<'a>(packet: &Packet<'a>, body: RecordData<'a>) -> Option<AnswerData<'a>>
    ensures { MatchOption result (content_of packet.now (body_value body.entry) ≡ None)
        (λ told. (content_of packet.now (body_value body.entry) ≡ content_value told)
        × IsSome (content_value told)) }
{
    match body {
        RecordData::A(address) => Some(AnswerData::Address(1, IpAddress::Ipv4(address))),
        RecordData::Aaaa(address) => Some(AnswerData::Address(28, IpAddress::Ipv6(address))),
        RecordData::Cname(name) => {
            let labels = packet.parse_name(name);
            if is_short(labels) {
                Some(AnswerData::Alias(labels))
            } else {
                None
            }
        }
        RecordData::Other(_, _) => Some(AnswerData::Neither),
    }
}

/// The answer that stands first in the bytes, and the bytes after it.
fn first_answer<'a>(packet: &Packet<'a>, bytes: &'a [u8]) -> Option<(Answer<'a>, &'a [u8])>
    ensures { MatchOption result (answer_at packet.now bytes.now ≡ None)
        (λ found. (answer_at packet.now bytes.now
        ≡ option_map (λ value. (value, found.1.now)) (answer_value found.0))
        × IsSome (answer_value found.0)) }
{
    let Ok((after, record)) = Record::parse(bytes) else {
        return None;
    };
    let owner = packet.parse_name(record.name);
    if !is_whole(owner) {
        return None;
    }
    let Some(content) = content_of(packet, record.body) else {
        return None;
    };
    Some((Answer { owner, content }, after))
}

/// Keeps an address if it is one of the first four.
#[tactic(auto, using(crate::proofs::AnswerLemmas::first_four_full, crate::proofs::AnswerLemmas::first_four_room))]
fn add_first(found: &mut ArrayVec<IpAddress, 4>, address: IpAddress)
    ensures { (all : List IpAddress) → found.old.items ≡ take 4 all
        → found.new.items ≡ take 4 (all ++ address ∷ []) }
{
    if found.is_full() {
        return;
    }
    found.push(address);
}

/// Goes on along the chain by one answer: what it says counts if it is named as wanted.
fn follow_one<'a>(
    wanted: &mut Labels<'a>,
    found: &mut ArrayVec<IpAddress, 4>,
    answer: Answer<'a>,
    number: u16,
)
    ensures { (name : Name) (value : AnswerValue) (all : List IpAddress)
        → name_of (labels_left wanted.old) ≡ Some name → answer_value answer.entry ≡ Some value
        → found.old.items ≡ take 4 all
        → (name_of (labels_left wanted.new) ≡ Some (next_name name value))
        × (found.new.items ≡ take 4 (all ++ addresses_for number name value)) }
{
    if same_labels(answer.owner, *wanted) {
        match answer.content {
            AnswerData::Alias(target) => *wanted = target,
            AnswerData::Address(other, address) => {
                if other == number {
                    add_first(found, address);
                }
            }
            AnswerData::Neither => {}
        }
    }
}

/// The addresses on the chain from a name on, through so many answers; `None` where one does not read whole.
pub(crate) fn follow<'a>(
    packet: &Packet<'a>,
    asked: Labels<'a>,
    number: u16,
    count: u16,
    records: &'a [u8],
) -> Option<ArrayVec<IpAddress, 4>>
    ensures { (name : Name) → name_of (labels_left asked.entry) ≡ Some name
        → option_map (λ found. found.items) result
        ≡ option_map (chain_answer number name) (answers_at packet.now count records.now) }
{
    let mut wanted = asked;
    let mut found = ArrayVec::new();
    let mut rest = records;
    for i in 0..count {
        let Some((answer, after)) = first_answer(packet, rest) else {
            return None;
        };
        follow_one(&mut wanted, &mut found, answer, number);
        rest = after;
    }
    Some(found)
}
