//! The step from one part of a packet to the next.
ghost use Rattle.std.specs.Prelude.{◌≡◌, ◌≤◌, length, slice_range};
ghost use Rattle.ether_link.specs.Form.{Reads};
ghost use Rattle.ether_link.specs.Layout.{window_end};
ghost use Rattle.ether_link.specs.Places.{is_cut_off};
ghost use Rattle.ether_link.specs.LinkGrammar.{by_ether_type};
ghost use Rattle.ether_ip.specs.ExtensionGrammar.{fragmented_behind};
ghost use Rattle.ether_ip.specs.PacketGrammar.{packet_grammar, transport_kind, part_turn};
ghost use Rattle.ether_lax.specs.Steps.{IsHeaderOf, MayStandBehind, IsStep, begins_with};
ghost use Rattle.ether_lax.specs.Parts.{source_by};

use crate::read_part::read_part;
use ether_ip::err::packet::SliceError;
use ether_ip::ip::chain::extension_behind;
use ether_ip::ip::headers::{extension_in, is_fragment_in, number_in};
use ether_ip::{
    Ipv4HeaderSlice, Ipv6ExtensionSlice, Ipv6HeaderSlice, TransportSlice, ip_announced, ip_window,
};
use ether_link::link::linux_sll::protocol_type;
use ether_link::{
    ArpHardwareId, ArpPacketSlice, EtherType, Ethernet2Slice, IpNumber, LenSource,
    LinuxSllProtocolType, LinuxSllSlice, MacsecHeaderSlice, PartKind, Place, SingleVlanSlice, Turn,
};
use wire_base::number::{read_be16, read_flag};

/// A part of a packet: a frame, a tag or a transport part with what it carries, else the header alone.
#[derive(Clone, Debug, Drop, PartialEq, Eq)]
pub enum Part<'a> {
    Ethernet2(Ethernet2Slice<'a>),
    LinuxSll(LinuxSllSlice<'a>),
    Vlan(SingleVlanSlice<'a>),
    Macsec(MacsecHeaderSlice<'a>),
    Arp(ArpPacketSlice<'a>),
    Ipv4(Ipv4HeaderSlice<'a>),
    Ipv6(Ipv6HeaderSlice<'a>),
    Extension(Ipv6ExtensionSlice<'a>),
    Transport(TransportSlice<'a>),
}

/// A part where it lies, and the part that it names.
#[derive(Clone, Debug, Drop, PartialEq, Eq)]
pub struct NextLayer<'a> {
    pub place: Place,
    pub part: Part<'a>,
    /// Where the end of the part's window is from.
    pub len_source: LenSource,
    /// The part announces more bytes than are there.
    pub incomplete: bool,
    pub next: Option<Turn>,
}

/// The part whose turn it is, in the bytes of a frame from `start` to `end`, or the first thing that
/// refuses it, counted from `start`.
pub fn next_layer(
    frame: &[u8],
    turn: Turn,
    start: usize,
    end: usize,
) -> Result<NextLayer<'_>, SliceError>
    requires order { start ≤ end }
    requires within { end ≤ length frame.now }
    requires count { MayStandBehind turn.kind turn.link_exts }
    ensures value { Reads (packet_grammar.form_of turn.kind) (slice_range frame.now start end) result
        (λ layer. IsStep frame.now turn start end layer.place layer.part layer.len_source
        layer.incomplete layer.next) }
{
    let bytes = &frame[start..end];
    let (header_len, part) = read_part(turn.kind, bytes)?;
    let header = &bytes[..header_len];
    let said = announced(turn.kind, header);
    let there = cut_at(said, bytes.len());
    let place = Place {
        kind: turn.kind,
        start,
        body: start + header_len,
        end: start + there,
    };
    Ok(NextLayer {
        place,
        part,
        len_source: source(turn.kind, header, there),
        incomplete: is_cut_off(said, there),
        next: next_turn(turn, header),
    })
}

/// How many bytes a header says that it and its window have.
#[tactic(auto, using(crate::proofs::ReadLemmas::macsec_unmapped, crate::proofs::ReadLemmas::macsec_whole, crate::proofs::ReadLemmas::ip_header_has_room))]
fn announced(kind: PartKind, header: &[u8]) -> Option<usize>
    requires { IsHeaderOf kind header.now }
    ensures { result ≡ packet_grammar.announced kind header.now }
{
    match kind {
        PartKind::Macsec => match MacsecHeaderSlice::from_slice(header) {
            Ok(tag) => match tag.expected_payload_len() {
                Some(expected) => Some(header.len() + expected),
                None => None,
            },
            Err(_) => unreachable!(),
        },
        PartKind::Arp => Some(header.len()),
        PartKind::Ip => ip_announced(header),
        PartKind::Udp => {
            let length = usize::from(read_be16(header, 4));
            if length < 8 { None } else { Some(length) }
        }
        _ => None,
    }
}

/// The announced bytes, as far as they are there.
fn cut_at(said: Option<usize>, there: usize) -> usize
    ensures { result ≡ window_end 0 there said }
{
    match said {
        Some(said) if said <= there => said,
        _ => there,
    }
}

/// More bytes are announced than there are.
fn is_cut_off(said: Option<usize>, there: usize) -> bool
    ensures { result ≡ is_cut_off 0 there said }
{
    match said {
        Some(said) => there < said,
        None => false,
    }
}

/// Where the end of the window is from, of a part that has so many bytes with its window.
#[tactic(auto, using(crate::proofs::ReadLemmas::ip_header_has_room))]
fn source(kind: PartKind, header: &[u8], there: usize) -> LenSource
    requires { IsHeaderOf kind header.now }
    ensures { result ≡ source_by kind header.now there }
{
    match kind {
        PartKind::Macsec => match announced(kind, header) {
            Some(said) if said <= there => LenSource::MacsecShortLength,
            _ => LenSource::Slice,
        },
        PartKind::Ip => ip_window(header, there).len_source,
        _ => LenSource::Slice,
    }
}

/// The part that a header names.
#[tactic(auto, using(crate::proofs::ReadLemmas::macsec_unmapped, crate::proofs::ReadLemmas::macsec_whole, crate::proofs::ReadLemmas::ip_header_has_room))]
fn next_turn(turn: Turn, header: &[u8]) -> Option<Turn>
    requires header { IsHeaderOf turn.kind header.now }
    requires count { MayStandBehind turn.kind turn.link_exts }
    ensures { result ≡ packet_grammar.next turn header.now }
{
    match turn.kind {
        PartKind::Ethernet2 => by_ether_type(0, read_be16(header, 12)),
        PartKind::LinuxSll => {
            let hardware = ArpHardwareId(read_be16(header, 2));
            match protocol_type(hardware, read_be16(header, 14)) {
                Some(LinuxSllProtocolType::EtherType(number)) => by_ether_type(0, number.0),
                _ => None,
            }
        }
        PartKind::Vlan => by_ether_type(turn.link_exts + 1, read_be16(header, 2)),
        PartKind::Macsec => match MacsecHeaderSlice::from_slice(header) {
            Ok(tag) => match tag.next_ether_type() {
                Some(number) => by_ether_type(turn.link_exts + 1, number.0),
                None => None,
            },
            Err(_) => unreachable!(),
        },
        PartKind::Ip => part_turn(
            turn.link_exts,
            is_fragment_in(header),
            extension_in(header),
            number_in(header),
        ),
        PartKind::Arp | PartKind::Udp | PartKind::Tcp | PartKind::Icmpv4 | PartKind::Icmpv6 => None,
        kind => {
            let number = IpNumber(header[0]);
            part_turn(
                turn.link_exts,
                is_fragmented_behind(kind, turn.fragmented, header),
                extension_behind(kind, number),
                number,
            )
        }
    }
}

/// The part that an ether type names, behind some link extensions.
pub fn by_ether_type(link_exts: u8, number: u16) -> Option<Turn>
    ensures { result ≡ by_ether_type link_exts number }
{
    let kind = match EtherType(number) {
        EtherType::VLAN_TAGGED_FRAME
        | EtherType::PROVIDER_BRIDGING
        | EtherType::VLAN_DOUBLE_TAGGED_FRAME
            if link_exts < 3 => { PartKind::Vlan }
        EtherType::MACSEC if link_exts < 3 => PartKind::Macsec,
        EtherType::ARP => PartKind::Arp,
        EtherType::IPV4 | EtherType::IPV6 => PartKind::Ip,
        _ => return None,
    };
    Some(Turn {
        kind,
        link_exts,
        fragmented: false,
    })
}

/// The part that a number names: an extension header, or else the transport header, unless the packet
/// carries a fragment.
pub(crate) fn part_turn(
    link_exts: u8,
    fragmented: bool,
    extension: Option<PartKind>,
    number: IpNumber,
) -> Option<Turn>
    ensures { result ≡ part_turn link_exts fragmented extension number.0 }
{
    match extension {
        Some(kind) => Some(Turn {
            kind,
            link_exts,
            fragmented,
        }),
        None => {
            if fragmented {
                return None;
            }
            match transport_kind(number) {
                Some(kind) => Some(Turn {
                    kind,
                    link_exts,
                    fragmented: false,
                }),
                None => None,
            }
        }
    }
}

/// The transport header that a number names.
fn transport_kind(number: IpNumber) -> Option<PartKind>
    ensures { result ≡ transport_kind number.0 }
{
    match number {
        IpNumber::ICMP => Some(PartKind::Icmpv4),
        IpNumber::UDP => Some(PartKind::Udp),
        IpNumber::TCP => Some(PartKind::Tcp),
        IpNumber::IPV6_ICMP => Some(PartKind::Icmpv6),
        _ => None,
    }
}

/// What the packet carries is a fragment, as far as an extension header says and those before it.
fn is_fragmented_behind(kind: PartKind, before: bool, header: &[u8]) -> bool
    requires { IsHeaderOf kind header.now }
    ensures { result ≡ fragmented_behind kind before header.now }
{
    match kind {
        PartKind::Fragment => before || read_flag(header, 3, 0) || read_be16(header, 2) / 8 != 0,
        _ => before,
    }
}

/// The turn of the part that a frame begins with.
pub(crate) fn first(kind: PartKind) -> Option<Turn>
    ensures { result ≡ begins_with kind }
{
    Some(Turn {
        kind,
        link_exts: 0,
        fragmented: false,
    })
}
