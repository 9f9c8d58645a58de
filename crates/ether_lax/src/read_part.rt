//! The parts of a packet by their kinds, each read by its own reader.
ghost use Rattle.std.specs.Prelude.{◌≡◌, take};
ghost use Rattle.ether_link.specs.Form.{Reads, header_len};
ghost use Rattle.ether_link.specs.Layout.{header};
ghost use Rattle.ether_link.specs.declared.layout.PartKind.TheVariants as kind;
ghost use Rattle.ether_ip.specs.PacketGrammar.{packet_grammar};
ghost use Rattle.ether_ip.specs.Extensions.{extension_slice};
ghost use Rattle.ether_lax.specs.Parts.{part_of};
ghost use Rattle.ether_lax.specs.Refusals.{IsChainKind, refusal_of};

use crate::step::Part;
use ether_ip::err::ip::LaxHeaderSliceError as IpError;
use ether_ip::err::ipv6_exts::{HeaderError as ExtError, HeaderSliceError as ChainError};
use ether_ip::err::packet::SliceError;
use ether_ip::err::tcp::HeaderSliceError as TcpError;
use ether_ip::ip::chain::read_extension;
use ether_ip::{
    Icmpv4Slice, Icmpv6Slice, Ipv4HeaderSlice, Ipv6HeaderSlice, TcpSlice, TransportSlice, UdpSlice,
    ip_header_len,
};
use ether_link::err::linux_sll::HeaderSliceError as LinuxSllError;
use ether_link::err::macsec::HeaderSliceError as MacsecError;
use ether_link::{
    ArpPacketSlice, Ethernet2Slice, LinuxSllSlice, MacsecHeaderSlice, PartKind, SingleVlanSlice,
};

/// The part of a kind that some bytes begin with, and the number of bytes of its header.
pub(crate) fn read_part(kind: PartKind, bytes: &[u8]) -> Result<(usize, Part<'_>), SliceError>
    ensures { Reads (packet_grammar.form_of kind) bytes.now result (λ read.
        (read.0 ≡ header_len (packet_grammar.form_of kind) bytes.now)
        × (read.1 ≡ part_of kind bytes.now)) }
{
    match kind {
        PartKind::Ethernet2 => read_ethernet2(bytes),
        PartKind::LinuxSll => read_linux_sll(bytes),
        PartKind::Vlan => read_vlan(bytes),
        PartKind::Macsec => read_macsec(bytes),
        PartKind::Arp => read_arp(bytes),
        PartKind::Ip => read_ip(bytes),
        PartKind::Udp => read_udp(bytes),
        PartKind::Tcp => read_tcp(bytes),
        PartKind::Icmpv4 => read_icmpv4(bytes),
        PartKind::Icmpv6 => read_icmpv6(bytes),
        PartKind::HopByHop => read_chain(PartKind::HopByHop, bytes),
        PartKind::LateHopByHop => read_chain(PartKind::LateHopByHop, bytes),
        PartKind::Route => read_chain(PartKind::Route, bytes),
        PartKind::Fragment => read_chain(PartKind::Fragment, bytes),
        PartKind::DestinationOptions => read_chain(PartKind::DestinationOptions, bytes),
        PartKind::Ipv4Auth => read_chain(PartKind::Ipv4Auth, bytes),
        PartKind::Ipv6Auth => read_chain(PartKind::Ipv6Auth, bytes),
    }
}

/// The header of an Ethernet frame, and what the frame carries.
#[tactic(auto, using(crate::proofs::MapLemmas::ethernet2_accepts, crate::proofs::MapLemmas::ethernet2_refuses, crate::proofs::ReadLemmas::all_there))]
fn read_ethernet2(bytes: &[u8]) -> Result<(usize, Part<'_>), SliceError>
    ensures { Reads (packet_grammar.form_of kind.Ethernet2) bytes.now result (λ read.
        (read.0 ≡ header_len (packet_grammar.form_of kind.Ethernet2) bytes.now)
        × (read.1 ≡ part_of kind.Ethernet2 bytes.now)) }
{
    match Ethernet2Slice::from_slice_without_fcs(bytes) {
        Ok(frame) => Ok((14, Part::Ethernet2(frame))),
        Err(error) => Err(SliceError::Len(error)),
    }
}

/// The header of a cooked packet, and what the packet carries.
#[tactic(auto, using(crate::proofs::MapLemmas::linux_sll_accepts, crate::proofs::MapLemmas::linux_sll_refuses, crate::proofs::ReadLemmas::all_there))]
fn read_linux_sll(bytes: &[u8]) -> Result<(usize, Part<'_>), SliceError>
    ensures { Reads (packet_grammar.form_of kind.LinuxSll) bytes.now result (λ read.
        (read.0 ≡ header_len (packet_grammar.form_of kind.LinuxSll) bytes.now)
        × (read.1 ≡ part_of kind.LinuxSll bytes.now)) }
{
    match LinuxSllSlice::from_slice(bytes) {
        Ok(packet) => Ok((16, Part::LinuxSll(packet))),
        Err(LinuxSllError::Len(error)) => Err(SliceError::Len(error)),
        Err(LinuxSllError::Content(error)) => Err(SliceError::LinuxSll(error)),
    }
}

/// A VLAN tag, and what it carries.
#[tactic(auto, using(crate::proofs::MapLemmas::vlan_accepts, crate::proofs::MapLemmas::vlan_refuses, crate::proofs::ReadLemmas::all_there))]
fn read_vlan(bytes: &[u8]) -> Result<(usize, Part<'_>), SliceError>
    ensures { Reads (packet_grammar.form_of kind.Vlan) bytes.now result (λ read.
        (read.0 ≡ header_len (packet_grammar.form_of kind.Vlan) bytes.now)
        × (read.1 ≡ part_of kind.Vlan bytes.now)) }
{
    match SingleVlanSlice::from_slice(bytes) {
        Ok(tag) => Ok((4, Part::Vlan(tag))),
        Err(error) => Err(SliceError::Len(error)),
    }
}

/// A security tag.
#[tactic(auto, using(crate::proofs::MapLemmas::macsec_accepts, crate::proofs::MapLemmas::macsec_refuses, crate::proofs::ReadLemmas::macsec_len))]
fn read_macsec(bytes: &[u8]) -> Result<(usize, Part<'_>), SliceError>
    ensures { Reads (packet_grammar.form_of kind.Macsec) bytes.now result (λ read.
        (read.0 ≡ header_len (packet_grammar.form_of kind.Macsec) bytes.now)
        × (read.1 ≡ part_of kind.Macsec bytes.now)) }
{
    match MacsecHeaderSlice::from_slice(bytes) {
        Ok(tag) => Ok((tag.header_len(), Part::Macsec(tag))),
        Err(MacsecError::Len(error)) => Err(SliceError::Len(error)),
        Err(MacsecError::Content(error)) => Err(SliceError::Macsec(error)),
    }
}

/// An ARP packet.
#[tactic(auto, using(crate::proofs::MapLemmas::arp_accepts, crate::proofs::MapLemmas::arp_refuses, crate::proofs::ReadLemmas::arp_len))]
fn read_arp(bytes: &[u8]) -> Result<(usize, Part<'_>), SliceError>
    ensures { Reads (packet_grammar.form_of kind.Arp) bytes.now result (λ read.
        (read.0 ≡ header_len (packet_grammar.form_of kind.Arp) bytes.now)
        × (read.1 ≡ part_of kind.Arp bytes.now)) }
{
    match ArpPacketSlice::from_slice(bytes) {
        Ok(packet) => Ok((packet.slice().len(), Part::Arp(packet))),
        Err(error) => Err(SliceError::Len(error)),
    }
}

/// A UDP header, and what it carries.
#[tactic(auto, using(crate::proofs::MapLemmas::udp_accepts, crate::proofs::MapLemmas::udp_refuses))]
fn read_udp(bytes: &[u8]) -> Result<(usize, Part<'_>), SliceError>
    ensures { Reads (packet_grammar.form_of kind.Udp) bytes.now result (λ read.
        (read.0 ≡ header_len (packet_grammar.form_of kind.Udp) bytes.now)
        × (read.1 ≡ part_of kind.Udp bytes.now)) }
{
    match UdpSlice::from_slice_lax(bytes) {
        Ok(part) => Ok((8, Part::Transport(TransportSlice::Udp(part)))),
        Err(error) => Err(SliceError::Len(error)),
    }
}

/// A TCP header, and what it carries.
#[tactic(auto, using(crate::proofs::MapLemmas::tcp_accepts, crate::proofs::MapLemmas::tcp_refuses, crate::proofs::ReadLemmas::all_there))]
fn read_tcp(bytes: &[u8]) -> Result<(usize, Part<'_>), SliceError>
    ensures { Reads (packet_grammar.form_of kind.Tcp) bytes.now result (λ read.
        (read.0 ≡ header_len (packet_grammar.form_of kind.Tcp) bytes.now)
        × (read.1 ≡ part_of kind.Tcp bytes.now)) }
{
    match TcpSlice::from_slice(bytes) {
        Ok(part) => Ok((
            part.header_len(),
            Part::Transport(TransportSlice::Tcp(part)),
        )),
        Err(TcpError::Len(error)) => Err(SliceError::Len(error)),
        Err(TcpError::Content(error)) => Err(SliceError::Tcp(error)),
    }
}

/// An ICMPv4 message.
#[tactic(auto, using(crate::proofs::MapLemmas::icmpv4_accepts, crate::proofs::MapLemmas::icmpv4_refuses, crate::proofs::ReadLemmas::all_there))]
fn read_icmpv4(bytes: &[u8]) -> Result<(usize, Part<'_>), SliceError>
    ensures { Reads (packet_grammar.form_of kind.Icmpv4) bytes.now result (λ read.
        (read.0 ≡ header_len (packet_grammar.form_of kind.Icmpv4) bytes.now)
        × (read.1 ≡ part_of kind.Icmpv4 bytes.now)) }
{
    match Icmpv4Slice::from_slice(bytes) {
        Ok(part) => Ok((
            part.header_len(),
            Part::Transport(TransportSlice::Icmpv4(part)),
        )),
        Err(error) => Err(SliceError::Len(error)),
    }
}

/// An ICMPv6 message.
#[tactic(auto, using(crate::proofs::MapLemmas::icmpv6_accepts, crate::proofs::MapLemmas::icmpv6_refuses, crate::proofs::ReadLemmas::all_there))]
fn read_icmpv6(bytes: &[u8]) -> Result<(usize, Part<'_>), SliceError>
    ensures { Reads (packet_grammar.form_of kind.Icmpv6) bytes.now result (λ read.
        (read.0 ≡ header_len (packet_grammar.form_of kind.Icmpv6) bytes.now)
        × (read.1 ≡ part_of kind.Icmpv6 bytes.now)) }
{
    match Icmpv6Slice::from_slice(bytes) {
        Ok(part) => Ok((8, Part::Transport(TransportSlice::Icmpv6(part)))),
        Err(error) => Err(SliceError::Len(error)),
    }
}

/// An IP header, by its version.
#[tactic(auto, using(crate::proofs::MapLemmas::ip_accepts, crate::proofs::MapLemmas::ip_refuses, ether_ip::proofs::IpLemmas::accepted_ipv4, ether_ip::proofs::IpLemmas::accepted_ipv6, ether_ip::proofs::IpLemmas::same_ipv4_len, ether_ip::proofs::IpLemmas::same_ipv6_len))]
fn read_ip(bytes: &[u8]) -> Result<(usize, Part<'_>), SliceError>
    ensures { Reads (packet_grammar.form_of kind.Ip) bytes.now result (λ read.
        (read.0 ≡ header_len (packet_grammar.form_of kind.Ip) bytes.now)
        × (read.1 ≡ part_of kind.Ip bytes.now)) }
{
    let header_len = match ip_header_len(bytes) {
        Ok(header_len) => header_len,
        Err(IpError::Len(error)) => return Err(SliceError::Len(error)),
        Err(IpError::Content(error)) => return Err(SliceError::Ip(error)),
    };
    if bytes[0] >> 4 == 4 {
        match Ipv4HeaderSlice::from_slice(bytes) {
            Ok(header) => Ok((header_len, Part::Ipv4(header))),
            Err(_) => unreachable!(),
        }
    } else {
        match Ipv6HeaderSlice::from_slice(bytes) {
            Ok(header) => Ok((header_len, Part::Ipv6(header))),
            Err(_) => unreachable!(),
        }
    }
}

/// An extension header.
#[tactic(auto, using(crate::proofs::MapLemmas::chain_accepts, crate::proofs::MapLemmas::chain_refuses, crate::proofs::ReadLemmas::chain_len))]
fn read_chain(kind: PartKind, bytes: &[u8]) -> Result<(usize, Part<'_>), SliceError>
    requires { IsChainKind kind }
    ensures { Reads (packet_grammar.form_of kind) bytes.now result (λ read.
        (read.0 ≡ header_len (packet_grammar.form_of kind) bytes.now)
        × (read.1 ≡ part_of kind bytes.now)) }
{
    match read_extension(kind, bytes) {
        Ok(header) => Ok((header.slice().len(), Part::Extension(header))),
        Err(error) => Err(refusal_of(kind, error)),
    }
}

/// The refusal of an extension header, as one of a part of a packet.
fn refusal_of(kind: PartKind, error: ChainError) -> SliceError
    ensures { result ≡ refusal_of kind error }
{
    match error {
        ChainError::Len(error) => SliceError::Len(error),
        ChainError::Content(ExtError::IpAuth(error)) if kind == PartKind::Ipv4Auth => {
            SliceError::Ipv4Exts(error)
        }
        ChainError::Content(error) => SliceError::Ipv6Exts(error),
    }
}
