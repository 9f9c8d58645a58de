//! The authentication header of IPsec (RFC 4302, section 2).
ghost use Rattle.std.specs.Prelude.{◌≡◌, ℕ, ◌+◌, ◌*◌, ◌%◌, ◌≤◌, ◌↔◌, List, length, take, drop, slice_index, nat_eq, IsOk, OnErr, OnOk, IfOk};
ghost use Rattle.std.specs.Cmp.Lexicographic.{pointwise, nat_list_eq_equiv};
ghost use Rattle.std.specs.Cmp.{partial_equiv_from_equiv};
ghost use Rattle.std.specs.Cmp.Rules.{comparing};
ghost use Rattle.std.proofs.Common.{rules};
ghost use Rattle.wire_base.specs.Bytes.{bytes_between, be32_at};
ghost use Rattle.net_wire.specs.Protocol.{ip_protocol_of, IsNamed};
ghost use Rattle.ipsec_wire.specs.Ah.{IsWhole, IsCut, IsWritable, header_len, header_of, header_bytes};

use net_wire::{Error, IpProtocol};
use std::convert::AsSlice;
use std::marker::Model;
use wire_base::number::{append, read_be32};

/// The bytes of the fields in front of the integrity check value.
const FIXED_LEN: usize = 12;

/// A packet that begins with an authentication header, to be read. A contract sees its bytes.
#[derive(Debug, Drop)]
pub struct Packet<'a> {
    buffer: &'a [u8],
}

impl<'a> Model for Packet<'a> {
    ghost Value = { List ℕ };

    ghost view = { λ packet. packet.buffer.now };
}

impl<'a> Packet<'a> {
    /// Takes the bytes as they are.
    pub fn new_unchecked(buffer: &'a [u8]) -> Packet<'a>
        ensures value { result ≡ buffer.now }
    {
        Packet { buffer }
    }

    /// Takes the bytes where they begin with a whole header.
    pub fn new_checked(buffer: &'a [u8]) -> Result<Packet<'a>, Error>
        ensures value { IfOk result (λ packet. packet ≡ buffer.now) }
        ensures ok { IsOk result ↔ IsWhole buffer.now }
        ensures refuses { OnErr result (IsCut buffer.now) }
    {
        let packet = Packet::new_unchecked(buffer);
        packet.check_len()?;
        Ok(packet)
    }

    /// Whether a whole header is there.
    pub fn check_len(&self) -> Result<(), Error>
        ensures ok { IsOk result ↔ IsWhole self.now }
        ensures refuses { OnErr result (IsCut self.now) }
    {
        let bytes = self.buffer;
        if bytes.len() < FIXED_LEN || bytes[1] == 0 || bytes.len() < announced_len(bytes[1]) {
            return Err(Error);
        }
        Ok(())
    }

    pub fn into_inner(self) -> &'a [u8]
        ensures value { result.now ≡ self.entry }
    {
        self.buffer
    }

    /// What is behind the header.
    pub fn next_header(&self) -> IpProtocol
        requires { IsWhole self.now }
        ensures value { result ≡ ip_protocol_of (slice_index self.now 0) }
    {
        IpProtocol::from(self.buffer[0])
    }

    /// The length field: the words of 32 bits in the header, less 2.
    pub fn payload_len(&self) -> u8
        requires { IsWhole self.now }
        ensures value { result ≡ slice_index self.now 1 }
    {
        self.buffer[1]
    }

    pub fn security_parameters_index(&self) -> u32
        requires { IsWhole self.now }
        ensures value { result ≡ be32_at self.now 4 }
    {
        read_be32(self.buffer, 4)
    }

    pub fn sequence_number(&self) -> u32
        requires { IsWhole self.now }
        ensures value { result ≡ be32_at self.now 8 }
    {
        read_be32(self.buffer, 8)
    }

    pub fn integrity_check_value(&self) -> &'a [u8]
        requires { IsWhole self.now }
        ensures value { result.now ≡ bytes_between 12 (header_len self.now) self.now }
        ensures words { length result.now % 4 ≡ 0 }
        ensures fits { length result.now ≤ 1016 }
    {
        let bytes = self.buffer;
        &bytes[FIXED_LEN..announced_len(bytes[1])]
    }
}

/// The bytes of a header by its length field.
fn announced_len(payload_len: u8) -> usize
    ensures { result ≡ (payload_len + 2) * 4 }
{
    (usize::from(payload_len) + 2) * 4
}

impl<'a> AsSlice<u8> for Packet<'a> {
    ghost items = { λ packet. packet };

    fn as_slice(&self) -> &[u8] {
        self.buffer
    }
}

impl<'a> PartialEq for Packet<'a> {
    ghost eq = { pointwise nat_eq };

    ghost laws = { partial_equiv_from_equiv nat_list_eq_equiv };

    fn eq(&self, other: &Self) -> bool {
        self.buffer == other.buffer
    }
}

impl<'a> Eq for Packet<'a> {
    ghost laws = { nat_list_eq_equiv };
}

/// Bytes that an authentication header is written to.
#[derive(Debug, Drop)]
pub struct PacketMut<'a> {
    buffer: &'a mut [u8],
}

impl<'a> PacketMut<'a> {
    /// Takes the bytes as they are.
    pub fn new_unchecked(buffer: &'a mut [u8]) -> PacketMut<'a>
        ensures same_reference { result.buffer.ghost_name ≡ buffer.entry.ghost_name }
        ensures value { result.buffer.now ≡ buffer.old }
    {
        PacketMut { buffer }
    }

    pub fn into_inner(self) -> &'a mut [u8]
        ensures same_reference { result.ghost_name ≡ self.entry.buffer.ghost_name }
        ensures value { result.now ≡ self.entry.buffer.now }
    {
        self.buffer
    }

    /// The check value of the header that the bytes begin with, to be written.
    pub fn integrity_check_value_mut(&mut self) -> &mut [u8]
        requires { IsWhole self.old.buffer.now }
        ensures value { result.now ≡ bytes_between 12 (header_len self.old.buffer.now) self.old.buffer.now }
    {
        let end = announced_len(self.buffer[1]);
        &mut self.buffer[FIXED_LEN..end]
    }
}

impl<'a> PartialEq for PacketMut<'a> {
    ghost eq = { λ packet other. pointwise nat_eq packet.buffer.now other.buffer.now };

    ghost laws = { Prim.search (comparing, rules) };

    fn eq(&self, other: &Self) -> bool {
        self.buffer[..] == other.buffer[..]
    }
}

impl<'a> Eq for PacketMut<'a> {
    ghost laws = { Prim.search (comparing, rules) };
}

/// An authentication header as a value. Its check value has whole words of 32 bits, at most 254.
#[derive(Debug, Clone, Copy, PartialEq, Eq)]
pub struct Repr<'a> {
    next_header: IpProtocol,
    security_parameters_index: u32,
    sequence_number: u32,
    integrity_check_value: &'a [u8],
    ghost named: { IsNamed next_header },
    ghost words: { length integrity_check_value.now % 4 ≡ 0 },
    ghost fits: { length integrity_check_value.now ≤ 1016 },
}

impl<'a> Repr<'a> {
    ghost use Rattle.ipsec_wire.specs.AhRepr.{header_value};

    pub fn new(next_header: IpProtocol, spi: u32, sequence: u32, icv: &'a [u8]) -> Repr<'a>
        requires words { length icv.now % 4 ≡ 0 }
        requires fits { length icv.now ≤ 1016 }
        // An unknown next header does not hold the number of a named one.
        requires named { IsNamed next_header }
        ensures value { header_value result
            ≡ record {
              next_header = next_header;
              security_parameters_index = spi;
              sequence_number = sequence;
              integrity_check_value = icv.now;
            } }
    {
        Repr {
            next_header,
            security_parameters_index: spi,
            sequence_number: sequence,
            integrity_check_value: icv,
        }
    }

    /// Reads the header where a whole one is there.
    pub fn parse(packet: &Packet<'a>) -> Result<Repr<'a>, Error>
        ensures value { IfOk result (λ repr. header_value repr ≡ header_of packet.now) }
        ensures ok { IsOk result ↔ IsWhole packet.now }
        ensures refuses { OnErr result (IsCut packet.now) }
    {
        packet.check_len()?;
        Ok(Repr {
            next_header: packet.next_header(),
            security_parameters_index: packet.security_parameters_index(),
            sequence_number: packet.sequence_number(),
            integrity_check_value: packet.integrity_check_value(),
        })
    }

    /// The bytes of the header.
    pub fn buffer_len(&self) -> usize
        ensures value { result ≡ 12 + length self.now.integrity_check_value.now }
        ensures len { result ≡ length (header_bytes (header_value self.now)) }
    {
        FIXED_LEN + self.integrity_check_value.len()
    }

    /// Writes the header to the front of the packet, the reserved bytes as 0.
    pub fn emit(&self, packet: &mut PacketMut<'_>)
        requires { 12 + length self.now.integrity_check_value.now ≤ length packet.old.buffer.now }
        ensures front { take (12 + length self.now.integrity_check_value.now) packet.new.buffer.now
            ≡ header_bytes (header_value self.now) }
        ensures rest { drop (12 + length self.now.integrity_check_value.now) packet.new.buffer.now
            ≡ drop (12 + length self.now.integrity_check_value.now) packet.old.buffer.now }
        ensures whole { IsWhole packet.new.buffer.now }
        ensures read { header_of packet.new.buffer.now ≡ header_value self.now }
        ensures same_reference { packet.new.buffer.ghost_name ≡ packet.old.buffer.ghost_name }
    {
        self.write(packet.buffer);
    }

    /// Writes the header to the front of the bytes.
    #[tactic(auto, unfolding(crate::specs::Ah::header_bytes))]
    fn write(&self, into: &mut [u8])
        requires { 12 + length self.now.integrity_check_value.now ≤ length into.old }
        ensures front { take (12 + length self.now.integrity_check_value.now) into.new
            ≡ header_bytes (header_value self.now) }
        ensures rest { drop (12 + length self.now.integrity_check_value.now) into.new
            ≡ drop (12 + length self.now.integrity_check_value.now) into.old }
        ensures writable { IsWritable (header_value self.now) }
    {
        let payload_len = ((FIXED_LEN + self.integrity_check_value.len()) / 4 - 2) as u8;
        let at = append(into, 0, &[self.next_header.into(), payload_len, 0, 0]);
        let at = append(into, at, &self.security_parameters_index.to_be_bytes());
        let at = append(into, at, &self.sequence_number.to_be_bytes());
        append(into, at, self.integrity_check_value);
    }
}
