//! The header of the encapsulating security payload of IPsec (RFC 4303, section 2).
ghost use Rattle.std.specs.Prelude.{◌≡◌, ℕ, ◌^◌, ◌<◌, ◌≤◌, ◌↔◌, List, length, take, drop, nat_eq, IsOk, OnErr, IfOk};
ghost use Rattle.std.specs.Cmp.Lexicographic.{pointwise, nat_list_eq_equiv};
ghost use Rattle.std.specs.Cmp.{partial_equiv_from_equiv};
ghost use Rattle.std.specs.Cmp.Rules.{comparing};
ghost use Rattle.std.proofs.Common.{rules};
ghost use Rattle.wire_base.specs.Bytes.{be32_at};
ghost use Rattle.ipsec_wire.specs.Esp.{IsWhole, header_of, header_bytes};

use net_wire::Error;
use std::convert::AsSlice;
use std::marker::Model;
use wire_base::number::{append, read_be32};

/// The bytes of the header.
const HEADER_LEN: usize = 8;

/// A packet that begins with an ESP header, to be read. A contract sees its bytes.
#[derive(Debug, Drop)]
pub struct Packet<'a> {
    buffer: &'a [u8],
}

impl<'a> Model for Packet<'a> {
    ghost Value = { List ℕ };

    ghost view = { λ packet. packet.buffer.now };
}

impl<'a> Packet<'a> {
    /// Takes the bytes as they are.
    pub fn new_unchecked(buffer: &'a [u8]) -> Packet<'a>
        ensures value { result ≡ buffer.now }
    {
        Packet { buffer }
    }

    /// Takes the bytes where they begin with a whole header.
    pub fn new_checked(buffer: &'a [u8]) -> Result<Packet<'a>, Error>
        ensures value { IfOk result (λ packet. packet ≡ buffer.now) }
        ensures ok { IsOk result ↔ IsWhole buffer.now }
        ensures refuses { OnErr result (length buffer.now < 8) }
    {
        let packet = Packet::new_unchecked(buffer);
        packet.check_len()?;
        Ok(packet)
    }

    /// Whether a whole header is there.
    pub fn check_len(&self) -> Result<(), Error>
        ensures ok { IsOk result ↔ IsWhole self.now }
        ensures refuses { OnErr result (length self.now < 8) }
    {
        if self.buffer.len() < HEADER_LEN {
            return Err(Error);
        }
        Ok(())
    }

    pub fn into_inner(self) -> &'a [u8]
        ensures value { result.now ≡ self.entry }
    {
        self.buffer
    }

    pub fn security_parameters_index(&self) -> u32
        requires { IsWhole self.now }
        ensures value { result ≡ be32_at self.now 0 }
    {
        read_be32(self.buffer, 0)
    }

    pub fn sequence_number(&self) -> u32
        requires { IsWhole self.now }
        ensures value { result ≡ be32_at self.now 4 }
    {
        read_be32(self.buffer, 4)
    }
}

impl<'a> AsSlice<u8> for Packet<'a> {
    ghost items = { λ packet. packet };

    fn as_slice(&self) -> &[u8] {
        self.buffer
    }
}

impl<'a> PartialEq for Packet<'a> {
    ghost eq = { pointwise nat_eq };

    ghost laws = { partial_equiv_from_equiv nat_list_eq_equiv };

    fn eq(&self, other: &Self) -> bool {
        self.buffer == other.buffer
    }
}

impl<'a> Eq for Packet<'a> {
    ghost laws = { nat_list_eq_equiv };
}

/// Bytes that an ESP header is written to.
#[derive(Debug, Drop)]
pub struct PacketMut<'a> {
    buffer: &'a mut [u8],
}

impl<'a> PacketMut<'a> {
    /// Takes the bytes as they are.
    pub fn new_unchecked(buffer: &'a mut [u8]) -> PacketMut<'a>
        ensures same_reference { result.buffer.ghost_name ≡ buffer.entry.ghost_name }
        ensures value { result.buffer.now ≡ buffer.old }
    {
        PacketMut { buffer }
    }

    pub fn into_inner(self) -> &'a mut [u8]
        ensures same_reference { result.ghost_name ≡ self.entry.buffer.ghost_name }
        ensures value { result.now ≡ self.entry.buffer.now }
    {
        self.buffer
    }
}

impl<'a> PartialEq for PacketMut<'a> {
    ghost eq = { λ packet other. pointwise nat_eq packet.buffer.now other.buffer.now };

    ghost laws = { Prim.search (comparing, rules) };

    fn eq(&self, other: &Self) -> bool {
        self.buffer[..] == other.buffer[..]
    }
}

impl<'a> Eq for PacketMut<'a> {
    ghost laws = { Prim.search (comparing, rules) };
}

/// An ESP header as a value.
#[derive(Debug, Clone, Copy, PartialEq, Eq)]
pub struct Repr {
    security_parameters_index: u32,
    sequence_number: u32,
}

impl Repr {
    ghost use Rattle.ipsec_wire.specs.EspRepr.{header_value};

    pub fn new(spi: u32, sequence: u32) -> Repr
        ensures value { header_value result
            ≡ record { security_parameters_index = spi; sequence_number = sequence } }
    {
        Repr {
            security_parameters_index: spi,
            sequence_number: sequence,
        }
    }

    /// Reads the header where a whole one is there.
    pub fn parse(packet: &Packet<'_>) -> Result<Repr, Error>
        ensures value { IfOk result (λ repr. header_value repr ≡ header_of packet.now) }
        ensures ok { IsOk result ↔ IsWhole packet.now }
        ensures refuses { OnErr result (length packet.now < 8) }
    {
        packet.check_len()?;
        Ok(Repr {
            security_parameters_index: packet.security_parameters_index(),
            sequence_number: packet.sequence_number(),
        })
    }

    /// The bytes of the header.
    pub fn buffer_len(&self) -> usize
        ensures value { result ≡ 8 }
    {
        HEADER_LEN
    }

    /// Writes the header to the front of the packet.
    pub fn emit(&self, packet: &mut PacketMut<'_>)
        requires { 8 ≤ length packet.old.buffer.now }
        ensures front { take 8 packet.new.buffer.now ≡ header_bytes (header_value self.now) }
        ensures rest { drop 8 packet.new.buffer.now ≡ drop 8 packet.old.buffer.now }
        ensures whole { IsWhole packet.new.buffer.now }
        ensures read { header_of packet.new.buffer.now ≡ header_value self.now }
        ensures same_reference { packet.new.buffer.ghost_name ≡ packet.old.buffer.ghost_name }
    {
        self.write(packet.buffer);
    }

    /// Writes the header to the front of the bytes.
    #[tactic(auto, unfolding(crate::specs::Esp::header_bytes))]
    fn write(&self, into: &mut [u8])
        requires { 8 ≤ length into.old }
        ensures front { take 8 into.new ≡ header_bytes (header_value self.now) }
        ensures rest { drop 8 into.new ≡ drop 8 into.old }
        ensures index { self.now.security_parameters_index < 2 ^ 32 }
        ensures sequence { self.now.sequence_number < 2 ^ 32 }
    {
        let at = append(into, 0, &self.security_parameters_index.to_be_bytes());
        append(into, at, &self.sequence_number.to_be_bytes());
    }
}
