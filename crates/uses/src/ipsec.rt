//! Headers of IPsec, written and read back.
ghost use Rattle.std.specs.Prelude.{◌≡◌, ◌+◌, ◌≤◌, length, IfOk, IsOk};
ghost use Rattle.ipsec_wire.specs.AhRepr.{header_value};
ghost use Rattle.ipsec_wire.specs.EspRepr.{header_value as esp_header_value};

use ipsec_wire::{ah, esp};
use net_wire::Error;

/// Writes an authentication header to the front of any bytes, and reads it back.
pub fn written_authentication_header<'a>(
    repr: &ah::Repr<'_>,
    into: &'a mut [u8],
) -> Result<ah::Repr<'a>, Error>
    requires { 12 + length repr.now.integrity_check_value.now ≤ length into.old }
    ensures ok { IsOk result }
    ensures value { IfOk result (λ read. header_value read ≡ header_value repr.now) }
{
    let mut packet = ah::PacketMut::new_unchecked(into);
    repr.emit(&mut packet);
    ah::Repr::parse(&ah::Packet::new_unchecked(packet.into_inner()))
}

/// Writes an ESP header to the front of any bytes, and reads it back.
pub fn written_security_payload(repr: &esp::Repr, into: &mut [u8]) -> Result<esp::Repr, Error>
    requires { 8 ≤ length into.old }
    ensures ok { IsOk result }
    ensures value { IfOk result (λ read. esp_header_value read ≡ esp_header_value repr.now) }
{
    let mut packet = esp::PacketMut::new_unchecked(into);
    repr.emit(&mut packet);
    esp::Repr::parse(&esp::Packet::new_unchecked(packet.into_inner()))
}
