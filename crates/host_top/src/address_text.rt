//! The texts of addresses.
ghost use Rattle.std.specs.Prelude.{◌≡◌, ◌<◌, false};
ghost use Rattle.std.specs.Fmt.{digits};
ghost use Rattle.net_wire.specs.Pretty.{hex_pair};
ghost use Rattle.capture_explain.specs.Text.{Puts};
ghost use Rattle.host_top.specs.AddressText.{address_text, ipv6_text, ip_text};

use capture_explain::text::{put, put_number};
use net_wire::{IpAddress, Ipv4Address, Ipv6Address};
use phy_layers::{ByteSink, SinkError};

/// Writes an address of either version.
pub fn put_ip<O: ByteSink>(out: &mut O, answer: &mut Result<(), SinkError>, address: IpAddress)
    ensures { Puts O.bytes O.faults O.grows answer.old answer.new (ip_text address) out.old out.new }
{
    match address {
        IpAddress::Ipv4(address) => put_address(out, answer, address),
        IpAddress::Ipv6(address) => put_ipv6(out, answer, address),
    }
}

/// Writes the four numbers of an address.
pub fn put_address<O: ByteSink>(
    out: &mut O,
    answer: &mut Result<(), SinkError>,
    address: Ipv4Address,
)
    ensures { Puts O.bytes O.faults O.grows answer.old answer.new (address_text address) out.old out.new }
{
    let [a, b, c, d] = address.0;
    put_number(out, answer, u64::from(a));
    put(out, answer, b".");
    put_number(out, answer, u64::from(b));
    put(out, answer, b".");
    put_number(out, answer, u64::from(c));
    put(out, answer, b".");
    put_number(out, answer, u64::from(d));
}

/// Writes the eight groups of an address.
fn put_ipv6<O: ByteSink>(out: &mut O, answer: &mut Result<(), SinkError>, address: Ipv6Address)
    ensures { Puts O.bytes O.faults O.grows answer.old answer.new (ipv6_text address) out.old out.new }
{
    let mut between: &[u8] = b"";
    for group in 0..8 {
        put(out, answer, between);
        put_byte(out, answer, address.0[2 * group]);
        put_byte(out, answer, address.0[2 * group + 1]);
        between = b":";
    }
}

/// Writes a byte as two hexadecimal digits.
fn put_byte<O: ByteSink>(out: &mut O, answer: &mut Result<(), SinkError>, byte: u8)
    ensures { Puts O.bytes O.faults O.grows answer.old answer.new (hex_pair byte) out.old out.new }
{
    put(out, answer, digit_of(byte / 16));
    put(out, answer, digit_of(byte % 16));
}

fn digit_of(number: u8) -> &'static [u8]
    requires { number < 16 }
    ensures { result.now ≡ digits 16 false number }
{
    let digits: &[u8] = b"0123456789abcdef";
    let at = usize::from(number);
    &digits[at..at + 1]
}
