//! Options of a DHCP message as bytes: kind, length, value (RFC 2132, section 2). Each writer leaves out an
//! option that is not there, and answers where the next one begins.
ghost use Rattle.std.specs.Prelude.{◌≡◌, ℕ, ◌+◌, ◌≤◌, ◌++◌, ◌*◌, length, take, map, IfSome, Some};
ghost use Rattle.std.specs.List.{AllByRecursion, flat_map};
ghost use Rattle.std.specs.Option.{option_map};
ghost use Rattle.net_wire.specs.DhcpMessage.{option_value};
ghost use Rattle.net_wire.specs.DhcpBytes.{option_bytes, address_option, number16_option, number32_option, bytes_option, addresses_option, identifier_option, additional_bytes, IsWritableOption};

use super::DhcpOption;
use crate::{EthernetAddress, Ipv4Address};
use arrayvec::ArrayVec;
use wire_base::number::append;

/// An option of these bytes.
pub(super) fn append_option(into: &mut [u8], at: usize, kind: u8, bytes: &[u8]) -> usize
    requires len { length bytes.now ≤ 255 }
    requires room { at + length (option_bytes kind bytes.now) ≤ length into.old }
    ensures end { result ≡ at + length (option_bytes kind bytes.now) }
    ensures front { take result into.new ≡ take at into.old ++ option_bytes kind bytes.now }
{
    let at = append(into, at, &[kind, bytes.len() as u8]);
    append(into, at, bytes)
}

pub(super) fn append_address(
    into: &mut [u8],
    at: usize,
    kind: u8,
    address: Option<Ipv4Address>,
) -> usize
    requires { at + length (address_option kind address) ≤ length into.old }
    ensures end { result ≡ at + length (address_option kind address) }
    ensures front { take result into.new ≡ take at into.old ++ address_option kind address }
{
    match address {
        None => at,
        Some(address) => append_option(into, at, kind, &address.0),
    }
}

pub(super) fn append_number16(into: &mut [u8], at: usize, kind: u8, number: Option<u16>) -> usize
    requires { at + length (number16_option kind number) ≤ length into.old }
    ensures end { result ≡ at + length (number16_option kind number) }
    ensures front { take result into.new ≡ take at into.old ++ number16_option kind number }
{
    match number {
        None => at,
        Some(number) => append_option(into, at, kind, &number.to_be_bytes()),
    }
}

pub(super) fn append_number32(into: &mut [u8], at: usize, kind: u8, number: Option<u32>) -> usize
    requires { at + length (number32_option kind number) ≤ length into.old }
    ensures end { result ≡ at + length (number32_option kind number) }
    ensures front { take result into.new ≡ take at into.old ++ number32_option kind number }
{
    match number {
        None => at,
        Some(number) => append_option(into, at, kind, &number.to_be_bytes()),
    }
}

pub(super) fn append_identifier(
    into: &mut [u8],
    at: usize,
    address: Option<EthernetAddress>,
) -> usize
    requires { at + length (identifier_option 61 address) ≤ length into.old }
    ensures end { result ≡ at + length (identifier_option 61 address) }
    ensures front { take result into.new ≡ take at into.old ++ identifier_option 61 address }
{
    match address {
        None => at,
        Some(address) => {
            let at = append(into, at, &[61, 7, 1]);
            append(into, at, &address.0)
        }
    }
}

pub(super) fn append_bytes(into: &mut [u8], at: usize, kind: u8, bytes: Option<&[u8]>) -> usize
    requires len { IfSome bytes (λ bytes. length bytes.now ≤ 255) }
    requires room { at + length (bytes_option kind (option_map (λ bytes. bytes.now) bytes))
        ≤ length into.old }
    ensures end { result ≡ at + length (bytes_option kind (option_map (λ bytes. bytes.now) bytes.entry)) }
    ensures front { take result into.new
        ≡ take at into.old ++ bytes_option kind (option_map (λ bytes. bytes.now) bytes.entry) }
{
    match bytes {
        None => at,
        Some(bytes) => append_option(into, at, kind, bytes),
    }
}

/// The caller's options.
pub(super) fn append_additional(into: &mut [u8], at: usize, options: &[DhcpOption<'_>]) -> usize
    requires writable { AllByRecursion IsWritableOption (map option_value options.now) }
    requires room { at + length (additional_bytes (map option_value options.now)) ≤ length into.old }
    ensures end { result ≡ at + length (additional_bytes (map option_value options.now)) }
    ensures front { take result into.new
        ≡ take at into.old ++ additional_bytes (map option_value options.now) }
{
    let mut end = at;
    for option in options {
        end = append_option(into, end, option.kind, option.bytes);
    }
    end
}

pub(super) fn append_servers(
    into: &mut [u8],
    at: usize,
    servers: &Option<ArrayVec<Ipv4Address, 3>>,
) -> usize
    requires { at + length (addresses_option 6 (option_map (λ servers. servers.items) servers.now))
        ≤ length into.old }
    ensures end { result
        ≡ at + length (addresses_option 6 (option_map (λ servers. servers.items) servers.now)) }
    ensures front { take result into.new
        ≡ take at into.old ++ addresses_option 6 (option_map (λ servers. servers.items) servers.now) }
{
    match servers {
        None => at,
        Some(servers) => append_addresses(into, at, 6, servers.as_slice()),
    }
}

fn append_addresses(into: &mut [u8], at: usize, kind: u8, addresses: &[Ipv4Address]) -> usize
    requires few { length addresses.now ≤ 3 }
    requires room { at + length (addresses_option kind (Some addresses.now)) ≤ length into.old }
    ensures end { result ≡ at + length (addresses_option kind (Some addresses.now)) }
    ensures front { take result into.new ≡ take at into.old ++ addresses_option kind (Some addresses.now) }
{
    let mut end = append(into, at, &[kind, addresses_len(addresses) as u8]);
    for address in addresses {
        end = append(into, end, &address.0);
    }
    end
}

/// The length of addresses one behind another.
pub(super) fn addresses_len(addresses: &[Ipv4Address]) -> usize
    ensures value { result ≡ length (flat_map (λ address. address.0) addresses.now) }
    ensures within { result ≡ 4 * length addresses.now }
{
    let mut len = 0;
    for address in addresses {
        len += byte_count(*address);
    }
    len
}

fn byte_count(address: Ipv4Address) -> usize
    ensures value { result ≡ length address.0 }
    ensures within { result ≡ 4 }
{
    4
}

pub(super) fn address_len(address: Option<Ipv4Address>) -> usize
    ensures { (kind : ℕ) → result ≡ length (address_option kind address) }
{
    match address {
        None => 0,
        Some(_) => 6,
    }
}

pub(super) fn number16_len(number: Option<u16>) -> usize
    ensures { (kind : ℕ) → result ≡ length (number16_option kind number) }
{
    match number {
        None => 0,
        Some(_) => 4,
    }
}

pub(super) fn number32_len(number: Option<u32>) -> usize
    ensures { (kind : ℕ) → result ≡ length (number32_option kind number) }
{
    match number {
        None => 0,
        Some(_) => 6,
    }
}

pub(super) fn identifier_len(address: Option<EthernetAddress>) -> usize
    ensures { result ≡ length (identifier_option 61 address) }
{
    match address {
        None => 0,
        Some(_) => 9,
    }
}

pub(super) fn bytes_len(bytes: Option<&[u8]>) -> usize
    requires { IfSome bytes (λ bytes. length bytes.now ≤ 255) }
    ensures { (kind : ℕ) → result ≡ length (bytes_option kind (option_map (λ bytes. bytes.now) bytes.entry)) }
{
    match bytes {
        None => 0,
        Some(bytes) => 2 + bytes.len(),
    }
}

pub(super) fn servers_len(servers: &Option<ArrayVec<Ipv4Address, 3>>) -> usize
    ensures { result ≡ length (addresses_option 6 (option_map (λ servers. servers.items) servers.now)) }
{
    match servers {
        None => 0,
        Some(servers) => 2 + addresses_len(servers.as_slice()),
    }
}

pub(super) fn additional_len(options: &[DhcpOption<'_>]) -> usize
    requires { length (additional_bytes (map option_value options.now)) ≤ 65507 }
    ensures { result ≡ length (additional_bytes (map option_value options.now)) }
{
    let mut len = 0;
    for option in options {
        len += 2 + option.bytes.len();
    }
    len
}
