//! The headers of an IP packet as structs, whether all of the packet is there or not.
ghost use Rattle.std.specs.Prelude.{◌≡◌, ◌≤◌, length, option_map};
ghost use Rattle.ether_ip.specs.Auth.{auth_header};
ghost use Rattle.ether_link.specs.Form.{Reads, IsHeader};
ghost use Rattle.ether_ip.specs.Ip.{ip_slice_form};
ghost use Rattle.ether_ip.specs.IpHeaders.{number_in, extension_in, is_fragment_in, headers_with, refusal_in, IsReadOf};

use crate::err::ip::LaxHeaderSliceError;
use crate::err::ip_exts::{HeaderError, HeadersSliceError};
use crate::err::ipv6_exts;
use crate::ip::chain::first_extension_kind;
use crate::ip::held::{Behind, HeldEnd, held_end};
use crate::{
    ExtensionPlaces, IpAuthHeaderSlice, IpHeaders, Ipv4Extensions, Ipv4HeaderSlice,
    Ipv6HeaderSlice, LaxIpPayloadSlice, ip_header_len, ip_window,
};
use ether_link::err::{Layer, LenError};
use ether_link::{IpNumber, LenSource, PartKind};
use wire_base::number::{read_be16, read_flag};

impl IpHeaders {
    /// The headers that a packet begins with, and what they leave of it. The extension headers are
    /// read up to the first one that is refused or whose place is taken by one before it; the refusal
    /// counts from the start of the packet.
    pub fn from_slice_lax(
        slice: &[u8],
    ) -> Result<
        (
            IpHeaders,
            LaxIpPayloadSlice<'_>,
            Option<(HeadersSliceError, Layer)>,
        ),
        LaxHeaderSliceError,
    >
        ensures value { Reads ip_slice_form slice.now result
            (λ read. IsReadOf slice.now read.0 read.1 read.2) }
    {
        let header_len = ip_header_len(slice)?;
        let header = &slice[..header_len];
        let window = ip_window(header, slice.len());
        let before = Behind {
            at: header_len,
            number: number_in(header),
            fragmented: is_fragment_in(header),
        };
        let HeldEnd { held, behind, stop } = held_end(
            slice,
            window.end,
            extension_in(header),
            before,
        );
        let stop = match stop {
            Some(stop) => Some((
                refusal_in(
                    header[0] >> 4 == 4,
                    window.len_source,
                    stop.start,
                    stop.refusal,
                ),
                stop.kind.layer(),
            )),
            None => None,
        };
        let payload = LaxIpPayloadSlice {
            incomplete: window.incomplete,
            ip_number: behind.number,
            fragmented: behind.fragmented,
            len_source: window.len_source,
            payload: &slice[behind.at..window.end],
        };
        Ok((headers_with(header, &held), payload, stop))
    }
}

/// The number of what is behind a header.
pub fn number_in(header: &[u8]) -> IpNumber
    requires { 20 ≤ length header.now }
    ensures { result.0 ≡ number_in header.now }
{
    if header[0] >> 4 == 4 {
        IpNumber(header[9])
    } else {
        IpNumber(header[6])
    }
}

/// The extension header that a header names.
pub fn extension_in(header: &[u8]) -> Option<PartKind>
    requires { 20 ≤ length header.now }
    ensures { result ≡ extension_in header.now }
{
    if header[0] >> 4 != 4 {
        first_extension_kind(IpNumber(header[6]))
    } else if header[9] == IpNumber::AUTHENTICATION_HEADER.0 {
        Some(PartKind::Ipv4Auth)
    } else {
        None
    }
}

/// The header says that the packet carries a fragment.
pub fn is_fragment_in(header: &[u8]) -> bool
    requires { 20 ≤ length header.now }
    ensures { result ≡ is_fragment_in header.now }
{
    header[0] >> 4 == 4 && (read_flag(header, 6, 5) || read_be16(header, 6) & 0x1fff != 0)
}

/// A header and its extension headers.
#[tactic(auto, using(crate::proofs::IpLemmas::accepted_ipv4, crate::proofs::IpLemmas::accepted_ipv6, crate::proofs::IpLemmas::same_ipv4_len, crate::proofs::IpLemmas::same_ipv6_len))]
fn headers_with(header: &[u8], held: &ExtensionPlaces<'_>) -> IpHeaders
    requires { IsHeader ip_slice_form header.now }
    ensures { result ≡ headers_with header.now held.now }
{
    if header[0] >> 4 == 4 {
        match Ipv4HeaderSlice::from_slice(header) {
            Ok(header) => IpHeaders::Ipv4(header.to_header(), auth_of(&held.auth)),
            Err(_) => unreachable!(),
        }
    } else {
        match Ipv6HeaderSlice::from_slice(header) {
            Ok(header) => IpHeaders::Ipv6(header.to_header(), held.to_header()),
            Err(_) => unreachable!(),
        }
    }
}

/// The fields of an authentication header, if there is one.
fn auth_of(auth: &Option<IpAuthHeaderSlice<'_>>) -> Ipv4Extensions
    ensures { result.auth ≡ option_map auth_header auth.now }
{
    match auth {
        Some(auth) => Ipv4Extensions {
            auth: Some(auth.to_header()),
        },
        None => Ipv4Extensions { auth: None },
    }
}

/// The refusal of an extension header that begins at a place of a packet, in a window whose length is
/// from `len_source`.
fn refusal_in(
    is_ipv4: bool,
    len_source: LenSource,
    start: usize,
    refusal: ipv6_exts::HeaderSliceError,
) -> HeadersSliceError
    ensures { result ≡ refusal_in is_ipv4 len_source start refusal }
{
    match refusal {
        ipv6_exts::HeaderSliceError::Len(error) => HeadersSliceError::Len(LenError {
            len_source,
            layer_start_offset: start,
            ..error
        }),
        ipv6_exts::HeaderSliceError::Content(ipv6_exts::HeaderError::IpAuth(error)) if is_ipv4 => {
            HeadersSliceError::Content(HeaderError::Ipv4Ext(error))
        }
        ipv6_exts::HeaderSliceError::Content(error) => {
            HeadersSliceError::Content(HeaderError::Ipv6Ext(error))
        }
    }
}
