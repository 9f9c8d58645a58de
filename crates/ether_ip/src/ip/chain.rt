//! The chain of extension headers behind an IPv6 header (RFC 8200, section 4.1).
ghost use Rattle.std.specs.Prelude.{◌≡◌, List, length, take};
ghost use Rattle.ether_link.specs.Form.{Reads, header_len};
ghost use Rattle.ether_link.specs.declared.layout.Place.{Place};
ghost use Rattle.ether_ip.specs.ExtensionGrammar.{extension_form_of, extension_kind, first_extension_kind, kind_behind};
ghost use Rattle.ether_ip.specs.Chain.{chain_errors, IsChainEnd};
ghost use Rattle.ether_ip.specs.Extensions.{extension_slice};
ghost use Rattle.ether_ip.specs.RawExt.{raw_ext_form, raw_ext_layer};
ghost use Rattle.ether_ip.specs.declared.err.ipv6_exts.HeaderSliceError.TheVariants.{Len};

use crate::err::ip_auth::HeaderSliceError as AuthError;
use crate::err::ipv6_exts::{HeaderError, HeaderSliceError};
use crate::{
    IpAuthHeaderSlice, Ipv6ExtensionSlice, Ipv6FragmentHeaderSlice, Ipv6RawExtHeaderSlice,
};
use ether_link::{IpNumber, PartKind, Stop};

/// The extension header that a number names in the chain.
pub fn extension_kind(number: IpNumber) -> Option<PartKind>
    ensures { result ≡ extension_kind number.0 }
{
    match number {
        IpNumber::IPV6_HEADER_HOP_BY_HOP => Some(PartKind::LateHopByHop),
        IpNumber::IPV6_ROUTE_HEADER => Some(PartKind::Route),
        IpNumber::IPV6_FRAGMENTATION_HEADER => Some(PartKind::Fragment),
        IpNumber::IPV6_DESTINATION_OPTIONS => Some(PartKind::DestinationOptions),
        IpNumber::AUTHENTICATION_HEADER => Some(PartKind::Ipv6Auth),
        _ => None,
    }
}

/// The extension header that a number names right behind the IPv6 header.
pub fn first_extension_kind(number: IpNumber) -> Option<PartKind>
    ensures { result ≡ first_extension_kind number.0 }
{
    if number == IpNumber::IPV6_HEADER_HOP_BY_HOP {
        Some(PartKind::HopByHop)
    } else {
        extension_kind(number)
    }
}

/// The extension header that a number names behind another one; behind an IPv4 header there is one at
/// most.
pub fn extension_behind(kind: PartKind, number: IpNumber) -> Option<PartKind>
    ensures { result ≡ kind_behind kind number.0 }
{
    match kind {
        PartKind::Ipv4Auth => None,
        _ => extension_kind(number),
    }
}

/// The extension header of a kind that some bytes begin with. Hop-by-hop options that do not stand
/// right behind the IPv6 header are refused, whatever the bytes.
#[tactic(auto, using(crate::proofs::ChainLemmas::auth_accepts, crate::proofs::ChainLemmas::auth_refuses, crate::proofs::ChainLemmas::fragment_accepts, crate::proofs::ChainLemmas::fragment_refuses))]
pub fn read_extension(
    kind: PartKind,
    bytes: &[u8],
) -> Result<Ipv6ExtensionSlice<'_>, HeaderSliceError>
    ensures value { Reads (extension_form_of chain_errors kind) bytes.now result
        (λ header. header ≡ extension_slice kind
        (take (header_len (extension_form_of chain_errors kind) bytes.now) bytes.now)) }
{
    match kind {
        PartKind::HopByHop => match read_raw(IpNumber::IPV6_HEADER_HOP_BY_HOP, bytes) {
            Ok(header) => Ok(Ipv6ExtensionSlice::HopByHop(header)),
            Err(error) => Err(error),
        },
        PartKind::Route => match read_raw(IpNumber::IPV6_ROUTE_HEADER, bytes) {
            Ok(header) => Ok(Ipv6ExtensionSlice::Routing(header)),
            Err(error) => Err(error),
        },
        PartKind::DestinationOptions => {
            match read_raw(IpNumber::IPV6_DESTINATION_OPTIONS, bytes) {
                Ok(header) => Ok(Ipv6ExtensionSlice::DestinationOptions(header)),
                Err(error) => Err(error),
            }
        }
        PartKind::Fragment => match Ipv6FragmentHeaderSlice::from_slice(bytes) {
            Ok(header) => Ok(Ipv6ExtensionSlice::Fragment(header)),
            Err(error) => Err(HeaderSliceError::Len(error)),
        },
        PartKind::Ipv4Auth | PartKind::Ipv6Auth => match IpAuthHeaderSlice::from_slice(bytes) {
            Ok(header) => Ok(Ipv6ExtensionSlice::Authentication(header)),
            Err(AuthError::Len(error)) => Err(HeaderSliceError::Len(error)),
            Err(AuthError::Content(error)) => Err(HeaderSliceError::Content(HeaderError::IpAuth(
                error,
            ))),
        },
        _ => Err(HeaderSliceError::Content(HeaderError::HopByHopNotAtStart)),
    }
}

/// A header of a number that gives its length in units of eight bytes.
#[tactic(auto, using(crate::proofs::ChainLemmas::raw_ext_accepts, crate::proofs::ChainLemmas::raw_ext_refuses))]
fn read_raw(number: IpNumber, bytes: &[u8]) -> Result<Ipv6RawExtHeaderSlice<'_>, HeaderSliceError>
    ensures { Reads (raw_ext_form (raw_ext_layer number.0) Len) bytes.now result
        (λ header. header
        ≡ take (header_len (raw_ext_form (raw_ext_layer number.0) Len) bytes.now) bytes.now) }
{
    match Ipv6RawExtHeaderSlice::from_slice(number, bytes) {
        Ok(header) => Ok(header),
        Err(error) => Err(HeaderSliceError::Len(error)),
    }
}

/// How far a reader of extension headers came.
#[derive(Clone, Copy)]
pub(crate) struct ChainEnd {
    /// Where it stands, in bytes.
    pub(crate) at: usize,
    /// What stands there.
    pub(crate) number: IpNumber,
    pub(crate) fragmented: bool,
    /// The header that was refused there.
    pub(crate) stop: Option<Stop<HeaderSliceError>>,
}

/// Reads extension headers up to the first one that is refused, or to a number that names none.
pub(crate) fn chain_end(start: IpNumber, bytes: &[u8]) -> ChainEnd
    ensures value { (places : List Place)
        × IsChainEnd bytes.now start.0 result.at result.number.0 result.fragmented result.stop places }
{
    let (mut at, mut number, mut fragmented) = (0, start, false);
    let mut named = first_extension_kind(start);
    while let Some(kind) = named {
        match read_extension(kind, &bytes[at..]) {
            Err(refusal) => {
                let start = at;
                return ChainEnd {
                    at,
                    number,
                    fragmented,
                    stop: Some(Stop {
                        kind,
                        start,
                        refusal,
                    }),
                };
            }
            Ok(header) => {
                fragmented = header.is_fragmenting_behind(fragmented);
                number = header.next_header();
                at += header.slice().len();
                named = extension_behind(kind, number);
            }
        }
    }
    ChainEnd {
        at,
        number,
        fragmented,
        stop: None,
    }
}
