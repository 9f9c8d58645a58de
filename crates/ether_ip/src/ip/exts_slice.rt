//! The bytes of the extension headers behind an IPv6 header (RFC 8200, section 4.1).
ghost use Rattle.std.specs.Prelude.{◌≡◌};
ghost use Rattle.ether_ip.specs.Chain.{placed_at};

use crate::err::ipv6_exts::HeaderSliceError;
use crate::ip::chain::chain_end;
use ether_link::IpNumber;
use ether_link::err::{Layer, LenError};

/// The extension headers behind an IPv6 header, one after another.
#[derive(Clone, Debug, Drop, PartialEq, Eq)]
pub struct Ipv6ExtensionsSlice<'a> {
    first_header: Option<IpNumber>,
    fragmented: bool,
    slice: &'a [u8],
}

impl<'a> Ipv6ExtensionsSlice<'a> {
    ghost use Rattle.ether_ip.specs.ChainSlice.{IsChainOf, first_header_of, bytes_of_extensions, is_fragmenting};

    /// The extension headers from a number on, as far as none is refused. Then come the number of what
    /// is behind them, the bytes behind them, and the refusal of the header that stands there, whose
    /// offset counts from the slice. Number 0 is that of the first header alone.
    pub fn from_slice_lax(
        start: IpNumber,
        slice: &'a [u8],
    ) -> (
        Ipv6ExtensionsSlice<'a>,
        IpNumber,
        &'a [u8],
        Option<(HeaderSliceError, Layer)>,
    )
        ensures value { IsChainOf slice.now start.0 result.0 result.1.0 result.2.now result.3 }
    {
        let end = chain_end(start, slice);
        let first_header = if end.at == 0 { None } else { Some(start) };
        let headers = Ipv6ExtensionsSlice {
            first_header,
            fragmented: end.fragmented,
            slice: &slice[..end.at],
        };
        let stop = match end.stop {
            Some(stop) => Some((refusal_at(stop.start, stop.refusal), stop.kind.layer())),
            None => None,
        };
        (headers, end.number, &slice[end.at..], stop)
    }

    /// The headers that a reader found one behind another: the number of the first one, if there is
    /// one, whether the packet carries a fragment as they say, and their bytes.
    pub fn from_headers(
        first_header: Option<IpNumber>,
        fragmented: bool,
        slice: &'a [u8],
    ) -> Ipv6ExtensionsSlice<'a>
        ensures first { first_header_of result ≡ first_header }
        ensures fragmented { is_fragmenting result ≡ fragmented }
        ensures bytes { bytes_of_extensions result ≡ slice.now }
    {
        Ipv6ExtensionsSlice {
            first_header,
            fragmented,
            slice,
        }
    }

    /// The number of the first header, if there is one.
    pub fn first_header(&self) -> Option<IpNumber>
        ensures value { result ≡ first_header_of self.now }
    {
        self.first_header
    }

    /// The bytes of the headers.
    pub fn slice(&self) -> &'a [u8]
        ensures value { result.now ≡ bytes_of_extensions self.now }
    {
        self.slice
    }

    /// What the packet carries is a fragment (RFC 8200, section 4.5).
    pub fn is_fragmenting_payload(&self) -> bool
        ensures value { result ≡ is_fragmenting self.now }
    {
        self.fragmented
    }
}

/// The refusal of a header that begins at a place.
pub(crate) fn refusal_at(start: usize, refusal: HeaderSliceError) -> HeaderSliceError
    ensures { result ≡ placed_at start refusal }
{
    match refusal {
        HeaderSliceError::Len(error) => HeaderSliceError::Len(LenError {
            layer_start_offset: start,
            ..error
        }),
        HeaderSliceError::Content(error) => HeaderSliceError::Content(error),
    }
}
