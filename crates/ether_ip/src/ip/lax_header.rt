//! The header of an IP packet of either version, for readers that take payloads that are cut.
ghost use Rattle.std.specs.Prelude.{◌≡◌, ℕ, ◌+◌, ◌-◌, ◌*◌, ◌/◌, ◌%◌, ◌≤◌, length};
ghost use Rattle.ether_link.specs.Form.{Reads, header_len, len_error};
ghost use Rattle.ether_link.specs.declared.len_source.LenSource.TheVariants.{Slice};
ghost use Rattle.ether_ip.specs.declared.err.ip.LaxHeaderSliceError.TheVariants.{Len};
ghost use Rattle.ether_ip.specs.Ip.{ip_slice_form};

use crate::Ipv6Header;
use crate::err::ip::{HeaderError, LaxHeaderSliceError};
use ether_link::LenSource;
use ether_link::err::{Layer, LenError};

/// The number of bytes of the header that a slice begins with.
pub fn ip_header_len(slice: &[u8]) -> Result<usize, LaxHeaderSliceError>
    ensures { Reads ip_slice_form slice.now result
        (λ len. len ≡ header_len ip_slice_form slice.now) }
{
    if slice.is_empty() {
        return Err(wrong_len(Layer::IpHeader, slice, 1));
    }
    let (version_number, ihl) = (slice[0] >> 4, slice[0] & 0xf);
    let (layer, header_len) = match version_number {
        4 if ihl < 5 => {
            return Err(LaxHeaderSliceError::Content(HeaderError::Ipv4HeaderLengthSmallerThanHeader {
                ihl,
            }));
        }
        4 => (Layer::Ipv4Header, usize::from(ihl) * 4),
        6 => (Layer::Ipv6Header, Ipv6Header::LEN),
        _ => {
            return Err(LaxHeaderSliceError::Content(HeaderError::UnsupportedIpVersion {
                version_number,
            }));
        }
    };
    if slice.len() < header_len {
        return Err(wrong_len(layer, slice, header_len));
    }
    Ok(header_len)
}

/// The refusal of a slice that is too short for a header.
fn wrong_len(layer: Layer, slice: &[u8], required_len: usize) -> LaxHeaderSliceError
    ensures value { result ≡ Len (len_error layer Slice (length slice.now) required_len) }
{
    LaxHeaderSliceError::Len(LenError::at_start(layer, LenSource::Slice, slice.len(), required_len))
}
