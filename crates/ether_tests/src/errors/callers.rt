//! Callers as a user would write them, proved from the contracts alone.
ghost use Rattle.std.specs.Prelude.{◌≡◌, Some};

use ether_err::{FromSliceError, ReadError, ipv4};
use ether_ip::err::{ip, tcp};

// A header's error is found again in the error that took it in.
pub(super) fn tcp_error(error: tcp::HeaderError) -> Option<tcp::HeaderError>
    ensures { result ≡ Some error }
{
    FromSliceError::from(error).tcp().copied()
}

// What one error of an IP packet was, whichever reader gave it.
pub(super) fn ip_error(error: ip::HeaderError) -> Option<ip::HeaderError>
    ensures { result ≡ Some error }
{
    FromSliceError::from(ip::SliceError::IpHeaders(ip::HeadersError::Ip(error)))
        .ip()
        .copied()
}

// A count that was read, or why it was not, as one of all errors.
pub(super) fn count_read(answer: Result<u8, ipv4::HeaderReadError>) -> Result<u8, ReadError> {
    Ok(answer?)
}
