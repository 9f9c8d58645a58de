//! Errors of headers as one of all errors of a slice.
ghost use Rattle.std.specs.Prelude.{◌≡◌};
ghost use Rattle.ether_err.specs.declared.from_slice_error.FromSliceError.TheVariants.{Len, LinuxSll, Ip, IpAuth, Ipv4, Ipv6, Ipv6Exts, Tcp};

use crate::FromSliceError;
use ether_ip::err::{ip, ip_auth, ipv4, ipv6, ipv6_exts, tcp};
use ether_link::err::{LenError, linux_sll};

impl From<LenError> for FromSliceError {
    ghost from_gives = { λ source error. error ≡ Len source };

    fn from(error: LenError) -> Self {
        FromSliceError::Len(error)
    }
}

impl From<linux_sll::HeaderError> for FromSliceError {
    ghost from_gives = { λ source error. error ≡ LinuxSll source };

    fn from(error: linux_sll::HeaderError) -> Self {
        FromSliceError::LinuxSll(error)
    }
}

impl From<ip::HeaderError> for FromSliceError {
    ghost from_gives = { λ source error. error ≡ Ip source };

    fn from(error: ip::HeaderError) -> Self {
        FromSliceError::Ip(error)
    }
}

impl From<ip_auth::HeaderError> for FromSliceError {
    ghost from_gives = { λ source error. error ≡ IpAuth source };

    fn from(error: ip_auth::HeaderError) -> Self {
        FromSliceError::IpAuth(error)
    }
}

impl From<ipv4::HeaderError> for FromSliceError {
    ghost from_gives = { λ source error. error ≡ Ipv4 source };

    fn from(error: ipv4::HeaderError) -> Self {
        FromSliceError::Ipv4(error)
    }
}

impl From<ipv6::HeaderError> for FromSliceError {
    ghost from_gives = { λ source error. error ≡ Ipv6 source };

    fn from(error: ipv6::HeaderError) -> Self {
        FromSliceError::Ipv6(error)
    }
}

impl From<ipv6_exts::HeaderError> for FromSliceError {
    ghost from_gives = { λ source error. error ≡ Ipv6Exts source };

    fn from(error: ipv6_exts::HeaderError) -> Self {
        FromSliceError::Ipv6Exts(error)
    }
}

impl From<tcp::HeaderError> for FromSliceError {
    ghost from_gives = { λ source error. error ≡ Tcp source };

    fn from(error: tcp::HeaderError) -> Self {
        FromSliceError::Tcp(error)
    }
}
