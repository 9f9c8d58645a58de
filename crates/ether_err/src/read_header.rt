//! Errors of headers as one of all errors of reading.
ghost use Rattle.std.specs.Prelude.{◌≡◌};
ghost use Rattle.ether_err.specs.declared.read_error.ReadError.TheVariants.{Io, Len, LinuxSll, Macsec, Ip, IpAuth, Ipv4, Ipv6, Ipv6Exts, Tcp};

use crate::{IoFault, ReadError};
use ether_ip::err::{ip, ip_auth, ipv4, ipv6, ipv6_exts, tcp};
use ether_link::err::{LenError, linux_sll, macsec};

impl From<IoFault> for ReadError {
    ghost from_gives = { λ source error. error ≡ Io source };

    fn from(fault: IoFault) -> Self {
        ReadError::Io(fault)
    }
}

impl From<LenError> for ReadError {
    ghost from_gives = { λ source error. error ≡ Len source };

    fn from(error: LenError) -> Self {
        ReadError::Len(error)
    }
}

impl From<linux_sll::HeaderError> for ReadError {
    ghost from_gives = { λ source error. error ≡ LinuxSll source };

    fn from(error: linux_sll::HeaderError) -> Self {
        ReadError::LinuxSll(error)
    }
}

impl From<macsec::HeaderError> for ReadError {
    ghost from_gives = { λ source error. error ≡ Macsec source };

    fn from(error: macsec::HeaderError) -> Self {
        ReadError::Macsec(error)
    }
}

impl From<ip::HeaderError> for ReadError {
    ghost from_gives = { λ source error. error ≡ Ip source };

    fn from(error: ip::HeaderError) -> Self {
        ReadError::Ip(error)
    }
}

impl From<ip_auth::HeaderError> for ReadError {
    ghost from_gives = { λ source error. error ≡ IpAuth source };

    fn from(error: ip_auth::HeaderError) -> Self {
        ReadError::IpAuth(error)
    }
}

impl From<ipv4::HeaderError> for ReadError {
    ghost from_gives = { λ source error. error ≡ Ipv4 source };

    fn from(error: ipv4::HeaderError) -> Self {
        ReadError::Ipv4(error)
    }
}

impl From<ipv6::HeaderError> for ReadError {
    ghost from_gives = { λ source error. error ≡ Ipv6 source };

    fn from(error: ipv6::HeaderError) -> Self {
        ReadError::Ipv6(error)
    }
}

impl From<ipv6_exts::HeaderError> for ReadError {
    ghost from_gives = { λ source error. error ≡ Ipv6Exts source };

    fn from(error: ipv6_exts::HeaderError) -> Self {
        ReadError::Ipv6Exts(error)
    }
}

impl From<tcp::HeaderError> for ReadError {
    ghost from_gives = { λ source error. error ≡ Tcp source };

    fn from(error: tcp::HeaderError) -> Self {
        ReadError::Tcp(error)
    }
}
