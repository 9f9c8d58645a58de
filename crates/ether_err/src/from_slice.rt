//! Errors of slices as one of them all.
ghost use Rattle.std.specs.Prelude.{◌≡◌};

use crate::FromSliceError;
use ether_ip::err::{ip, ip_auth, ipv4, ipv6, ipv6_exts, packet, tcp};
use ether_link::err::linux_sll;

impl From<linux_sll::HeaderSliceError> for FromSliceError {
    ghost use Rattle.ether_err.specs.SliceConversions.{from_linux_sll_slice};

    ghost from_gives = { λ source error. error ≡ from_linux_sll_slice source };

    fn from(source: linux_sll::HeaderSliceError) -> Self {
        match source {
            linux_sll::HeaderSliceError::Len(error) => FromSliceError::Len(error),
            linux_sll::HeaderSliceError::Content(error) => FromSliceError::LinuxSll(error),
        }
    }
}

impl From<ip_auth::HeaderSliceError> for FromSliceError {
    ghost use Rattle.ether_err.specs.SliceConversions.{from_ip_auth_slice};

    ghost from_gives = { λ source error. error ≡ from_ip_auth_slice source };

    fn from(source: ip_auth::HeaderSliceError) -> Self {
        match source {
            ip_auth::HeaderSliceError::Len(error) => FromSliceError::Len(error),
            ip_auth::HeaderSliceError::Content(error) => FromSliceError::IpAuth(error),
        }
    }
}

impl From<ipv4::HeaderSliceError> for FromSliceError {
    ghost use Rattle.ether_err.specs.SliceConversions.{from_ipv4_slice};

    ghost from_gives = { λ source error. error ≡ from_ipv4_slice source };

    fn from(source: ipv4::HeaderSliceError) -> Self {
        match source {
            ipv4::HeaderSliceError::Len(error) => FromSliceError::Len(error),
            ipv4::HeaderSliceError::Content(error) => FromSliceError::Ipv4(error),
        }
    }
}

impl From<ipv6::HeaderSliceError> for FromSliceError {
    ghost use Rattle.ether_err.specs.SliceConversions.{from_ipv6_slice};

    ghost from_gives = { λ source error. error ≡ from_ipv6_slice source };

    fn from(source: ipv6::HeaderSliceError) -> Self {
        match source {
            ipv6::HeaderSliceError::Len(error) => FromSliceError::Len(error),
            ipv6::HeaderSliceError::Content(error) => FromSliceError::Ipv6(error),
        }
    }
}

impl From<ipv6_exts::HeaderSliceError> for FromSliceError {
    ghost use Rattle.ether_err.specs.SliceConversions.{from_ipv6_exts_slice};

    ghost from_gives = { λ source error. error ≡ from_ipv6_exts_slice source };

    fn from(source: ipv6_exts::HeaderSliceError) -> Self {
        match source {
            ipv6_exts::HeaderSliceError::Len(error) => FromSliceError::Len(error),
            ipv6_exts::HeaderSliceError::Content(error) => FromSliceError::Ipv6Exts(error),
        }
    }
}

impl From<tcp::HeaderSliceError> for FromSliceError {
    ghost use Rattle.ether_err.specs.SliceConversions.{from_tcp_slice};

    ghost from_gives = { λ source error. error ≡ from_tcp_slice source };

    fn from(source: tcp::HeaderSliceError) -> Self {
        match source {
            tcp::HeaderSliceError::Len(error) => FromSliceError::Len(error),
            tcp::HeaderSliceError::Content(error) => FromSliceError::Tcp(error),
        }
    }
}

impl From<ip::HeadersError> for FromSliceError {
    ghost use Rattle.ether_err.specs.SliceConversions.{from_ip_headers};

    ghost from_gives = { λ source error. error ≡ from_ip_headers source };

    fn from(source: ip::HeadersError) -> Self {
        match source {
            ip::HeadersError::Ip(error) => FromSliceError::Ip(error),
            ip::HeadersError::Ipv4Ext(error) => FromSliceError::IpAuth(error),
            ip::HeadersError::Ipv6Ext(error) => FromSliceError::Ipv6Exts(error),
        }
    }
}

impl From<ip::HeadersSliceError> for FromSliceError {
    ghost use Rattle.ether_err.specs.SliceConversions.{from_ip_headers_slice};

    ghost from_gives = { λ source error. error ≡ from_ip_headers_slice source };

    fn from(source: ip::HeadersSliceError) -> Self {
        match source {
            ip::HeadersSliceError::Len(error) => FromSliceError::Len(error),
            ip::HeadersSliceError::Content(error) => FromSliceError::from(error),
        }
    }
}

impl From<ip::SliceError> for FromSliceError {
    ghost use Rattle.ether_err.specs.SliceConversions.{from_ip_slice};

    ghost from_gives = { λ source error. error ≡ from_ip_slice source };

    fn from(source: ip::SliceError) -> Self {
        match source {
            ip::SliceError::Len(error) => FromSliceError::Len(error),
            ip::SliceError::IpHeaders(error) => FromSliceError::from(error),
        }
    }
}

impl From<ipv4::SliceError> for FromSliceError {
    ghost use Rattle.ether_err.specs.SliceConversions.{from_ipv4_packet};

    ghost from_gives = { λ source error. error ≡ from_ipv4_packet source };

    fn from(source: ipv4::SliceError) -> Self {
        match source {
            ipv4::SliceError::Len(error) => FromSliceError::Len(error),
            ipv4::SliceError::Header(error) => FromSliceError::Ipv4(error),
            ipv4::SliceError::Exts(error) => FromSliceError::IpAuth(error),
        }
    }
}

impl From<ipv6::SliceError> for FromSliceError {
    ghost use Rattle.ether_err.specs.SliceConversions.{from_ipv6_packet};

    ghost from_gives = { λ source error. error ≡ from_ipv6_packet source };

    fn from(source: ipv6::SliceError) -> Self {
        match source {
            ipv6::SliceError::Len(error) => FromSliceError::Len(error),
            ipv6::SliceError::Header(error) => FromSliceError::Ipv6(error),
            ipv6::SliceError::Exts(error) => FromSliceError::Ipv6Exts(error),
        }
    }
}

impl From<packet::SliceError> for FromSliceError {
    ghost use Rattle.ether_err.specs.SliceConversions.{from_packet};

    ghost from_gives = { λ source error. error ≡ from_packet source };

    fn from(source: packet::SliceError) -> Self {
        match source {
            packet::SliceError::Len(error) => FromSliceError::Len(error),
            packet::SliceError::LinuxSll(error) => FromSliceError::LinuxSll(error),
            packet::SliceError::Macsec(error) => FromSliceError::Macsec(error),
            packet::SliceError::Ip(error) => FromSliceError::Ip(error),
            packet::SliceError::Ipv4(error) => FromSliceError::Ipv4(error),
            packet::SliceError::Ipv6(error) => FromSliceError::Ipv6(error),
            packet::SliceError::Ipv4Exts(error) => FromSliceError::IpAuth(error),
            packet::SliceError::Ipv6Exts(error) => FromSliceError::Ipv6Exts(error),
            packet::SliceError::Tcp(error) => FromSliceError::Tcp(error),
        }
    }
}
