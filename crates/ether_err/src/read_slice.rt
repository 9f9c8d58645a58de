//! Errors of slices as one of all errors of reading.
ghost use Rattle.std.specs.Prelude.{◌≡◌};

use crate::ReadError;
use ether_ip::err::{ip, ip_auth, ipv4, ipv6, ipv6_exts, packet, tcp};
use ether_link::err::{linux_sll, macsec};

impl From<linux_sll::HeaderSliceError> for ReadError {
    ghost use Rattle.ether_err.specs.ReadConversions.{read_linux_sll_slice};

    ghost from_gives = { λ source error. error ≡ read_linux_sll_slice source };

    fn from(source: linux_sll::HeaderSliceError) -> Self {
        match source {
            linux_sll::HeaderSliceError::Len(error) => ReadError::Len(error),
            linux_sll::HeaderSliceError::Content(error) => ReadError::LinuxSll(error),
        }
    }
}

impl From<macsec::HeaderSliceError> for ReadError {
    ghost use Rattle.ether_err.specs.ReadConversions.{read_macsec_slice};

    ghost from_gives = { λ source error. error ≡ read_macsec_slice source };

    fn from(source: macsec::HeaderSliceError) -> Self {
        match source {
            macsec::HeaderSliceError::Len(error) => ReadError::Len(error),
            macsec::HeaderSliceError::Content(error) => ReadError::Macsec(error),
        }
    }
}

impl From<ip_auth::HeaderSliceError> for ReadError {
    ghost use Rattle.ether_err.specs.ReadConversions.{read_ip_auth_slice};

    ghost from_gives = { λ source error. error ≡ read_ip_auth_slice source };

    fn from(source: ip_auth::HeaderSliceError) -> Self {
        match source {
            ip_auth::HeaderSliceError::Len(error) => ReadError::Len(error),
            ip_auth::HeaderSliceError::Content(error) => ReadError::IpAuth(error),
        }
    }
}

impl From<ipv4::HeaderSliceError> for ReadError {
    ghost use Rattle.ether_err.specs.ReadConversions.{read_ipv4_slice};

    ghost from_gives = { λ source error. error ≡ read_ipv4_slice source };

    fn from(source: ipv4::HeaderSliceError) -> Self {
        match source {
            ipv4::HeaderSliceError::Len(error) => ReadError::Len(error),
            ipv4::HeaderSliceError::Content(error) => ReadError::Ipv4(error),
        }
    }
}

impl From<ipv6::HeaderSliceError> for ReadError {
    ghost use Rattle.ether_err.specs.ReadConversions.{read_ipv6_slice};

    ghost from_gives = { λ source error. error ≡ read_ipv6_slice source };

    fn from(source: ipv6::HeaderSliceError) -> Self {
        match source {
            ipv6::HeaderSliceError::Len(error) => ReadError::Len(error),
            ipv6::HeaderSliceError::Content(error) => ReadError::Ipv6(error),
        }
    }
}

impl From<ipv6_exts::HeaderSliceError> for ReadError {
    ghost use Rattle.ether_err.specs.ReadConversions.{read_ipv6_exts_slice};

    ghost from_gives = { λ source error. error ≡ read_ipv6_exts_slice source };

    fn from(source: ipv6_exts::HeaderSliceError) -> Self {
        match source {
            ipv6_exts::HeaderSliceError::Len(error) => ReadError::Len(error),
            ipv6_exts::HeaderSliceError::Content(error) => ReadError::Ipv6Exts(error),
        }
    }
}

impl From<tcp::HeaderSliceError> for ReadError {
    ghost use Rattle.ether_err.specs.ReadConversions.{read_tcp_slice};

    ghost from_gives = { λ source error. error ≡ read_tcp_slice source };

    fn from(source: tcp::HeaderSliceError) -> Self {
        match source {
            tcp::HeaderSliceError::Len(error) => ReadError::Len(error),
            tcp::HeaderSliceError::Content(error) => ReadError::Tcp(error),
        }
    }
}

impl From<ip::HeadersError> for ReadError {
    ghost use Rattle.ether_err.specs.ReadConversions.{read_ip_headers};

    ghost from_gives = { λ source error. error ≡ read_ip_headers source };

    fn from(source: ip::HeadersError) -> Self {
        match source {
            ip::HeadersError::Ip(error) => ReadError::Ip(error),
            ip::HeadersError::Ipv4Ext(error) => ReadError::IpAuth(error),
            ip::HeadersError::Ipv6Ext(error) => ReadError::Ipv6Exts(error),
        }
    }
}

impl From<ip::HeadersSliceError> for ReadError {
    ghost use Rattle.ether_err.specs.ReadConversions.{read_ip_headers_slice};

    ghost from_gives = { λ source error. error ≡ read_ip_headers_slice source };

    fn from(source: ip::HeadersSliceError) -> Self {
        match source {
            ip::HeadersSliceError::Len(error) => ReadError::Len(error),
            ip::HeadersSliceError::Content(error) => ReadError::from(error),
        }
    }
}

impl From<ip::SliceError> for ReadError {
    ghost use Rattle.ether_err.specs.ReadConversions.{read_ip_slice};

    ghost from_gives = { λ source error. error ≡ read_ip_slice source };

    fn from(source: ip::SliceError) -> Self {
        match source {
            ip::SliceError::Len(error) => ReadError::Len(error),
            ip::SliceError::IpHeaders(error) => ReadError::from(error),
        }
    }
}

impl From<ipv4::SliceError> for ReadError {
    ghost use Rattle.ether_err.specs.ReadConversions.{read_ipv4_packet};

    ghost from_gives = { λ source error. error ≡ read_ipv4_packet source };

    fn from(source: ipv4::SliceError) -> Self {
        match source {
            ipv4::SliceError::Len(error) => ReadError::Len(error),
            ipv4::SliceError::Header(error) => ReadError::Ipv4(error),
            ipv4::SliceError::Exts(error) => ReadError::IpAuth(error),
        }
    }
}

impl From<ipv6::SliceError> for ReadError {
    ghost use Rattle.ether_err.specs.ReadConversions.{read_ipv6_packet};

    ghost from_gives = { λ source error. error ≡ read_ipv6_packet source };

    fn from(source: ipv6::SliceError) -> Self {
        match source {
            ipv6::SliceError::Len(error) => ReadError::Len(error),
            ipv6::SliceError::Header(error) => ReadError::Ipv6(error),
            ipv6::SliceError::Exts(error) => ReadError::Ipv6Exts(error),
        }
    }
}

impl From<packet::SliceError> for ReadError {
    ghost use Rattle.ether_err.specs.ReadConversions.{read_packet};

    ghost from_gives = { λ source error. error ≡ read_packet source };

    fn from(source: packet::SliceError) -> Self {
        match source {
            packet::SliceError::Len(error) => ReadError::Len(error),
            packet::SliceError::LinuxSll(error) => ReadError::LinuxSll(error),
            packet::SliceError::Macsec(error) => ReadError::Macsec(error),
            packet::SliceError::Ip(error) => ReadError::Ip(error),
            packet::SliceError::Ipv4(error) => ReadError::Ipv4(error),
            packet::SliceError::Ipv6(error) => ReadError::Ipv6(error),
            packet::SliceError::Ipv4Exts(error) => ReadError::IpAuth(error),
            packet::SliceError::Ipv6Exts(error) => ReadError::Ipv6Exts(error),
            packet::SliceError::Tcp(error) => ReadError::Tcp(error),
        }
    }
}
