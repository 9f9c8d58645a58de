//! Errors of readers as one of all errors of reading.
ghost use Rattle.std.specs.Prelude.{◌≡◌};

use crate::ReadError;

impl From<crate::ip::HeaderReadError> for ReadError {
    ghost use Rattle.ether_err.specs.ReaderConversions.{read_ip_read};

    ghost from_gives = { λ source error. error ≡ read_ip_read source };

    fn from(source: crate::ip::HeaderReadError) -> Self {
        match source {
            crate::ip::HeaderReadError::Io(fault) => ReadError::Io(fault),
            crate::ip::HeaderReadError::Len(error) => ReadError::Len(error),
            crate::ip::HeaderReadError::Content(error) => ReadError::from(error),
        }
    }
}

impl From<crate::ip_auth::HeaderReadError> for ReadError {
    ghost use Rattle.ether_err.specs.ReaderConversions.{read_ip_auth_read};

    ghost from_gives = { λ source error. error ≡ read_ip_auth_read source };

    fn from(source: crate::ip_auth::HeaderReadError) -> Self {
        match source {
            crate::ip_auth::HeaderReadError::Io(fault) => ReadError::Io(fault),
            crate::ip_auth::HeaderReadError::Content(error) => ReadError::IpAuth(error),
        }
    }
}

impl From<crate::ipv4::HeaderReadError> for ReadError {
    ghost use Rattle.ether_err.specs.ReaderConversions.{read_ipv4_read};

    ghost from_gives = { λ source error. error ≡ read_ipv4_read source };

    fn from(source: crate::ipv4::HeaderReadError) -> Self {
        match source {
            crate::ipv4::HeaderReadError::Io(fault) => ReadError::Io(fault),
            crate::ipv4::HeaderReadError::Content(error) => ReadError::Ipv4(error),
        }
    }
}

impl From<crate::ipv6::HeaderReadError> for ReadError {
    ghost use Rattle.ether_err.specs.ReaderConversions.{read_ipv6_read};

    ghost from_gives = { λ source error. error ≡ read_ipv6_read source };

    fn from(source: crate::ipv6::HeaderReadError) -> Self {
        match source {
            crate::ipv6::HeaderReadError::Io(fault) => ReadError::Io(fault),
            crate::ipv6::HeaderReadError::Content(error) => ReadError::Ipv6(error),
        }
    }
}

impl From<crate::ipv6_exts::HeaderReadError> for ReadError {
    ghost use Rattle.ether_err.specs.ReaderConversions.{read_ipv6_exts_read};

    ghost from_gives = { λ source error. error ≡ read_ipv6_exts_read source };

    fn from(source: crate::ipv6_exts::HeaderReadError) -> Self {
        match source {
            crate::ipv6_exts::HeaderReadError::Io(fault) => ReadError::Io(fault),
            crate::ipv6_exts::HeaderReadError::Content(error) => ReadError::Ipv6Exts(error),
        }
    }
}

impl From<crate::linux_sll::HeaderReadError> for ReadError {
    ghost use Rattle.ether_err.specs.ReaderConversions.{read_linux_sll_read};

    ghost from_gives = { λ source error. error ≡ read_linux_sll_read source };

    fn from(source: crate::linux_sll::HeaderReadError) -> Self {
        match source {
            crate::linux_sll::HeaderReadError::Io(fault) => ReadError::Io(fault),
            crate::linux_sll::HeaderReadError::Content(error) => ReadError::LinuxSll(error),
        }
    }
}

impl From<crate::macsec::HeaderReadError> for ReadError {
    ghost use Rattle.ether_err.specs.ReaderConversions.{read_macsec_read};

    ghost from_gives = { λ source error. error ≡ read_macsec_read source };

    fn from(source: crate::macsec::HeaderReadError) -> Self {
        match source {
            crate::macsec::HeaderReadError::Io(fault) => ReadError::Io(fault),
            crate::macsec::HeaderReadError::Content(error) => ReadError::Macsec(error),
        }
    }
}

impl From<crate::tcp::HeaderReadError> for ReadError {
    ghost use Rattle.ether_err.specs.ReaderConversions.{read_tcp_read};

    ghost from_gives = { λ source error. error ≡ read_tcp_read source };

    fn from(source: crate::tcp::HeaderReadError) -> Self {
        match source {
            crate::tcp::HeaderReadError::Io(fault) => ReadError::Io(fault),
            crate::tcp::HeaderReadError::Content(error) => ReadError::Tcp(error),
        }
    }
}
