//! Why a slice begins with no part, whichever part it is.
ghost use Rattle.std.specs.Prelude.{◌≡◌, Some};
ghost use Rattle.std.specs.Option.{option_copied};

use ether_ip::err::{ip, ip_auth, ipv4, ipv6, ipv6_exts, tcp};
use ether_link::err::{LenError, linux_sll, macsec};
use std::error::Error;
use std::fmt;

/// Why a slice begins with no part, whichever part it is.
#[derive(Clone, Copy, Debug, PartialEq, Eq, Hash)]
pub enum FromSliceError {
    /// There are too few bytes, or too many.
    Len(LenError),
    /// A header of a Linux cooked capture.
    LinuxSll(linux_sll::HeaderError),
    /// A MACsec header.
    Macsec(macsec::HeaderError),
    /// The first byte of an IP header.
    Ip(ip::HeaderError),
    /// An authentication header.
    IpAuth(ip_auth::HeaderError),
    /// An IPv4 header.
    Ipv4(ipv4::HeaderError),
    /// An IPv6 header.
    Ipv6(ipv6::HeaderError),
    /// An IPv6 extension header.
    Ipv6Exts(ipv6_exts::HeaderError),
    /// A TCP header.
    Tcp(tcp::HeaderError),
}

impl FromSliceError {
    /// What `Len` holds.
    pub fn len(&self) -> Option<&LenError>
        ensures found { (error : _) → self.now ≡ FromSliceError.Len error
            → option_copied result ≡ Some error }
        ensures cause { (error : _) → option_copied result ≡ Some error
            → self.now ≡ FromSliceError.Len error }
    {
        match self {
            FromSliceError::Len(error) => Some(error),
            _ => None,
        }
    }

    /// What `LinuxSll` holds.
    pub fn linux_sll(&self) -> Option<&linux_sll::HeaderError>
        ensures found { (error : _) → self.now ≡ FromSliceError.LinuxSll error
            → option_copied result ≡ Some error }
        ensures cause { (error : _) → option_copied result ≡ Some error
            → self.now ≡ FromSliceError.LinuxSll error }
    {
        match self {
            FromSliceError::LinuxSll(error) => Some(error),
            _ => None,
        }
    }

    /// What `Macsec` holds.
    pub fn macsec(&self) -> Option<&macsec::HeaderError>
        ensures found { (error : _) → self.now ≡ FromSliceError.Macsec error
            → option_copied result ≡ Some error }
        ensures cause { (error : _) → option_copied result ≡ Some error
            → self.now ≡ FromSliceError.Macsec error }
    {
        match self {
            FromSliceError::Macsec(error) => Some(error),
            _ => None,
        }
    }

    /// What `Ip` holds.
    pub fn ip(&self) -> Option<&ip::HeaderError>
        ensures found { (error : _) → self.now ≡ FromSliceError.Ip error → option_copied result ≡ Some error }
        ensures cause { (error : _) → option_copied result ≡ Some error → self.now ≡ FromSliceError.Ip error }
    {
        match self {
            FromSliceError::Ip(error) => Some(error),
            _ => None,
        }
    }

    /// What `IpAuth` holds.
    pub fn ip_auth(&self) -> Option<&ip_auth::HeaderError>
        ensures found { (error : _) → self.now ≡ FromSliceError.IpAuth error
            → option_copied result ≡ Some error }
        ensures cause { (error : _) → option_copied result ≡ Some error
            → self.now ≡ FromSliceError.IpAuth error }
    {
        match self {
            FromSliceError::IpAuth(error) => Some(error),
            _ => None,
        }
    }

    /// What `Ipv4` holds.
    pub fn ipv4(&self) -> Option<&ipv4::HeaderError>
        ensures found { (error : _) → self.now ≡ FromSliceError.Ipv4 error
            → option_copied result ≡ Some error }
        ensures cause { (error : _) → option_copied result ≡ Some error
            → self.now ≡ FromSliceError.Ipv4 error }
    {
        match self {
            FromSliceError::Ipv4(error) => Some(error),
            _ => None,
        }
    }

    /// What `Ipv6` holds.
    pub fn ipv6(&self) -> Option<&ipv6::HeaderError>
        ensures found { (error : _) → self.now ≡ FromSliceError.Ipv6 error
            → option_copied result ≡ Some error }
        ensures cause { (error : _) → option_copied result ≡ Some error
            → self.now ≡ FromSliceError.Ipv6 error }
    {
        match self {
            FromSliceError::Ipv6(error) => Some(error),
            _ => None,
        }
    }

    /// What `Ipv6Exts` holds.
    pub fn ipv6_exts(&self) -> Option<&ipv6_exts::HeaderError>
        ensures found { (error : _) → self.now ≡ FromSliceError.Ipv6Exts error
            → option_copied result ≡ Some error }
        ensures cause { (error : _) → option_copied result ≡ Some error
            → self.now ≡ FromSliceError.Ipv6Exts error }
    {
        match self {
            FromSliceError::Ipv6Exts(error) => Some(error),
            _ => None,
        }
    }

    /// What `Tcp` holds.
    pub fn tcp(&self) -> Option<&tcp::HeaderError>
        ensures found { (error : _) → self.now ≡ FromSliceError.Tcp error
            → option_copied result ≡ Some error }
        ensures cause { (error : _) → option_copied result ≡ Some error
            → self.now ≡ FromSliceError.Tcp error }
    {
        match self {
            FromSliceError::Tcp(error) => Some(error),
            _ => None,
        }
    }
}

impl fmt::Display for FromSliceError {
    ghost use Rattle.std.specs.Prelude.{Some};
    ghost use Rattle.ether_err.specs.Texts.{from_slice_text};

    ghost output = { λ error. Some (from_slice_text error) };

    fn fmt<W: fmt::Write>(&self, f: &mut fmt::Formatter<W>) -> fmt::Result {
        match self {
            FromSliceError::Len(error) => write!(f, "{error}"),
            FromSliceError::LinuxSll(error) => write!(f, "{error}"),
            FromSliceError::Macsec(error) => write!(f, "{error}"),
            FromSliceError::Ip(error) => write!(f, "{error}"),
            FromSliceError::IpAuth(error) => write!(f, "{error}"),
            FromSliceError::Ipv4(error) => write!(f, "{error}"),
            FromSliceError::Ipv6(error) => write!(f, "{error}"),
            FromSliceError::Ipv6Exts(error) => write!(f, "{error}"),
            FromSliceError::Tcp(error) => write!(f, "{error}"),
        }
    }
}

impl Error for FromSliceError {}
