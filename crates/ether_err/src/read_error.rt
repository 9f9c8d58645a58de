//! Why a part could not be read, whichever part it is.
ghost use Rattle.std.specs.Prelude.{◌≡◌, Some};
ghost use Rattle.std.specs.Option.{option_copied};

use crate::IoFault;
use ether_ip::err::{ip, ip_auth, ipv4, ipv6, ipv6_exts, tcp};
use ether_link::err::{LenError, linux_sll, macsec};
use std::error::Error;
use std::fmt;

/// Why a part could not be read, whichever part it is.
#[derive(Clone, Copy, Debug, PartialEq, Eq, Hash)]
pub enum ReadError {
    /// The reader failed.
    Io(IoFault),
    /// There are too few bytes, or too many.
    Len(LenError),
    /// A header of a Linux cooked capture.
    LinuxSll(linux_sll::HeaderError),
    /// A MACsec header.
    Macsec(macsec::HeaderError),
    /// The first byte of an IP header.
    Ip(ip::HeaderError),
    /// An authentication header.
    IpAuth(ip_auth::HeaderError),
    /// An IPv4 header.
    Ipv4(ipv4::HeaderError),
    /// An IPv6 header.
    Ipv6(ipv6::HeaderError),
    /// An IPv6 extension header.
    Ipv6Exts(ipv6_exts::HeaderError),
    /// A TCP header.
    Tcp(tcp::HeaderError),
}

impl ReadError {
    /// What `Io` holds.
    pub fn io(&self) -> Option<&IoFault>
        ensures found { (fault : _) → self.now ≡ ReadError.Io fault → option_copied result ≡ Some fault }
        ensures cause { (fault : _) → option_copied result ≡ Some fault → self.now ≡ ReadError.Io fault }
    {
        match self {
            ReadError::Io(fault) => Some(fault),
            _ => None,
        }
    }

    /// What `Len` holds.
    pub fn len(&self) -> Option<&LenError>
        ensures found { (error : _) → self.now ≡ ReadError.Len error → option_copied result ≡ Some error }
        ensures cause { (error : _) → option_copied result ≡ Some error → self.now ≡ ReadError.Len error }
    {
        match self {
            ReadError::Len(error) => Some(error),
            _ => None,
        }
    }

    /// What `LinuxSll` holds.
    pub fn linux_sll(&self) -> Option<&linux_sll::HeaderError>
        ensures found { (error : _) → self.now ≡ ReadError.LinuxSll error
            → option_copied result ≡ Some error }
        ensures cause { (error : _) → option_copied result ≡ Some error
            → self.now ≡ ReadError.LinuxSll error }
    {
        match self {
            ReadError::LinuxSll(error) => Some(error),
            _ => None,
        }
    }

    /// What `Macsec` holds.
    pub fn macsec(&self) -> Option<&macsec::HeaderError>
        ensures found { (error : _) → self.now ≡ ReadError.Macsec error → option_copied result ≡ Some error }
        ensures cause { (error : _) → option_copied result ≡ Some error → self.now ≡ ReadError.Macsec error }
    {
        match self {
            ReadError::Macsec(error) => Some(error),
            _ => None,
        }
    }

    /// What `Ip` holds.
    pub fn ip(&self) -> Option<&ip::HeaderError>
        ensures found { (error : _) → self.now ≡ ReadError.Ip error → option_copied result ≡ Some error }
        ensures cause { (error : _) → option_copied result ≡ Some error → self.now ≡ ReadError.Ip error }
    {
        match self {
            ReadError::Ip(error) => Some(error),
            _ => None,
        }
    }

    /// What `IpAuth` holds.
    pub fn ip_auth(&self) -> Option<&ip_auth::HeaderError>
        ensures found { (error : _) → self.now ≡ ReadError.IpAuth error → option_copied result ≡ Some error }
        ensures cause { (error : _) → option_copied result ≡ Some error → self.now ≡ ReadError.IpAuth error }
    {
        match self {
            ReadError::IpAuth(error) => Some(error),
            _ => None,
        }
    }

    /// What `Ipv4` holds.
    pub fn ipv4(&self) -> Option<&ipv4::HeaderError>
        ensures found { (error : _) → self.now ≡ ReadError.Ipv4 error → option_copied result ≡ Some error }
        ensures cause { (error : _) → option_copied result ≡ Some error → self.now ≡ ReadError.Ipv4 error }
    {
        match self {
            ReadError::Ipv4(error) => Some(error),
            _ => None,
        }
    }

    /// What `Ipv6` holds.
    pub fn ipv6(&self) -> Option<&ipv6::HeaderError>
        ensures found { (error : _) → self.now ≡ ReadError.Ipv6 error → option_copied result ≡ Some error }
        ensures cause { (error : _) → option_copied result ≡ Some error → self.now ≡ ReadError.Ipv6 error }
    {
        match self {
            ReadError::Ipv6(error) => Some(error),
            _ => None,
        }
    }

    /// What `Ipv6Exts` holds.
    pub fn ipv6_exts(&self) -> Option<&ipv6_exts::HeaderError>
        ensures found { (error : _) → self.now ≡ ReadError.Ipv6Exts error
            → option_copied result ≡ Some error }
        ensures cause { (error : _) → option_copied result ≡ Some error
            → self.now ≡ ReadError.Ipv6Exts error }
    {
        match self {
            ReadError::Ipv6Exts(error) => Some(error),
            _ => None,
        }
    }

    /// What `Tcp` holds.
    pub fn tcp(&self) -> Option<&tcp::HeaderError>
        ensures found { (error : _) → self.now ≡ ReadError.Tcp error → option_copied result ≡ Some error }
        ensures cause { (error : _) → option_copied result ≡ Some error → self.now ≡ ReadError.Tcp error }
    {
        match self {
            ReadError::Tcp(error) => Some(error),
            _ => None,
        }
    }
}

impl fmt::Display for ReadError {
    ghost use Rattle.std.specs.Prelude.{Some};
    ghost use Rattle.ether_err.specs.Texts.{read_text};

    ghost output = { λ error. Some (read_text error) };

    fn fmt<W: fmt::Write>(&self, f: &mut fmt::Formatter<W>) -> fmt::Result {
        match self {
            ReadError::Io(fault) => write!(f, "{fault}"),
            ReadError::Len(error) => write!(f, "{error}"),
            ReadError::LinuxSll(error) => write!(f, "{error}"),
            ReadError::Macsec(error) => write!(f, "{error}"),
            ReadError::Ip(error) => write!(f, "{error}"),
            ReadError::IpAuth(error) => write!(f, "{error}"),
            ReadError::Ipv4(error) => write!(f, "{error}"),
            ReadError::Ipv6(error) => write!(f, "{error}"),
            ReadError::Ipv6Exts(error) => write!(f, "{error}"),
            ReadError::Tcp(error) => write!(f, "{error}"),
        }
    }
}

impl Error for ReadError {}
