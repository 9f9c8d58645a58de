//! Why the header of a Linux cooked capture is refused.

use crate::ArpHardwareId;
use crate::err::LenError;
use std::error::Error;
use std::fmt;

/// What is wrong in the bytes of a header.
#[derive(Clone, Copy, Debug, PartialEq, Eq, Hash)]
pub enum HeaderError {
    /// A packet type above 4.
    UnsupportedPacketTypeField { packet_type: u16 },
    /// A kind of hardware for which the meaning of the protocol field is not known.
    UnsupportedArpHardwareId { arp_hardware_type: ArpHardwareId },
}

impl fmt::Display for HeaderError {
    ghost use Rattle.std.specs.Prelude.{Some};
    ghost use Rattle.ether_link.specs.Texts.{linux_sll_text};

    ghost output = { λ error. Some (linux_sll_text error) };

    fn fmt<W: fmt::Write>(&self, f: &mut fmt::Formatter<W>) -> fmt::Result {
        match self {
            HeaderError::UnsupportedPacketTypeField { packet_type } => {
                write!(f, "linux sll packet type {packet_type}")
            }
            HeaderError::UnsupportedArpHardwareId {
                arp_hardware_type: ArpHardwareId(number),
            } => write!(f, "linux sll hardware type {number}"),
        }
    }
}

impl Error for HeaderError {}

/// Why a slice begins with no header of a Linux cooked capture.
#[derive(Clone, Copy, Debug, PartialEq, Eq, Hash)]
pub enum HeaderSliceError {
    Len(LenError),
    Content(HeaderError),
}

impl fmt::Display for HeaderSliceError {
    ghost use Rattle.std.specs.Prelude.{Some};
    ghost use Rattle.ether_link.specs.Texts.{linux_sll_slice_text};

    ghost output = { λ error. Some (linux_sll_slice_text error) };

    fn fmt<W: fmt::Write>(&self, f: &mut fmt::Formatter<W>) -> fmt::Result {
        match self {
            HeaderSliceError::Len(error) => write!(f, "{error}"),
            HeaderSliceError::Content(error) => write!(f, "{error}"),
        }
    }
}

impl Error for HeaderSliceError {}
