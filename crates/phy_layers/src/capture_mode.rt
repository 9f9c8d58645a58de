//! Which frames a capture has.
ghost use Rattle.std.specs.Prelude.{◌≡◌};
ghost use Rattle.phy_layers.specs.CaptureLayer.{is_captured, medium_link_type};

use crate::PcapLinkType;
use crate::capabilities::{Medium, TracerDirection};

/// Which way the frames go that are captured.
#[derive(Debug, Clone, Copy, PartialEq, Eq)]
pub enum PcapMode {
    /// Both ways.
    Both,
    /// Received ones alone.
    RxOnly,
    /// Sent ones alone.
    TxOnly,
}

impl PcapMode {
    /// Whether frames that go this way are captured.
    pub fn captures(self, direction: TracerDirection) -> bool
        ensures { result ≡ is_captured self direction }
    {
        match self {
            PcapMode::Both => true,
            PcapMode::RxOnly => matches!(direction, TracerDirection::RX),
            PcapMode::TxOnly => matches!(direction, TracerDirection::TX),
        }
    }
}

/// The link type of a capture of a device's frames.
pub(crate) fn link_type_of(medium: Medium) -> PcapLinkType
    ensures { result ≡ medium_link_type medium }
{
    match medium {
        Medium::Ethernet => PcapLinkType::Ethernet,
        Medium::Ip => PcapLinkType::Ip,
    }
}
