//! What a device is, and how it answers.

/// What the frames of a device begin with.
#[derive(Debug, Clone, Copy, Default, PartialEq, Eq, Hash, PartialOrd, Ord)]
pub enum Medium {
    /// An Ethernet II header (RFC 894).
    #[default]
    Ethernet,
    /// An IPv4 or IPv6 header.
    Ip,
}

/// What a device takes and gives.
#[derive(Debug, Clone, Copy, PartialEq, Eq)]
pub struct DeviceCapabilities {
    pub medium: Medium,
    /// The most bytes of a frame that is sent.
    pub max_transmission_unit: usize,
    /// The most bytes of a frame that is received.
    pub max_receive: usize,
}

/// What goes with a frame beside its bytes.
#[derive(Debug, Clone, Copy, Default, PartialEq, Eq)]
pub struct PacketMeta {
    /// The number of the frame, where the device gives it one.
    pub id: u32,
}

/// Why a device refused.
#[derive(Debug, Clone, Copy, PartialEq, Eq)]
pub enum DeviceError {
    /// The outside failed.
    Fault,
    /// Memory ran out.
    NoMemory,
}

/// Which way a frame goes through a device.
#[derive(Debug, Clone, Copy, PartialEq)]
pub enum TracerDirection {
    /// It is received.
    RX,
    /// It is sent.
    TX,
}
