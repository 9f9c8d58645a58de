//! The parts of a frame with their places, and the headers of IPsec in it.
use net_wire::NoMemory;
use std::alloc::Global;
use std::marker::Model;

/// What a part of a frame is.
#[derive(Clone, Copy, Debug, PartialEq, Eq)]
pub enum PartKind {
    Ethernet,
    Vlan,
    Macsec,
    Arp,
    Ipv4,
    Ipv6,
    HopByHop,
    Route,
    Frag,
    DestOptions,
    /// An authentication header, behind an IP header of either version.
    Auth,
    Udp,
    Tcp,
    Icmpv4,
    Icmpv6,
}

/// A part of a frame: its header stands from `header` to `window`, and its window, in which the next part is
/// sought, from there to `end`, in bytes from the start of the frame.
#[derive(Clone, Copy, Debug, PartialEq, Eq)]
pub struct Part {
    pub kind: PartKind,
    pub header: u32,
    pub window: u32,
    pub end: u32,
}

/// The values of an authentication header (RFC 4302, section 2).
#[derive(Clone, Copy, Debug, PartialEq, Eq)]
pub struct AhPart {
    /// The number of the next header.
    pub next: u8,
    /// The security parameters index.
    pub spi: u32,
    pub sequence: u32,
    /// The bytes of the integrity check value.
    pub icv_len: u16,
}

/// The values of the header of an encapsulating security payload (RFC 4303, section 2).
#[derive(Clone, Copy, Debug, PartialEq, Eq)]
pub struct EspPart {
    /// The security parameters index.
    pub spi: u32,
    pub sequence: u32,
}

/// The parts of a frame, in their order.
#[derive(Clone, Debug, Drop)]
pub struct PartList {
    parts: Vec<Part>,
}

impl Model for PartList {
    ghost use Rattle.std.specs.Prelude.{List};
    ghost use Rattle.capture_explain.specs.declared.parts.Part.{Part};

    ghost Value = { List Part };

    ghost view = { λ list. list.parts.items };
}

impl PartList {
    ghost use Rattle.std.specs.Prelude.{◌≡◌, [], ◌∷◌, ◌++◌, OnOk, OnErr};

    /// No part. What is listed takes memory from `alloc`.
    pub(crate) fn new(alloc: Global) -> PartList
        ensures { result ≡ [] }
    {
        PartList {
            parts: Vec::new(alloc),
        }
    }

    pub fn as_slice(&self) -> &[Part]
        ensures value { result.now ≡ self.now }
    {
        self.parts.as_slice()
    }

    /// Lists a part behind the others.
    pub(crate) fn push(&mut self, part: Part) -> Result<(), NoMemory>
        ensures ok { OnOk result (self.new ≡ self.old ++ part ∷ []) }
        ensures err { OnErr result (self.new ≡ self.old) }
    {
        match self.parts.push(part) {
            Ok(()) => Ok(()),
            Err(_) => Err(NoMemory),
        }
    }
}

impl PartialEq for PartList {
    ghost use Rattle.std.specs.Cmp.Lexicographic.{pointwise, lists_per};
    ghost use Rattle.capture_explain.specs.contracts.parts.PartPartialEq.TheImpl.Laws.{laws-law};

    ghost eq = { pointwise ⟦<Part as PartialEq>⟧.eq };

    ghost laws = { lists_per laws-law };

    fn eq(&self, other: &PartList) -> bool {
        self.parts == other.parts
    }
}

impl Eq for PartList {
    ghost use Rattle.std.specs.Cmp.Lexicographic.{lists_equiv};
    ghost use Rattle.capture_explain.specs.contracts.parts.PartEq.TheImpl.Laws.{laws-law};

    ghost laws = { lists_equiv laws-law };
}

/// The authentication headers of a frame, in their order.
#[derive(Clone, Debug, Drop)]
pub struct AhList {
    headers: Vec<AhPart>,
}

impl Model for AhList {
    ghost use Rattle.std.specs.Prelude.{List};
    ghost use Rattle.capture_explain.specs.declared.parts.AhPart.{AhPart};

    ghost Value = { List AhPart };

    ghost view = { λ list. list.headers.items };
}

impl AhList {
    ghost use Rattle.std.specs.Prelude.{◌≡◌, [], ◌∷◌, ◌++◌, OnOk, OnErr};

    /// No header. What is listed takes memory from `alloc`.
    pub(crate) fn new(alloc: Global) -> AhList
        ensures { result ≡ [] }
    {
        AhList {
            headers: Vec::new(alloc),
        }
    }

    pub fn as_slice(&self) -> &[AhPart]
        ensures value { result.now ≡ self.now }
    {
        self.headers.as_slice()
    }

    /// Lists a header behind the others.
    pub(crate) fn push(&mut self, header: AhPart) -> Result<(), NoMemory>
        ensures ok { OnOk result (self.new ≡ self.old ++ header ∷ []) }
        ensures err { OnErr result (self.new ≡ self.old) }
    {
        match self.headers.push(header) {
            Ok(()) => Ok(()),
            Err(_) => Err(NoMemory),
        }
    }
}

impl PartialEq for AhList {
    ghost use Rattle.std.specs.Cmp.Lexicographic.{pointwise, lists_per};
    ghost use Rattle.capture_explain.specs.contracts.parts.AhPartPartialEq.TheImpl.Laws.{laws-law};

    ghost eq = { pointwise ⟦<AhPart as PartialEq>⟧.eq };

    ghost laws = { lists_per laws-law };

    fn eq(&self, other: &AhList) -> bool {
        self.headers == other.headers
    }
}

impl Eq for AhList {
    ghost use Rattle.std.specs.Cmp.Lexicographic.{lists_equiv};
    ghost use Rattle.capture_explain.specs.contracts.parts.AhPartEq.TheImpl.Laws.{laws-law};

    ghost laws = { lists_equiv laws-law };
}
