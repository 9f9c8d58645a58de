//! Link extensions: the parts between the header of a frame and what it carries.
ghost use Rattle.std.specs.Prelude.{◌≡◌, option_map};

use crate::{LaxEtherPayloadSlice, LaxMacsecPayloadSlice, LaxMacsecSlice, LaxPayloadSlice};
use ether_link::{LenSource, LinkExtHeader, SingleVlanSlice};

/// A tag or a security tag, with what it carries.
#[derive(Clone, Debug, Drop, PartialEq, Eq)]
pub enum LaxLinkExtSlice<'a> {
    Vlan(SingleVlanSlice<'a>),
    Macsec(LaxMacsecSlice<'a>),
}

impl<'a> LaxLinkExtSlice<'a> {
    ghost use Rattle.ether_lax.specs.LinkExts.{ext_in, ether_in, payload_of_ext, header_len_of_ext, header_of_ext};

    pub fn header_len(&self) -> usize
        ensures value { result ≡ header_len_of_ext (ext_in self.now) }
    {
        match self {
            LaxLinkExtSlice::Vlan(tag) => tag.header_len(),
            LaxLinkExtSlice::Macsec(macsec) => macsec.header.header_len(),
        }
    }

    /// The fields of the header.
    pub fn to_header(&self) -> LinkExtHeader
        ensures value { result ≡ header_of_ext (ext_in self.now) }
    {
        match self {
            LaxLinkExtSlice::Vlan(tag) => LinkExtHeader::Vlan(tag.to_header()),
            LaxLinkExtSlice::Macsec(macsec) => LinkExtHeader::Macsec(macsec.header.to_header()),
        }
    }

    /// The payload, where it is neither encrypted nor changed. That of a tag is complete, and its
    /// length is that of the slice.
    pub fn payload(&self) -> Option<LaxEtherPayloadSlice<'a>>
        ensures value { option_map ether_in result ≡ payload_of_ext (ext_in self.now) }
    {
        self.payload_in(LenSource::Slice)
    }
}

impl<'a> LaxLinkExtSlice<'a> {
    ghost use Rattle.ether_lax.specs.EtherParts.{payload_in_window};
    ghost use Rattle.ether_lax.specs.LinkExts.{ext_in, ether_in, source_behind};
    ghost use Rattle.ether_lax.specs.Payloads.{carried_in, carried_by};

    /// The payload, where it is neither encrypted nor changed; that of a tag in a window whose length is
    /// from a source.
    pub(crate) fn payload_in(&self, len_source: LenSource) -> Option<LaxEtherPayloadSlice<'a>>
        ensures { option_map ether_in result ≡ payload_in_window len_source (ext_in self.now) }
    {
        match self {
            LaxLinkExtSlice::Vlan(tag) => {
                let payload = tag.payload();
                Some(LaxEtherPayloadSlice {
                    incomplete: false,
                    ether_type: payload.ether_type,
                    len_source,
                    payload: payload.payload,
                })
            }
            LaxLinkExtSlice::Macsec(macsec) => macsec.ether_payload(),
        }
    }

    /// The source of the windows behind it, by the one of those before it.
    pub(crate) fn source_behind(&self, before: LenSource) -> LenSource
        ensures { result ≡ source_behind before (ext_in self.now) }
    {
        match self {
            LaxLinkExtSlice::Vlan(_) => before,
            LaxLinkExtSlice::Macsec(macsec) => macsec.source_behind(before),
        }
    }

    /// What it carries, in a window whose length is from a source.
    pub(crate) fn carried(&self, len_source: LenSource) -> LaxPayloadSlice<'a>
        ensures { carried_in result ≡ carried_by len_source (ext_in self.now) }
    {
        match self {
            LaxLinkExtSlice::Vlan(tag) => {
                let payload = tag.payload();
                LaxPayloadSlice::Ether(LaxEtherPayloadSlice {
                    incomplete: false,
                    ether_type: payload.ether_type,
                    len_source,
                    payload: payload.payload,
                })
            }
            LaxLinkExtSlice::Macsec(macsec) => match &macsec.payload {
                LaxMacsecPayloadSlice::Unmodified(payload) => {
                    LaxPayloadSlice::Ether(LaxEtherPayloadSlice {
                        incomplete: payload.incomplete,
                        ether_type: payload.ether_type,
                        len_source,
                        payload: payload.payload,
                    })
                }
                LaxMacsecPayloadSlice::Modified {
                    incomplete,
                    payload,
                } => LaxPayloadSlice::MacsecModified {
                    payload,
                    incomplete: *incomplete,
                },
            },
        }
    }
}

/// A tag of zeros.
impl<'a> Default for LaxLinkExtSlice<'a> {
    ghost use Rattle.std.specs.Prelude.{replicate};
    ghost use Rattle.ether_lax.specs.LinkExts.{ext_in, TagPart};

    ghost is_default = { λ ext. ext_in ext ≡ TagPart (replicate 4 0) };

    fn default() -> LaxLinkExtSlice<'a> {
        LaxLinkExtSlice::Vlan(SingleVlanSlice::default())
    }
}
