//! Security tags with their payload, or as much of it as is there (IEEE 802.1AE, section 9).
ghost use Rattle.std.specs.Prelude.{◌≡◌, ◌↔◌, IsSome, Some, option_map, map};
ghost use Rattle.ether_link.specs.Form.{Reads};
ghost use Rattle.ether_link.specs.Macsec.{macsec_slice_form};
ghost use Rattle.ether_lax.specs.MacsecParts.{macsec_of};

use crate::LaxEtherPayloadSlice;
use crate::step::next_layer;
use ether_link::err::macsec::HeaderSliceError;
use ether_link::{EtherType, LenSource, MacsecHeaderSlice, PartKind, Turn};

/// A security tag and its payload.
#[derive(Clone, Debug, Drop, PartialEq, Eq)]
pub struct LaxMacsecSlice<'a> {
    pub header: MacsecHeaderSlice<'a>,
    pub payload: LaxMacsecPayloadSlice<'a>,
}

/// The payload of a security tag.
#[derive(Clone, Debug, Drop, PartialEq, Eq, Hash, PartialOrd, Ord)]
pub enum LaxMacsecPayloadSlice<'a> {
    /// Neither encrypted nor changed.
    Unmodified(LaxEtherPayloadSlice<'a>),
    /// Encrypted or changed.
    Modified {
        /// The tag says that there are more bytes.
        incomplete: bool,
        payload: &'a [u8],
    },
}

impl<'a> LaxMacsecSlice<'a> {
    ghost use Rattle.ether_lax.specs.LinkExts.{macsec_in, macsec_part, source_behind, is_cut, ether_in, payload_of_ext, type_of_ext};

    /// A security tag and its payload, or as much of it as is there. It is refused where the tag is.
    #[tactic(auto, using(crate::proofs::MacsecLemmas::accepted_whole, crate::proofs::MacsecLemmas::part_of_whole))]
    pub fn from_slice(slice: &'a [u8]) -> Result<LaxMacsecSlice<'a>, HeaderSliceError>
        ensures value { Reads macsec_slice_form slice.now result
            (λ part. macsec_in part ≡ macsec_of slice.now) }
    {
        let header = MacsecHeaderSlice::from_slice(slice)?;
        let turn = Turn {
            kind: PartKind::Macsec,
            link_exts: 0,
            fragmented: false,
        };
        match next_layer(slice, turn, 0, slice.len()) {
            Ok(layer) => {
                let payload = &slice[layer.place.body..layer.place.end];
                Ok(LaxMacsecSlice::of_parts(header, layer.incomplete, layer.len_source, payload))
            }
            Err(_) => unreachable!(),
        }
    }

    /// A tag with the bytes behind it, of which some may be missing, as its short length says.
    pub(crate) fn of_parts(
        header: MacsecHeaderSlice<'a>,
        incomplete: bool,
        len_source: LenSource,
        payload: &'a [u8],
    ) -> LaxMacsecSlice<'a>
        ensures { macsec_in result ≡ macsec_part header.entry incomplete len_source payload.now }
    {
        let payload = match header.next_ether_type() {
            Some(ether_type) => LaxMacsecPayloadSlice::Unmodified(LaxEtherPayloadSlice {
                incomplete,
                ether_type,
                len_source,
                payload,
            }),
            None => LaxMacsecPayloadSlice::Modified {
                incomplete,
                payload,
            },
        };
        LaxMacsecSlice { header, payload }
    }

    /// The source of the windows behind this tag, by the one of those before it.
    pub(crate) fn source_behind(&self, before: LenSource) -> LenSource
        ensures { result ≡ source_behind before (macsec_in self.now) }
    {
        match &self.payload {
            LaxMacsecPayloadSlice::Unmodified(payload) => match payload.len_source {
                LenSource::Slice => before,
                source => source,
            },
            LaxMacsecPayloadSlice::Modified { .. } => before,
        }
    }

    /// The payload has more bytes than are there.
    pub(crate) fn is_cut(&self) -> bool
        ensures { result ≡ is_cut (macsec_in self.now) }
    {
        match &self.payload {
            LaxMacsecPayloadSlice::Unmodified(payload) => payload.incomplete,
            LaxMacsecPayloadSlice::Modified { incomplete, .. } => *incomplete,
        }
    }

    /// The payload, where it is neither encrypted nor changed.
    pub fn ether_payload(&self) -> Option<LaxEtherPayloadSlice<'a>>
        ensures value { option_map ether_in result ≡ payload_of_ext (macsec_in self.now) }
    {
        match &self.payload {
            LaxMacsecPayloadSlice::Unmodified(payload) => Some(LaxEtherPayloadSlice {
                incomplete: payload.incomplete,
                ether_type: payload.ether_type,
                len_source: payload.len_source,
                payload: payload.payload,
            }),
            LaxMacsecPayloadSlice::Modified { .. } => None,
        }
    }

    /// What the payload holds, where it is neither encrypted nor changed.
    pub fn next_ether_type(&self) -> Option<EtherType>
        ensures value { result ≡ type_of_ext (macsec_in self.now) }
    {
        match &self.payload {
            LaxMacsecPayloadSlice::Unmodified(payload) => Some(payload.ether_type),
            LaxMacsecPayloadSlice::Modified { .. } => None,
        }
    }
}
