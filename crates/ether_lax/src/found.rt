//! The parts of a packet, gathered one after another.
ghost use Rattle.std.specs.Prelude.{◌≡◌, ◌<◌, ◌≤◌, ◌&&◌, length};
ghost use Rattle.ether_lax.specs.Found.{extended};

use crate::{LaxLinkExtSlice, LaxMacsecSlice, LaxPayloadSlice, NextLayer, Part};
use arrayvec::ArrayVec;
use ether_ip::{
    ExtensionPlaces, Ipv4HeaderSlice, Ipv6ExtensionSlice, Ipv6HeaderSlice, TransportSlice,
};
use ether_link::{ArpPacketSlice, IpNumber, LenSource, PartKind, Place};

/// What was found so far.
#[derive(Drop)]
pub(crate) struct Found<'a> {
    pub(crate) link_exts: ArrayVec<LaxLinkExtSlice<'a>, 3>,
    /// The source of the windows behind the link extensions.
    pub(crate) link_source: LenSource,
    /// The last link extension has more bytes than are there.
    pub(crate) link_incomplete: bool,
    /// What the last link extension carries.
    pub(crate) carried: Option<LaxPayloadSlice<'a>>,
    pub(crate) arp: Option<ArpPacketSlice<'a>>,
    pub(crate) ip: Option<FoundIp<'a>>,
    pub(crate) held: ExtensionPlaces<'a>,
    pub(crate) transport: Option<TransportSlice<'a>>,
    pub(crate) last: Option<Place>,
}

/// An IP header, and how far its extension headers reach.
#[derive(Drop)]
pub(crate) struct FoundIp<'a> {
    pub(crate) header: IpHeader<'a>,
    pub(crate) first: Place,
    /// The last of the headers.
    pub(crate) last: Place,
    /// What is behind them.
    pub(crate) number: IpNumber,
    pub(crate) fragmented: bool,
    pub(crate) len_source: LenSource,
    pub(crate) incomplete: bool,
}

/// An IP header, by its version.
#[derive(Drop)]
pub(crate) enum IpHeader<'a> {
    V4(Ipv4HeaderSlice<'a>),
    V6(Ipv6HeaderSlice<'a>),
}

impl<'a> Found<'a> {
    ghost use Rattle.ether_ip.specs.Held.{is_taken};
    ghost use Rattle.ether_lax.specs.Found.{found_in, no_parts, with_part, with_ext};
    ghost use Rattle.ether_lax.specs.LinkExts.{ext_in};
    ghost use Rattle.ether_lax.specs.Walks.{HasRoom, IsOf};

    /// Nothing.
    pub(crate) fn new() -> Found<'a>
        ensures { found_in result ≡ no_parts }
    {
        Found {
            link_exts: ArrayVec::new(),
            link_source: LenSource::Slice,
            link_incomplete: false,
            carried: None,
            arp: None,
            ip: None,
            held: ExtensionPlaces::new(),
            transport: None,
            last: None,
        }
    }

    /// The place of an extension header of this kind is taken, where places count.
    pub(crate) fn is_taken(&self, in_places: bool, kind: PartKind) -> bool
        ensures { result ≡ (in_places && is_taken kind self.now.held) }
    {
        in_places && self.held.is_taken(kind)
    }

    /// Adds a part.
    pub(crate) fn put(&mut self, frame: &'a [u8], layer: NextLayer<'a>)
        requires room { HasRoom layer.part (length (found_in self.old).exts) }
        requires window { layer.place.body ≤ layer.place.end }
        requires within { layer.place.end ≤ length frame.now }
        requires layer { IsOf frame.now layer.place layer.len_source layer.incomplete }
        ensures value { found_in self.new
            ≡ with_part frame.now layer.entry.place layer.entry.part (found_in self.old) }
    {
        let NextLayer {
            place,
            part,
            len_source,
            incomplete,
            next: _,
        } = layer;
        self.last = Some(place);
        match part {
            Part::Ethernet2(_) | Part::LinuxSll(_) => {}
            Part::Vlan(tag) => self.push(LaxLinkExtSlice::Vlan(tag)),
            Part::Macsec(header) => {
                let window = &frame[place.body..place.end];
                let macsec = LaxMacsecSlice::of_parts(header, incomplete, len_source, window);
                self.push(LaxLinkExtSlice::Macsec(macsec));
            }
            Part::Arp(packet) => self.arp = Some(packet),
            Part::Ipv4(header) => {
                let (number, fragmented) = (header.protocol(), header.is_fragmenting_payload());
                self.ip = Some(FoundIp {
                    header: IpHeader::V4(header),
                    first: place,
                    last: place,
                    number,
                    fragmented,
                    len_source,
                    incomplete,
                });
            }
            Part::Ipv6(header) => {
                let number = header.next_header();
                self.ip = Some(FoundIp {
                    header: IpHeader::V6(header),
                    first: place,
                    last: place,
                    number,
                    fragmented: false,
                    len_source,
                    incomplete,
                });
            }
            Part::Extension(header) => {
                extend(&mut self.ip, place, &header);
                self.held.put(header);
            }
            Part::Transport(part) => self.transport = Some(part),
        }
    }

    /// Adds a link extension.
    #[tactic(auto, using(crate::proofs::FoundLemmas::exts_more, crate::proofs::FoundLemmas::exts_len))]
    fn push(&mut self, ext: LaxLinkExtSlice<'a>)
        requires { length (found_in self.old).exts < 3 }
        ensures { found_in self.new ≡ with_ext (ext_in ext.entry) (found_in self.old) }
    {
        match &ext {
            LaxLinkExtSlice::Vlan(_) => self.link_incomplete = false,
            LaxLinkExtSlice::Macsec(macsec) => {
                self.link_source = macsec.source_behind(self.link_source);
                self.link_incomplete = macsec.is_cut();
            }
        }
        self.carried = Some(ext.carried(self.link_source));
        self.link_exts.push(ext);
    }
}

/// The payload begins behind an extension header.
fn extend<'a>(ip: &mut Option<FoundIp<'a>>, place: Place, header: &Ipv6ExtensionSlice<'a>)
    ensures { ip.new ≡ extended place header.now ip.old }
{
    if let Some(ip) = ip {
        ip.last = place;
        ip.number = header.next_header();
        ip.fragmented = header.is_fragmenting_behind(ip.fragmented);
    }
}
