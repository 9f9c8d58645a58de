//! What the parts of a frame say of those behind them, gathered one after another.
ghost use Rattle.std.specs.Prelude.{◌≡◌, ◌&&◌, length, true, not, None};
ghost use Rattle.ether_ip.specs.Held.{no_extensions, is_taken};
ghost use Rattle.capture_explain.specs.Seen.{held_with, payload_with, extended, esp_at, LiesWithin};

use crate::EspPart;
use ether_ip::{ExtensionPlaces, Ipv6ExtensionSlice};
use ether_lax::Part;
use ether_link::{IpNumber, PartKind, Place};
use ipsec_wire::esp;

/// What the parts so far said.
#[derive(Drop)]
pub(crate) struct Seen<'a> {
    /// The extension headers of IP, each in its place.
    pub held: ExtensionPlaces<'a>,
    /// Each of them found its place free.
    pub free: bool,
    /// What stands behind the headers of the IP packet.
    pub payload: Option<Payload>,
}

/// The payload of an IP packet: what it holds, and its bytes in the frame.
#[derive(Clone, Copy, Debug)]
pub(crate) struct Payload {
    pub number: IpNumber,
    pub fragmented: bool,
    pub start: usize,
    pub end: usize,
}

impl<'a> Seen<'a> {
    /// Nothing.
    pub fn new() -> Seen<'a>
        ensures { (result.held ≡ no_extensions) × (result.free ≡ true) × (result.payload ≡ None) }
    {
        Seen {
            held: ExtensionPlaces::new(),
            free: true,
            payload: None,
        }
    }

    /// The part of this kind finds its place free, and so did those before it.
    pub fn is_free(&self, kind: PartKind) -> bool
        ensures { result ≡ (self.now.free && not (is_taken kind self.now.held)) }
    {
        self.free && !self.held.is_taken(kind)
    }

    /// One part more.
    pub fn put(&mut self, place: Place, part: Part<'a>)
        ensures held { self.new.held ≡ held_with part.entry self.old.held }
        ensures free { self.new.free ≡ (self.old.free && not (is_taken place.kind self.old.held)) }
        ensures payload { self.new.payload ≡ payload_with place part.entry self.old.payload }
    {
        self.free = self.is_free(place.kind);
        match part {
            Part::Ipv4(header) => {
                self.payload = Some(Payload {
                    number: header.protocol(),
                    fragmented: header.is_fragmenting_payload(),
                    start: place.body,
                    end: place.end,
                });
            }
            Part::Ipv6(header) => {
                self.payload = Some(Payload {
                    number: header.next_header(),
                    fragmented: false,
                    start: place.body,
                    end: place.end,
                });
            }
            Part::Extension(header) => {
                self.payload = extended(place, &header, self.payload);
                self.held.put(header);
            }
            _ => {}
        }
    }
}

/// The payload begins behind an extension header.
fn extended(
    place: Place,
    header: &Ipv6ExtensionSlice<'_>,
    before: Option<Payload>,
) -> Option<Payload>
    ensures { result ≡ extended place header.now before }
{
    match before {
        Some(payload) => Some(Payload {
            number: header.next_header(),
            fragmented: header.is_fragmenting_behind(payload.fragmented),
            start: place.body,
            end: place.end,
        }),
        None => None,
    }
}

/// The security payload that the payload of an IP packet is.
pub(crate) fn esp_at(frame: &[u8], payload: Option<Payload>) -> Option<EspPart>
    requires { LiesWithin (length frame.now) payload }
    ensures { result ≡ esp_at frame.now payload }
{
    let Some(payload) = payload else {
        return None;
    };
    if payload.fragmented || payload.number != IpNumber::ENCAPSULATING_SECURITY_PAYLOAD {
        return None;
    }
    match esp::Packet::new_checked(&frame[payload.start..payload.end]) {
        Ok(packet) => Some(EspPart {
            spi: packet.security_parameters_index(),
            sequence: packet.sequence_number(),
        }),
        Err(_) => None,
    }
}
