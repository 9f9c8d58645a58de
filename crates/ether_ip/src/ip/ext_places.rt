//! The bytes of extension headers, each in its place (RFC 8200, section 4.1).
ghost use Rattle.std.specs.Prelude.{◌≡◌, option_map};
ghost use Rattle.ether_ip.specs.RawExt.{raw_ext_header};

use crate::{
    IpAuthHeaderSlice, Ipv6ExtensionSlice, Ipv6Extensions, Ipv6FragmentHeaderSlice,
    Ipv6RawExtHeader, Ipv6RawExtHeaderSlice, Ipv6RoutingExtensions,
};
use ether_link::PartKind;

/// Extension headers by their places, of which there is one for each kind but destination options:
/// those have one in front of a routing header and one behind it.
#[derive(Clone, Debug, Drop, PartialEq, Eq)]
pub struct ExtensionPlaces<'a> {
    pub hop_by_hop_options: Option<Ipv6RawExtHeaderSlice<'a>>,
    /// The options in front of a routing header, or those of a packet that has none.
    pub destination_options: Option<Ipv6RawExtHeaderSlice<'a>>,
    pub routing: Option<Ipv6RawExtHeaderSlice<'a>>,
    /// The options behind a routing header.
    pub final_destination_options: Option<Ipv6RawExtHeaderSlice<'a>>,
    pub fragment: Option<Ipv6FragmentHeaderSlice<'a>>,
    pub auth: Option<IpAuthHeaderSlice<'a>>,
}

impl<'a> ExtensionPlaces<'a> {
    ghost use Rattle.ether_ip.specs.Held.{no_extensions, is_taken, with_extension, extensions_of};

    /// No header.
    pub fn new() -> ExtensionPlaces<'a>
        ensures value { result ≡ no_extensions }
    {
        ExtensionPlaces {
            hop_by_hop_options: None,
            destination_options: None,
            routing: None,
            final_destination_options: None,
            fragment: None,
            auth: None,
        }
    }

    /// The place of a kind is taken.
    pub fn is_taken(&self, kind: PartKind) -> bool
        ensures value { result ≡ is_taken kind self.now }
    {
        match kind {
            PartKind::HopByHop => self.hop_by_hop_options.is_some(),
            PartKind::Route => self.routing.is_some(),
            PartKind::DestinationOptions => {
                if self.routing.is_some() {
                    self.final_destination_options.is_some()
                } else {
                    self.destination_options.is_some()
                }
            }
            PartKind::Fragment => self.fragment.is_some(),
            PartKind::Ipv4Auth | PartKind::Ipv6Auth => self.auth.is_some(),
            _ => false,
        }
    }

    /// Puts a header into its place, in which there is no other one after that.
    pub fn put(&mut self, header: Ipv6ExtensionSlice<'a>)
        ensures value { self.new ≡ with_extension header.entry self.old }
    {
        match header {
            Ipv6ExtensionSlice::HopByHop(header) => self.hop_by_hop_options = Some(header),
            Ipv6ExtensionSlice::Routing(header) => self.routing = Some(header),
            Ipv6ExtensionSlice::DestinationOptions(header) => {
                if self.routing.is_some() {
                    self.final_destination_options = Some(header);
                } else {
                    self.destination_options = Some(header);
                }
            }
            Ipv6ExtensionSlice::Fragment(header) => self.fragment = Some(header),
            Ipv6ExtensionSlice::Authentication(header) => self.auth = Some(header),
        }
    }

    /// The fields of the headers.
    pub fn to_header(&self) -> Ipv6Extensions
        ensures value { result ≡ extensions_of self.now }
    {
        Ipv6Extensions {
            hop_by_hop_options: raw_header(&self.hop_by_hop_options),
            destination_options: raw_header(&self.destination_options),
            routing: match &self.routing {
                Some(routing) => Some(Ipv6RoutingExtensions {
                    routing: routing.to_header(),
                    final_destination_options: raw_header(&self.final_destination_options),
                }),
                None => None,
            },
            fragment: match &self.fragment {
                Some(fragment) => Some(fragment.to_header()),
                None => None,
            },
            auth: match &self.auth {
                Some(auth) => Some(auth.to_header()),
                None => None,
            },
        }
    }
}

/// The fields of a header, if there is one.
fn raw_header(header: &Option<Ipv6RawExtHeaderSlice<'_>>) -> Option<Ipv6RawExtHeader>
    ensures { result ≡ option_map raw_ext_header header.now }
{
    match header {
        Some(header) => Some(header.to_header()),
        None => None,
    }
}
