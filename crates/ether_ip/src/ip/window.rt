//! The window of an IP packet: what of the bytes behind its header belongs to it.
ghost use Rattle.std.specs.Prelude.{◌≡◌, ◌≤◌, length};
ghost use Rattle.ether_link.specs.Layout.{window_end};
ghost use Rattle.ether_link.specs.Places.{is_cut_off, source_of_length};
ghost use Rattle.ether_ip.specs.IpWindow.{ip_announced, ip_source};

use ether_link::LenSource;
use wire_base::number::read_be16;

/// Where the payload of an IP packet ends.
#[derive(Clone, Copy, Debug, PartialEq, Eq)]
pub struct IpWindow {
    /// In bytes from the start of the header.
    pub end: usize,
    /// Where the end is from.
    pub len_source: LenSource,
    /// The header says that there are more bytes.
    pub incomplete: bool,
}

/// The window of the packet that begins with a header, of which `there` bytes are there.
pub fn ip_window(header: &[u8], there: usize) -> IpWindow
    requires { 20 ≤ length header.now }
    ensures end { result.end ≡ window_end 0 there (ip_announced header.now) }
    ensures source { result.len_source ≡ ip_source header.now 0 there }
    ensures incomplete { result.incomplete ≡ is_cut_off 0 there (ip_announced header.now) }
{
    let said = ip_announced(header);
    if header[0] >> 4 == 4 {
        window_by(said, LenSource::Ipv4HeaderTotalLen, there)
    } else if there == 40 {
        let payload_len = usize::from(read_be16(header, 4));
        window_by(
            Some(40 + payload_len),
            LenSource::Ipv6HeaderPayloadLen,
            there,
        )
    } else {
        window_by(said, LenSource::Ipv6HeaderPayloadLen, there)
    }
}

/// How many bytes header and payload have, as a header says, if it says so: a total length that has
/// no room for the header says nothing, nor does a payload length of 0.
pub fn ip_announced(header: &[u8]) -> Option<usize>
    requires { 20 ≤ length header.now }
    ensures value { result ≡ ip_announced header.now }
{
    if header[0] >> 4 == 4 {
        let total_len = usize::from(read_be16(header, 2));
        if total_len < header.len() {
            None
        } else {
            Some(total_len)
        }
    } else {
        let payload_len = usize::from(read_be16(header, 4));
        if payload_len == 0 {
            None
        } else {
            Some(40 + payload_len)
        }
    }
}

/// The window of a packet whose header says how many bytes it has in all, by one of its fields.
fn window_by(said: Option<usize>, field: LenSource, there: usize) -> IpWindow
    ensures end { result.end ≡ window_end 0 there said }
    ensures source { result.len_source ≡ source_of_length field 0 there said }
    ensures incomplete { result.incomplete ≡ is_cut_off 0 there said }
{
    match said {
        Some(end) if end <= there => IpWindow {
            end,
            len_source: field,
            incomplete: false,
        },
        _ => IpWindow {
            end: there,
            len_source: LenSource::Slice,
            incomplete: said.is_some(),
        },
    }
}
