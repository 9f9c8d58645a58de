//! Messages of servers, made by hand with the options in the order in which dnsmasq, ISC dhcpd and busybox's
//! udhcpd write them, and padded to 300 bytes as they do.
use net_wire::{DhcpMessageType, DhcpRepr, Ipv4Address};
use wire_base::number::append;

/// What lies in the server's name, where options may be too (RFC 2132, section 9.3), the options, and what
/// they say.
struct Example {
    server_name: &'static [u8],
    options: &'static [u8],
    message_type: DhcpMessageType,
    your_ip: Ipv4Address,
    /// Of the lease, its renewal and its rebinding.
    seconds: (Option<u32>, Option<u32>, Option<u32>),
    subnet_mask: Option<Ipv4Address>,
    router: Option<Ipv4Address>,
    dns_servers: &'static [Ipv4Address],
}

const SERVER: Ipv4Address = Ipv4Address([192, 168, 1, 1]);

const LEASED: Ipv4Address = Ipv4Address([192, 168, 1, 42]);

const MASK: Option<Ipv4Address> = Some(Ipv4Address([255, 255, 255, 0]));

/// An offer of dnsmasq: 54, 51, 58, 59, 1, 28, 3, 6, 15.
const DNSMASQ_OFFER: [u8; 57] = [
    0x35, 0x01, 0x02, 0x36, 0x04, 0xc0, 0xa8, 0x01, 0x01, 0x33, 0x04, 0x00, 0x00, 0xa8, 0xc0, 0x3a,
    0x04, 0x00, 0x00, 0x54, 0x60, 0x3b, 0x04, 0x00, 0x00, 0x93, 0xa8, 0x01, 0x04, 0xff, 0xff, 0xff,
    0x00, 0x1c, 0x04, 0xc0, 0xa8, 0x01, 0xff, 0x03, 0x04, 0xc0, 0xa8, 0x01, 0x01, 0x06, 0x04, 0xc0,
    0xa8, 0x01, 0x01, 0x0f, 0x03, 0x6c, 0x61, 0x6e, 0xff,
];

/// An acknowledgement of ISC dhcpd: 54, 51, 1, 3, 6 with two servers, 15, and no 58 and 59.
const ISC_ACK: [u8; 51] = [
    0x35, 0x01, 0x05, 0x36, 0x04, 0xc0, 0xa8, 0x01, 0x01, 0x33, 0x04, 0x00, 0x00, 0x02, 0x58, 0x01,
    0x04, 0xff, 0xff, 0xff, 0x00, 0x03, 0x04, 0xc0, 0xa8, 0x01, 0x01, 0x06, 0x08, 0xc0, 0xa8, 0x01,
    0x35, 0x08, 0x08, 0x08, 0x08, 0x0f, 0x0b, 0x65, 0x78, 0x61, 0x6d, 0x70, 0x6c, 0x65, 0x2e, 0x6f,
    0x72, 0x67, 0xff,
];

/// An offer of udhcpd: 54, 51, 1, 3 with two routers, 6.
const UDHCPD_OFFER: [u8; 38] = [
    0x35, 0x01, 0x02, 0x36, 0x04, 0xc0, 0xa8, 0x01, 0x01, 0x33, 0x04, 0x00, 0x0d, 0x2f, 0x00, 0x01,
    0x04, 0xff, 0xff, 0xff, 0x00, 0x03, 0x08, 0xc0, 0xa8, 0x01, 0x01, 0xc0, 0xa8, 0x01, 0x02, 0x06,
    0x04, 0xc0, 0xa8, 0x01, 0x01, 0xff,
];

/// An acknowledgement with its type last, and padding between: 6, 3, 1, 59, 58, 51, 54.
const BACKWARD_ACK: [u8; 48] = [
    0x06, 0x04, 0xc0, 0xa8, 0x01, 0x35, 0x03, 0x04, 0xc0, 0xa8, 0x01, 0x01, 0x01, 0x04, 0xff, 0xff,
    0xff, 0x00, 0x00, 0x3b, 0x04, 0x00, 0x00, 0x03, 0x6b, 0x3a, 0x04, 0x00, 0x00, 0x01, 0xf4, 0x33,
    0x04, 0x00, 0x00, 0x03, 0xe8, 0x00, 0x36, 0x04, 0xc0, 0xa8, 0x01, 0x01, 0x35, 0x01, 0x05, 0xff,
];

/// An acknowledgement whose option 52 says that the server's name has options too, with a renewal time there.
const OVERLOADED_ACK: [u8; 31] = [
    0x35, 0x01, 0x05, 0x36, 0x04, 0xc0, 0xa8, 0x01, 0x01, 0x33, 0x04, 0x00, 0x00, 0x03, 0xe8, 0x34,
    0x01, 0x02, 0x01, 0x04, 0xff, 0xff, 0xff, 0x00, 0xff, 0x3b, 0x04, 0x00, 0x00, 0x00, 0x07,
];

const RENEWAL_IN_NAME: [u8; 7] = [0x3a, 0x04, 0x00, 0x00, 0x01, 0xf4, 0xff];

/// A refusal of dnsmasq: 54, and 56 with the text "wrong address".
const DNSMASQ_NAK: [u8; 25] = [
    0x35, 0x01, 0x06, 0x36, 0x04, 0xc0, 0xa8, 0x01, 0x01, 0x38, 0x0d, 0x77, 0x72, 0x6f, 0x6e, 0x67,
    0x20, 0x61, 0x64, 0x64, 0x72, 0x65, 0x73, 0x73, 0xff,
];

/// Whether a message of 300 bytes, with zeros behind its options, is read as the example says.
fn is_read(example: &Example) -> bool {
    if example.server_name.len() > 64 || example.options.len() > 60 {
        return false;
    }
    let mut message = [0; 300];
    append(&mut message, 0, &[2, 1, 6, 0, 0x39, 0x03, 0xf3, 0x26]);
    append(&mut message, 16, &example.your_ip.0);
    append(&mut message, 20, &SERVER.0);
    append(&mut message, 28, &[0x00, 0x0b, 0x82, 0x01, 0xfc, 0x42]);
    append(&mut message, 44, example.server_name);
    append(&mut message, 236, &[0x63, 0x82, 0x53, 0x63]);
    append(&mut message, 240, example.options);
    match DhcpRepr::parse(&message) {
        Ok(read) => says(&read, example),
        Err(_) => false,
    }
}

fn says(read: &DhcpRepr<'_>, example: &Example) -> bool {
    let servers = match &read.dns_servers {
        Some(servers) => servers.as_slice(),
        None => &[],
    };
    let seconds = (
        read.lease_duration,
        read.renew_duration,
        read.rebind_duration,
    );
    read.message_type == example.message_type
        && read.transaction_id == 0x3903_f326
        && read.your_ip == example.your_ip
        && read.server_identifier == Some(SERVER)
        && seconds == example.seconds
        && read.subnet_mask == example.subnet_mask
        && read.router == example.router
        && servers == example.dns_servers
}

#[test]
fn messages_of_servers_are_read(rt: HostRuntime) {
    for example in &[
        Example {
            server_name: &[],
            options: &DNSMASQ_OFFER,
            message_type: DhcpMessageType::Offer,
            your_ip: LEASED,
            seconds: (Some(43_200), Some(21_600), Some(37_800)),
            subnet_mask: MASK,
            router: Some(SERVER),
            dns_servers: &[SERVER],
        },
        Example {
            server_name: &[],
            options: &ISC_ACK,
            message_type: DhcpMessageType::Ack,
            your_ip: LEASED,
            seconds: (Some(600), None, None),
            subnet_mask: MASK,
            router: Some(SERVER),
            dns_servers: &[Ipv4Address([192, 168, 1, 53]), Ipv4Address([8, 8, 8, 8])],
        },
        Example {
            server_name: b"router",
            options: &UDHCPD_OFFER,
            message_type: DhcpMessageType::Offer,
            your_ip: LEASED,
            seconds: (Some(864_000), None, None),
            subnet_mask: MASK,
            router: Some(SERVER),
            dns_servers: &[SERVER],
        },
        Example {
            server_name: &[],
            options: &BACKWARD_ACK,
            message_type: DhcpMessageType::Ack,
            your_ip: LEASED,
            seconds: (Some(1000), Some(500), Some(875)),
            subnet_mask: MASK,
            router: Some(SERVER),
            dns_servers: &[Ipv4Address([192, 168, 1, 53])],
        },
        Example {
            server_name: &RENEWAL_IN_NAME,
            options: &OVERLOADED_ACK,
            message_type: DhcpMessageType::Ack,
            your_ip: LEASED,
            seconds: (Some(1000), None, None),
            subnet_mask: MASK,
            router: None,
            dns_servers: &[],
        },
        Example {
            server_name: &[],
            options: &DNSMASQ_NAK,
            message_type: DhcpMessageType::Nak,
            your_ip: Ipv4Address::UNSPECIFIED,
            seconds: (None, None, None),
            subnet_mask: None,
            router: None,
            dns_servers: &[],
        },
    ] {
        assert!(rt; is_read(example));
    }
}
