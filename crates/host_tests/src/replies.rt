//! Frames that arrive, with their notes, cut into the parts that they have in common. They are from
//! `scripts/make-lives`, which puts them together from RFC 894, 826, 791, 768, 2131 and 2132.

/// The kind of an event, its text, and the parts of a frame.
pub type What = (u8, &'static str, &'static [&'static [u8]]);

/// To 02:02:02:02:02:02 from 02:00:00:00:00:01.
pub const ADDRESSES: &[u8] = b"\x02\x02\x02\x02\x02\x02\x02\x00\x00\x00\x00\x01";

/// The ether type of IPv4.
pub const IPV4: &[u8] = b"\x08\x00";

/// 302 bytes of UDP from 192.168.1.1 to 255.255.255.255, not to be fragmented.
pub const HEADER: &[u8] =
    b"\x45\x00\x01\x2e\x00\x00\x40\x00\x40\x11\x78\x16\xc0\xa8\x01\x01\xff\xff\xff\xff";

/// A reply to the first message of the seed 1.
pub const FIRST_ID: &[u8] = b"\x02\x01\x06\x00\x00\x04\x20\x21";

/// The client's address, 192.168.1.42.
pub const YOURS: &[u8] = b"\x00\x00\x00\x00\x00\x00\x00\x00\xc0\xa8\x01\x2a";

/// The client's hardware address.
pub const CLIENT: &[u8] = b"\x00\x00\x00\x00\x00\x00\x00\x00\x02\x02\x02\x02\x02\x02";

/// The rest of that field, the server's name and the file.
pub const ZEROS: &[u8] = &[0; 202];

/// The magic number, and option 53 of an acknowledgement.
pub const ACKNOWLEDGES: &[u8] = b"\x63\x82\x53\x63\x35\x01\x05";

/// The options 54 and 3: 192.168.1.1.
pub const ROUTER: &[u8] = b"\x36\x04\xc0\xa8\x01\x01\x03\x04\xc0\xa8\x01\x01";

/// The options 1, 51 and 6, and the end: 24 bits, 1000 seconds, 192.168.1.53.
pub const TERMS: &[u8] =
    b"\x01\x04\xff\xff\xff\x00\x33\x04\x00\x00\x03\xe8\x06\x04\xc0\xa8\x01\x35\xff";

pub const EARLY_OFFER: What = (
    1,
    "frame 316 exts=0 net=ipv4 transport=udp window=42-316 incomplete=0 fragmented=0 stop=none",
    &[
        ADDRESSES,
        IPV4,
        HEADER,
        b"\x00\x43\x00\x44\x01\x1a\x4e\x0e",
        b"\x02\x01\x06\x00\x00\x00\x00\x01",
        YOURS,
        CLIENT,
        ZEROS,
        b"\x63\x82\x53\x63\x35\x01\x02",
        ROUTER,
        TERMS,
    ],
);

pub const OFFERED: What = (
    1,
    "frame 316 exts=0 net=ipv4 transport=udp window=42-316 incomplete=0 fragmented=0 stop=none",
    &[
        ADDRESSES,
        IPV4,
        HEADER,
        b"\x00\x43\x00\x44\x01\x1a\x2d\xea",
        FIRST_ID,
        YOURS,
        CLIENT,
        ZEROS,
        b"\x63\x82\x53\x63\x35\x01\x02",
        ROUTER,
        TERMS,
    ],
);

pub const ACKNOWLEDGED: What = (
    1,
    "frame 316 exts=0 net=ipv4 transport=udp window=42-316 incomplete=0 fragmented=0 stop=none",
    &[
        ADDRESSES,
        IPV4,
        HEADER,
        b"\x00\x43\x00\x44\x01\x1a\x2a\xea",
        FIRST_ID,
        YOURS,
        CLIENT,
        ZEROS,
        ACKNOWLEDGES,
        ROUTER,
        TERMS,
    ],
);

pub const ACKNOWLEDGED_LATE: What = (
    1,
    "frame 316 exts=0 net=ipv4 transport=udp window=42-316 incomplete=0 fragmented=0 stop=none",
    &[
        ADDRESSES,
        IPV4,
        HEADER,
        b"\x00\x43\x00\x44\x01\x1a\xd6\xdf",
        b"\x02\x01\x06\x00\xb9\x45\xba\xe9",
        YOURS,
        CLIENT,
        ZEROS,
        ACKNOWLEDGES,
        ROUTER,
        TERMS,
    ],
);

pub const REFUSED: What = (
    1,
    "frame 292 exts=0 net=ipv4 transport=udp window=42-292 incomplete=0 fragmented=0 stop=none",
    &[
        ADDRESSES,
        IPV4,
        b"\x45\x00\x01\x16\x00\x00\x40\x00\x40\x11\x78\x2e\xc0\xa8\x01\x01\xff\xff\xff\xff",
        b"\x00\x43\x00\x44\x01\x02\x6c\xb0",
        FIRST_ID,
        &[0; 12],
        CLIENT,
        ZEROS,
        b"\x63\x82\x53\x63\x35\x01\x06",
        b"\x36\x04\xc0\xa8\x01\x01\xff",
    ],
);

pub const NO_TIME: What = (
    1,
    "frame 316 exts=0 net=ipv4 transport=udp window=42-316 incomplete=0 fragmented=0 stop=none",
    &[
        ADDRESSES,
        IPV4,
        HEADER,
        b"\x00\x43\x00\x44\x01\x1a\x12\xee",
        FIRST_ID,
        YOURS,
        CLIENT,
        ZEROS,
        ACKNOWLEDGES,
        ROUTER,
        b"\x01\x04\xff\xff\xff\x00\x33\x04\x00\x00\x00\x00\x06\x04\xc0\xa8\x01\x35\xff",
    ],
);

pub const FLIPPED: What = (
    1,
    "frame 316 exts=0 net=ipv4 transport=udp window=42-316 incomplete=0 fragmented=0 stop=none",
    &[
        ADDRESSES,
        IPV4,
        HEADER,
        b"\x00\x43\x00\x44\x01\x1a\x2a\xea",
        FIRST_ID,
        b"\x00\x00\x00\x00\x00\x00\x00\x00\xc0\xa8\x01\x2b",
        CLIENT,
        ZEROS,
        ACKNOWLEDGES,
        ROUTER,
        TERMS,
    ],
);

pub const FRAGMENT: What = (
    1,
    "frame 316 exts=0 net=ipv4 transport=none window=34-316 incomplete=0 fragmented=1 stop=none",
    &[
        ADDRESSES,
        IPV4,
        b"\x45\x00\x01\x2e\x00\x00\x20\x00\x40\x11\x98\x16\xc0\xa8\x01\x01\xff\xff\xff\xff",
        b"\x00\x43\x00\x44\x01\x1a\x2a\xea",
        FIRST_ID,
        YOURS,
        CLIENT,
        ZEROS,
        ACKNOWLEDGES,
        ROUTER,
        TERMS,
    ],
);

pub const TAGGED: What = (
    1,
    "frame 320 exts=1 net=ipv4 transport=udp window=46-320 incomplete=0 fragmented=0 stop=none",
    &[
        ADDRESSES,
        b"\x81\x00\x00\x05",
        IPV4,
        HEADER,
        b"\x00\x43\x00\x44\x01\x1a\x2a\xea",
        FIRST_ID,
        YOURS,
        CLIENT,
        ZEROS,
        ACKNOWLEDGES,
        ROUTER,
        TERMS,
    ],
);

pub const TOO_LONG: What = (
    1,
    "frame 316 exts=0 net=ipv4 transport=udp window=42-316 incomplete=1 fragmented=0 stop=none",
    &[
        ADDRESSES,
        IPV4,
        b"\x45\x00\x01\x2f\x00\x00\x40\x00\x40\x11\x78\x15\xc0\xa8\x01\x01\xff\xff\xff\xff",
        b"\x00\x43\x00\x44\x01\x1a\x2a\xea",
        FIRST_ID,
        YOURS,
        CLIENT,
        ZEROS,
        ACKNOWLEDGES,
        ROUTER,
        TERMS,
    ],
);

pub const UNSUMMED: What = (
    1,
    "frame 316 exts=0 net=ipv4 transport=udp window=42-316 incomplete=0 fragmented=0 stop=none",
    &[
        ADDRESSES,
        IPV4,
        HEADER,
        b"\x00\x43\x00\x44\x01\x1a\x00\x00",
        FIRST_ID,
        YOURS,
        CLIENT,
        ZEROS,
        ACKNOWLEDGES,
        ROUTER,
        TERMS,
    ],
);

pub const PADDED: What = (
    1,
    "frame 336 exts=0 net=ipv4 transport=udp window=42-316 incomplete=0 fragmented=0 stop=none",
    &[
        ADDRESSES,
        IPV4,
        HEADER,
        b"\x00\x43\x00\x44\x01\x1a\x2a\xea",
        FIRST_ID,
        YOURS,
        CLIENT,
        ZEROS,
        ACKNOWLEDGES,
        ROUTER,
        TERMS,
        &[0; 20],
    ],
);

pub const ROUTER_IS_AT: What = (
    1,
    "frame 42 exts=0 net=arp transport=none window=14-42 incomplete=0 fragmented=0 stop=none",
    &[
        ADDRESSES,
        b"\x08\x06\x00\x01\x08\x00\x06\x04\x00\x02",
        b"\x02\x00\x00\x00\x00\x01\xc0\xa8\x01\x01\x02\x02\x02\x02\x02\x02\xc0\xa8\x01\x2a",
    ],
);
