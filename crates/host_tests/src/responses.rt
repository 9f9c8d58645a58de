//! Queries, and frames of a name server and of a neighbour that arrive, with their notes, cut into the parts that
//! they have in common. They are from `scripts/make-lives`, which puts them together from RFC 894, 826, 791, 768,
//! 1035, 2131 and 2132.
use crate::replies::*;

/// 71 bytes of UDP from 192.168.1.53 to 192.168.1.42, not to be fragmented.
pub const FROM_NAMES: &[u8] =
    b"\x45\x00\x00\x5b\x00\x00\x40\x00\x40\x11\xb6\xe2\xc0\xa8\x01\x35\xc0\xa8\x01\x2a";

/// The id of the query of the fourth event.
pub const ASKED_ID: &[u8] = b"\x02\xcb";

/// The flags of a response to which recursion was asked for and is there, a question and two answers.
pub const ANSWERS_TWO: &[u8] = b"\x81\x80\x00\x01\x00\x02\x00\x00\x00\x00";

/// The question for the IPv4 address of www.example.
pub const ASKS_WWW: &[u8] = b"\x03\x77\x77\x77\x07\x65\x78\x61\x6d\x70\x6c\x65\x00\x00\x01\x00\x01";

/// A record that this is web.example, and one that the address of that is 192.0.2.7.
pub const IS_WEB: &[u8] =
    b"\xc0\x0c\x00\x05\x00\x01\x00\x00\x00\x3c\x00\x06\x03\x77\x65\x62\xc0\x10\xc0\x29\x00\x01\x00\x01\x00\x00\x00\x3c\x00\x04\xc0\x00\x02\x07";

pub const NAMES_ARE_AT: What = (
    1,
    "frame 42 exts=0 net=arp transport=none window=14-42 incomplete=0 fragmented=0 stop=none",
    &[
        ADDRESSES,
        b"\x08\x06\x00\x01\x08\x00\x06\x04\x00\x02",
        b"\x02\x00\x00\x00\x00\x01\xc0\xa8\x01\x35\x02\x02\x02\x02\x02\x02\xc0\xa8\x01\x2a",
    ],
);

pub const ROUTER_ASKS: What = (
    1,
    "frame 42 exts=0 net=arp transport=none window=14-42 incomplete=0 fragmented=0 stop=none",
    &[
        ADDRESSES,
        b"\x08\x06\x00\x01\x08\x00\x06\x04\x00\x01",
        b"\x02\x00\x00\x00\x00\x01\xc0\xa8\x01\x01\x02\x02\x02\x02\x02\x02\xc0\xa8\x01\x2a",
    ],
);

pub const RESPONSE: What = (
    1,
    "frame 105 exts=0 net=ipv4 transport=udp window=42-105 incomplete=0 fragmented=0 stop=none",
    &[
        ADDRESSES,
        IPV4,
        FROM_NAMES,
        b"\x00\x35\x11\xbf\x00\x47\x5c\x77",
        ASKED_ID,
        ANSWERS_TWO,
        ASKS_WWW,
        IS_WEB,
    ],
);

pub const RESPONSE_LATER: What = (
    1,
    "frame 105 exts=0 net=ipv4 transport=udp window=42-105 incomplete=0 fragmented=0 stop=none",
    &[
        ADDRESSES,
        IPV4,
        FROM_NAMES,
        b"\x00\x35\xe5\x41\x00\x47\x93\x10",
        b"\xf8\xae",
        ANSWERS_TWO,
        ASKS_WWW,
        IS_WEB,
    ],
);

pub const RESPONSE_6: What = (
    1,
    "frame 99 exts=0 net=ipv4 transport=udp window=42-99 incomplete=0 fragmented=0 stop=none",
    &[
        ADDRESSES,
        IPV4,
        b"\x45\x00\x00\x55\x00\x00\x40\x00\x40\x11\xb6\xe8\xc0\xa8\x01\x35\xc0\xa8\x01\x2a",
        b"\x00\x35\x11\xbf\x00\x41\xbe\x01",
        ASKED_ID,
        b"\x81\x80\x00\x01\x00\x01\x00\x00\x00\x00",
        b"\x03\x77\x77\x77\x07\x65\x78\x61\x6d\x70\x6c\x65\x00\x00\x1c\x00\x01",
        b"\xc0\x0c\x00\x1c\x00\x01\x00\x00\x00\x3c\x00\x10\x20\x01\x0d\xb8\x00\x00\x00\x00\x00\x00\x00\x00\x00\x00\x00\x07",
    ],
);

pub const WRONG_ID: What = (
    1,
    "frame 105 exts=0 net=ipv4 transport=udp window=42-105 incomplete=0 fragmented=0 stop=none",
    &[
        ADDRESSES,
        IPV4,
        FROM_NAMES,
        b"\x00\x35\x11\xbf\x00\x47\x5c\x78",
        b"\x02\xca",
        ANSWERS_TWO,
        ASKS_WWW,
        IS_WEB,
    ],
);

pub const WRONG_PORT: What = (
    1,
    "frame 105 exts=0 net=ipv4 transport=udp window=42-105 incomplete=0 fragmented=0 stop=none",
    &[
        ADDRESSES,
        IPV4,
        FROM_NAMES,
        b"\x00\x35\x11\xc0\x00\x47\x5c\x76",
        ASKED_ID,
        ANSWERS_TWO,
        ASKS_WWW,
        IS_WEB,
    ],
);

pub const WRONG_SOURCE: What = (
    1,
    "frame 105 exts=0 net=ipv4 transport=udp window=42-105 incomplete=0 fragmented=0 stop=none",
    &[
        ADDRESSES,
        IPV4,
        b"\x45\x00\x00\x5b\x00\x00\x40\x00\x40\x11\xb7\x16\xc0\xa8\x01\x01\xc0\xa8\x01\x2a",
        b"\x00\x35\x11\xbf\x00\x47\x5c\xab",
        ASKED_ID,
        ANSWERS_TWO,
        ASKS_WWW,
        IS_WEB,
    ],
);

pub const WRONG_SOURCE_PORT: What = (
    1,
    "frame 105 exts=0 net=ipv4 transport=udp window=42-105 incomplete=0 fragmented=0 stop=none",
    &[
        ADDRESSES,
        IPV4,
        FROM_NAMES,
        b"\x00\x36\x11\xbf\x00\x47\x5c\x76",
        ASKED_ID,
        ANSWERS_TWO,
        ASKS_WWW,
        IS_WEB,
    ],
);

pub const RENEWED: What = (
    1,
    "frame 316 exts=0 net=ipv4 transport=udp window=42-316 incomplete=0 fragmented=0 stop=none",
    &[
        ADDRESSES,
        IPV4,
        HEADER,
        b"\x00\x43\x00\x44\x01\x1a\xe9\xa3",
        b"\x02\x01\x06\x00\x5d\xb7\x03\xb4",
        YOURS,
        CLIENT,
        ZEROS,
        ACKNOWLEDGES,
        ROUTER,
        TERMS,
    ],
);

pub const RENEWED_LATER: What = (
    1,
    "frame 316 exts=0 net=ipv4 transport=udp window=42-316 incomplete=0 fragmented=0 stop=none",
    &[
        ADDRESSES,
        IPV4,
        HEADER,
        b"\x00\x43\x00\x44\x01\x1a\x8c\xb1",
        b"\x02\x01\x06\x00\x37\x96\x86\xc7",
        YOURS,
        CLIENT,
        ZEROS,
        ACKNOWLEDGES,
        ROUTER,
        TERMS,
    ],
);

pub const WWW: What = (3, "query", &[b"\x0bwww.example"]);

pub const WWW_6: What = (5, "query", &[b"\x00\x1c\x0bwww.example"]);

pub const A_NAME: What = (3, "query", &[b"\x09a.example"]);
