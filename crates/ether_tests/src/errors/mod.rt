//! What errors print, what they are among all others, and a proved caller.
mod callers;

use callers::{count_read, ip_error, tcp_error};
use ether_err::{
    FromSliceError, IoFault, IoKind, ReadError, ip, ip_auth, ipv4, ipv6, ipv6_exts, linux_sll,
    macsec, tcp,
};
use ether_ip::err;
use ether_link::LenSource;
use ether_link::err::{Layer, LenError};
use std::alloc::{AllocError, Global};
use std::fmt::Display;
use std::test::Fail;

const FAULT: IoFault = IoFault {
    kind: IoKind::UnexpectedEof,
};

const KINDS: [(IoKind, &str); 5] = [
    (IoKind::NotFound, "not found"),
    (IoKind::PermissionDenied, "permission denied"),
    (IoKind::Interrupted, "interrupted"),
    (IoKind::UnexpectedEof, "unexpected end"),
    (IoKind::Other, "other"),
];

// Whether an error prints as this text.
fn prints<E: Display>(alloc: Global, error: &E, text: &str) -> Result<bool, AllocError> {
    Ok(format!(in alloc; "{error}")?.as_str() == text)
}

// Whether a fault of a reader prints the name of its header, and what it was.
fn names<E: Display>(alloc: Global, error: &E, header: &str) -> Result<bool, AllocError> {
    let text = format!(in alloc; "{header} Header IO Error: unexpected end")?;
    prints(alloc, error, text.as_str())
}

// Errors of readers, among all errors of reading.
#[test]
fn a_reader_that_fails_says_at_which_header(rt: HostRuntime) -> Result<(), Fail> {
    let alloc = rt.alloc();
    for (kind, want) in KINDS {
        assert!(rt; prints(alloc, &IoFault { kind }, want)?);
    }
    let (cooked, secured) = ("Linux Cooked Capture v1 (SLL)", "MACsec");
    assert!(rt;
        names(alloc, &ip::HeaderReadError::Io(FAULT), "IP")?
            && names(
                alloc,
                &ip_auth::HeaderReadError::Io(FAULT),
                "IP Authentication"
            )?
            && names(alloc, &ipv4::HeaderReadError::Io(FAULT), "IPv4")?
            && names(alloc, &ipv6::HeaderReadError::Io(FAULT), "IPv6")?
            && names(
                alloc,
                &ipv6_exts::HeaderReadError::Io(FAULT),
                "IPv6 Extension"
            )?
            && names(alloc, &linux_sll::HeaderReadError::Io(FAULT), cooked)?
    );
    assert!(rt;
        names(alloc, &macsec::HeaderReadError::Io(FAULT), secured)?
            && names(alloc, &tcp::HeaderReadError::Io(FAULT), "TCP")?
    );
    let error = ReadError::from(tcp::HeaderReadError::Io(FAULT));
    assert!(rt; error.io().copied() == Some(FAULT) && prints(alloc, &error, "unexpected end")?);
    Ok(())
}

#[test]
fn an_inner_error_keeps_its_text(rt: HostRuntime) -> Result<(), Fail> {
    let alloc = rt.alloc();
    let auth = err::packet::SliceError::Ipv4Exts(err::ip_auth::HeaderError::ZeroPayloadLen);
    let slice = FromSliceError::from(auth);
    let read = ReadError::from(auth);
    assert!(rt;
        slice.ip_auth().copied() == Some(err::ip_auth::HeaderError::ZeroPayloadLen)
            && slice.ipv4().is_none()
            && read.ip_auth().copied() == slice.ip_auth().copied()
            && prints(alloc, &slice, "auth length 0")?
            && prints(alloc, &read, "auth length 0")?
    );

    let late = err::ip::SliceError::IpHeaders(err::ip::HeadersError::Ipv6Ext(
        err::ipv6_exts::HeaderError::HopByHopNotAtStart,
    ));
    let slice = FromSliceError::from(late);
    assert!(rt;
        slice.ipv6_exts().copied() == Some(err::ipv6_exts::HeaderError::HopByHopNotAtStart)
            && prints(alloc, &slice, "hop-by-hop not first")?
    );

    let short = LenError {
        required_len: 20,
        len: 9,
        len_source: LenSource::Slice,
        layer: Layer::TcpHeader,
        layer_start_offset: 34,
    };
    let slice = FromSliceError::from(err::tcp::HeaderSliceError::Len(short));
    assert!(rt;
        slice.len().copied() == Some(short)
            && slice.tcp().is_none()
            && prints(alloc, &slice, "tcp: 20 bytes needed, 9 there")?
    );
    let small = err::tcp::HeaderError::DataOffsetTooSmall { data_offset: 4 };
    assert!(rt; tcp_error(small) == Some(small));
    let version = err::ip::HeaderError::UnsupportedIpVersion { version_number: 5 };
    assert!(rt; ip_error(version) == Some(version));
    let unread = count_read(Err(ipv4::HeaderReadError::Io(FAULT)));
    assert!(rt; unread == Err(ReadError::Io(FAULT)));
    Ok(())
}
