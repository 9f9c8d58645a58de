//! What is refused first, and what that prints.

use ether_ip::{
    IpAuthHeaderSlice, Ipv4HeaderSlice, Ipv6FragmentHeaderSlice, Ipv6HeaderSlice,
    Ipv6RawExtHeaderSlice, ip_header_len,
};
use ether_link::IpNumber;
use std::test::Fail;

#[test]
fn the_version_and_ihl_come_before_a_length(rt: HostRuntime) -> Result<(), Fail> {
    for (byte, count, text) in [
        (0x45, 0, "ip: 1 bytes needed, 0 there"),
        (0x44, 1, "ipv4 header length 4"),
        (0x45, 19, "ipv4: 20 bytes needed, 19 there"),
        (0x46, 20, "ipv4: 24 bytes needed, 20 there"),
        (0x60, 39, "ipv6: 40 bytes needed, 39 there"),
        (0x50, 1, "ip version 5"),
    ] {
        let bytes = [byte; 40];
        let error = ip_header_len(&bytes[..count]).err().ok_or("accepted")?;
        assert!(rt; format!(in rt.alloc(); "{error}")?.as_str() == text);
    }
    Ok(())
}

#[test]
fn a_length_comes_before_the_version_and_ihl(rt: HostRuntime) -> Result<(), Fail> {
    for (byte, count, text) in [
        (0x54, 19, "ipv4: 20 bytes needed, 19 there"),
        (0x54, 20, "ipv4 version 5"),
        (0x44, 20, "ipv4 header length 4"),
        (0x4f, 59, "ipv4: 60 bytes needed, 59 there"),
    ] {
        let bytes = [byte; 60];
        let error = Ipv4HeaderSlice::from_slice(&bytes[..count])
            .err()
            .ok_or("accepted")?;
        assert!(rt; format!(in rt.alloc(); "{error}")?.as_str() == text);
    }
    for (byte, count, text) in [
        (0x54, 39, "ipv6: 40 bytes needed, 39 there"),
        (0x54, 40, "ipv6 version 5"),
    ] {
        let bytes = [byte; 40];
        let error = Ipv6HeaderSlice::from_slice(&bytes[..count])
            .err()
            .ok_or("accepted")?;
        assert!(rt; format!(in rt.alloc(); "{error}")?.as_str() == text);
    }
    Ok(())
}

#[test]
fn extension_headers_name_themselves(rt: HostRuntime) -> Result<(), Fail> {
    for (byte, count, text) in [
        (0, 11, "auth: 12 bytes needed, 11 there"),
        (0, 12, "auth length 0"),
        (4, 12, "auth: 24 bytes needed, 12 there"),
    ] {
        let bytes = [byte; 12];
        let error = IpAuthHeaderSlice::from_slice(&bytes[..count])
            .err()
            .ok_or("accepted")?;
        assert!(rt; format!(in rt.alloc(); "{error}")?.as_str() == text);
    }
    let hop_by_hop = Ipv6RawExtHeaderSlice::from_slice(IpNumber(0), &[1; 8]);
    let route = Ipv6RawExtHeaderSlice::from_slice(IpNumber(43), &[1; 7]);
    let options = Ipv6RawExtHeaderSlice::from_slice(IpNumber(60), &[255; 2047]);
    for (error, text) in [
        (hop_by_hop.err(), "hop-by-hop: 16 bytes needed, 8 there"),
        (route.err(), "route: 8 bytes needed, 7 there"),
        (options.err(), "dest-options: 2048 bytes needed, 2047 there"),
        (
            Ipv6FragmentHeaderSlice::from_slice(&[0; 7]).err(),
            "frag: 8 bytes needed, 7 there",
        ),
    ] {
        let error = error.ok_or("accepted")?;
        assert!(rt; format!(in rt.alloc(); "{error}")?.as_str() == text);
    }
    Ok(())
}
