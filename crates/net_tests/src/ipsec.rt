//! Headers as packets from outside have them, and refusals.
use ipsec_wire::{ah, esp};
use net_wire::{Error, IpProtocol};
use std::convert::AsSlice;
use std::test::Fail;
use wire_base::number::append;

/// An authentication header with a check value of 12 bytes, in front of an ESP packet.
const AH_PACKET: [u8; 24] = [
    0x32, 0x04, 0x00, 0x00, 0x81, 0x79, 0xb7, 0x05, 0x00, 0x00, 0x00, 0x01, //
    0x27, 0xcf, 0xc0, 0xa5, 0xe4, 0x3d, 0x69, 0xb3, 0x72, 0x8e, 0xc5, 0xb0,
];

const ESP_HEADER: [u8; 8] = [0xfb, 0x51, 0x28, 0xa6, 0x00, 0x00, 0x00, 0x02];

#[test]
fn reads_an_authentication_header(rt: HostRuntime) -> Result<(), Fail> {
    let packet = ah::Packet::new_checked(&AH_PACKET)?;
    assert!(rt;
        packet.next_header() == IpProtocol::IpSecEsp
            && packet.payload_len() == 4
            && packet.security_parameters_index() == 0x8179_b705
            && packet.sequence_number() == 1
            && packet.integrity_check_value() == &AH_PACKET[12..]
            && packet.as_slice() == AH_PACKET.as_slice()
    );
    assert!(rt; packet == ah::Packet::new_unchecked(&AH_PACKET));
    let repr = ah::Repr::parse(&packet)?;
    let want = ah::Repr::new(IpProtocol::IpSecEsp, 0x8179_b705, 1, &AH_PACKET[12..]);
    assert!(rt; repr == want);
    assert!(rt; packet.into_inner() == AH_PACKET.as_slice());
    Ok(())
}

#[test]
fn writes_an_authentication_header(rt: HostRuntime) -> Result<(), Fail> {
    let repr = ah::Repr::new(IpProtocol::IpSecEsp, 0x8179_b705, 1, &AH_PACKET[12..]);
    let mut bytes = [0xff; 26];
    let mut packet = ah::PacketMut::new_unchecked(&mut bytes);
    repr.emit(&mut packet);
    assert!(rt; repr.buffer_len() == 24);
    let mut want = [0xff; 26];
    append(&mut want, 0, &AH_PACKET);
    assert!(rt; &*packet.into_inner() == want.as_slice());
    Ok(())
}

#[test]
fn lends_the_check_value(rt: HostRuntime) {
    let mut bytes = AH_PACKET;
    let mut packet = ah::PacketMut::new_unchecked(&mut bytes);
    let icv = packet.integrity_check_value_mut();
    icv.fill(7);
    assert!(rt; &*icv == [7; 12].as_slice());
    let mut want = AH_PACKET;
    append(&mut want, 12, &[7; 12]);
    assert!(rt; &*packet.into_inner() == want.as_slice());
}

#[test]
fn refuses_a_header_that_is_cut(rt: HostRuntime) -> Result<(), Fail> {
    // Too short for the length byte; a length byte that says less than the fixed part; no header.
    let short = [0x3b, 0, 0, 0, 0, 0, 0, 1, 0, 0, 0, 1];
    for bytes in [&AH_PACKET[..22], &short[..11], &short, &[]] {
        let packet = ah::Packet::new_unchecked(bytes);
        assert!(rt;
            packet.check_len() == Err(Error)
                && ah::Packet::new_checked(bytes).is_err()
                && ah::Repr::parse(&packet).is_err()
        );
    }
    let packet = esp::Packet::new_unchecked(&ESP_HEADER[..7]);
    assert!(rt;
        packet.check_len() == Err(Error)
            && esp::Packet::new_checked(&ESP_HEADER[..7]).is_err()
            && esp::Repr::parse(&packet).is_err()
    );
    Ok(())
}

#[test]
fn writes_and_reads_an_esp_header(rt: HostRuntime) -> Result<(), Fail> {
    let repr = esp::Repr::new(0xfb51_28a6, 2);
    let mut bytes = [0x11; 8];
    let mut packet = esp::PacketMut::new_unchecked(&mut bytes);
    assert!(rt; repr.buffer_len() == 8);
    repr.emit(&mut packet);
    assert!(rt; &*packet.into_inner() == ESP_HEADER.as_slice());
    let packet = esp::Packet::new_checked(&ESP_HEADER)?;
    assert!(rt;
        packet.security_parameters_index() == 0xfb51_28a6
            && packet.sequence_number() == 2
            && esp::Repr::parse(&packet)? == repr
            && packet == esp::Packet::new_unchecked(&ESP_HEADER)
            && packet.as_slice() == ESP_HEADER.as_slice()
    );
    Ok(())
}
