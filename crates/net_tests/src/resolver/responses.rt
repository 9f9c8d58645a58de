//! Responses: whole ones, cut ones and damaged ones.
use super::{Outcome, hear, outcome_of, ready_network, server};
use arrayvec::ArrayVec;
use dns_client::{QueryHandle, Socket};
use managed::ManagedSlice;
use net_wire::Instant;
use net_wire::dns::DnsType;
use std::alloc::Global;
use std::test::Fail;

type Message = ArrayVec<u8, 512>;

/// The header of a response with a number of answers, and the question `a.example` of type A.
fn response(answers: u8) -> Message {
    let mut message = Message::new();
    let header = [0, 7, 0x81, 0x80, 0, 1, 0, answers, 0, 0, 0, 0];
    let _ = message.try_extend_from_slice(&header);
    let _ = message.try_extend_from_slice(b"\x01a\x07example\x00\x00\x01\x00\x01");
    message
}

/// Adds a record of the name of the question.
fn add(message: &mut Message, number: u8, content: &[u8]) {
    add_named(message, b"\xc0\x0c", number, content);
}

fn add_named(message: &mut Message, owner: &[u8], number: u8, content: &[u8]) {
    if content.len() < 256 {
        let _ = message.try_extend_from_slice(owner);
        let _ = message.try_extend_from_slice(&[
            0,
            number,
            0,
            1,
            0,
            0,
            0,
            60,
            0,
            content.len() as u8,
        ]);
        let _ = message.try_extend_from_slice(content);
    }
}

/// A client of two servers that sent its query to the first one.
fn asking(alloc: Global) -> Result<(Socket<'static>, QueryHandle), Fail> {
    let mut socket = Socket::new(
        &[server(1), server(2)],
        ManagedSlice::Owned(Vec::new(alloc)),
    );
    let handle = socket.start_query("a.example", DnsType::A, 7, 0)?;
    let _ = socket.dispatch(Instant::from_secs(0), &mut ready_network());
    Ok((socket, handle))
}

/// Three aliases, an address of another name between them, an address at the end, and an OPT record
/// (RFC 6891) in the additional section.
fn aliases() -> Message {
    let mut message = response(5);
    add(&mut message, 5, b"\x01b\xc0\x0e");
    add_named(&mut message, b"\x01x\x00", 1, &[192, 0, 2, 8]);
    add_named(&mut message, b"\x01b\xc0\x0e", 5, b"\x01c\xc0\x0e");
    add_named(&mut message, b"\x01c\xc0\x0e", 5, b"\x01d\xc0\x0e");
    add_named(&mut message, b"\x01d\xc0\x0e", 1, &[192, 0, 2, 9]);
    let _ = message.try_extend_from_slice(&[0, 0, 41, 0x04, 0xd0, 0, 0, 0, 0, 0, 0]);
    message
}

#[test]
fn aliases_are_followed(rt: HostRuntime) -> Result<(), Fail> {
    let (mut socket, handle) = asking(rt.alloc())?;
    hear(&mut socket, server(1), 53, 1025, &aliases());
    assert!(rt; outcome_of(&mut socket, handle) == Outcome::Answered(server(9), 1));
    Ok(())
}

#[test]
fn a_damaged_response_leaves_the_query(rt: HostRuntime) -> Result<(), Fail> {
    let mut good = response(2);
    add(&mut good, 5, b"\x01b\xc0\x0e");
    add_named(&mut good, b"\x01b\xc0\x0e", 1, &[192, 0, 2, 9]);
    let (mut socket, handle) = asking(rt.alloc())?;
    for len in 0..good.len() {
        hear(&mut socket, server(1), 53, 1025, &good.as_slice()[..len]);
    }
    assert!(rt; outcome_of(&mut socket, handle) == Outcome::Pending);
    // each byte of the question and the offset of the first owner, the counts of questions and of answers,
    // the response bit, the opcode, and the id
    for (from, to, byte) in [
        (12, 27, 0xc0),
        (28, 29, 0xc0),
        (5, 6, 2),
        (7, 8, 3),
        (2, 3, 0x01),
        (2, 3, 0x89),
        (1, 2, 8),
    ] {
        for place in from..to {
            let mut bad = good.clone()?;
            if place < bad.len() {
                bad[place] = byte;
            }
            hear(&mut socket, server(1), 53, 1025, &bad);
            assert!(rt;
                outcome_of(&mut socket, handle) == Outcome::Pending,
                "{place} {byte}"
            );
        }
    }
    hear(&mut socket, server(1), 53, 1025, &good);
    assert!(rt; outcome_of(&mut socket, handle) == Outcome::Answered(server(9), 1));
    Ok(())
}
