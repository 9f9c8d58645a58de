//! Queries over time.
use super::{Outcome, outcome_of, ready_network, server};
use dns_client::{DnsQuery, Socket};
use managed::ManagedSlice;
use net_wire::dns::DnsType;
use net_wire::{Instant, IpAddress, Ipv6Address};
use std::test::Fail;

#[test]
fn a_query_is_sent_four_times_to_a_server(rt: HostRuntime) -> Result<(), Fail> {
    let alloc = rt.alloc();
    let mut socket = Socket::new(&[server(1)], ManagedSlice::Owned(Vec::new(alloc)));
    let mut network = ready_network();
    let handle = socket.start_query("a.example", DnsType::A, 7, 0)?;
    for (secs, sent) in [
        (0, 1),
        (0, 1),
        (1, 2),
        (2, 2),
        (3, 3),
        (7, 4),
        (9, 4),
        (10, 4),
    ] {
        let answer = socket.dispatch(Instant::from_secs(secs), &mut network);
        assert!(rt;
            answer.is_ok()
                && network.sent == sent
                && outcome_of(&mut socket, handle) == Outcome::Pending,
            "at {secs} s"
        );
    }
    assert!(rt;
        network.to == server(1)
            && network.port == 53
            && network.len == 27
            && socket.poll_at() == Some(Instant::from_secs(15))
    );
    let answer = socket.dispatch(Instant::from_secs(11), &mut network);
    assert!(rt;
        answer.is_ok()
            && network.sent == 4
            && outcome_of(&mut socket, handle) == Outcome::Failed
            && outcome_of(&mut socket, handle) == Outcome::NoQuery
            && socket.poll_at() == None
    );
    Ok(())
}

#[test]
fn mdns_asks_both_groups(rt: HostRuntime) -> Result<(), Fail> {
    let mut slots: [Option<DnsQuery>; 1] = [None];
    let mut socket = Socket::new(&[], ManagedSlice::Borrowed(&mut slots));
    let mut network = ready_network();
    let handle = socket.start_query("printer.local", DnsType::A, 7, 0)?;
    let answer = socket.dispatch(Instant::from_secs(0), &mut network);
    assert!(rt; answer.is_ok());
    let mut group = [0; 16];
    group[0] = 0xff;
    group[1] = 0x02;
    group[15] = 0xfb;
    assert!(rt; network.to == IpAddress::Ipv6(Ipv6Address(group)) && network.port == 5353);
    let answer = socket.dispatch(Instant::from_secs(11), &mut network);
    assert!(rt;
        answer.is_ok()
            && network.sent == 2
            && network.to == IpAddress::Ipv4(net_wire::Ipv4Address([224, 0, 0, 251]))
    );
    let answer = socket.dispatch(Instant::from_secs(22), &mut network);
    assert!(rt; answer.is_ok() && outcome_of(&mut socket, handle) == Outcome::Failed);
    Ok(())
}
