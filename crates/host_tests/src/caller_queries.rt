//! A query is asked for over borrowed and over owned slots.
use dns_client::{DnsQuery, GetQueryResultError, QueryHandle, Socket, StartQueryError};
use managed::ManagedSlice;
use net_wire::{IpAddress, Ipv4Address};
use uses::queries;

/// The handles of two queries.
fn two_of(socket: &mut Socket<'_>) -> Result<(QueryHandle, QueryHandle), StartQueryError> {
    let first = queries::ask(socket, "a.example", 1, 0)?;
    let second = queries::ask(socket, "b.example", 2, 0)?;
    Ok((first, second))
}

/// Whether two queries fill the slots, and a third one takes the place of the first, once that is ended.
fn takes_the_place(socket: &mut Socket<'_>) -> Result<bool, StartQueryError> {
    let (first, second) = two_of(socket)?;
    let third = queries::ask(socket, "c.example", 3, 0);
    if !socket.is_live(first) {
        return Ok(false);
    }
    let end = queries::finish(socket, first);
    let again = queries::ask(socket, "c.example", 3, 0)?;
    Ok(
        (first.slot(), second.slot(), again.slot()) == (0, 1, 0)
            && third.err() == Some(StartQueryError::NoFreeSlot)
            && end.err() == Some(GetQueryResultError::Pending),
    )
}

/// Whether two queries take the two lowest slots.
fn takes_the_lowest(socket: &mut Socket<'_>) -> Result<bool, StartQueryError> {
    let (first, second) = two_of(socket)?;
    Ok((first.slot(), second.slot()) == (0, 1))
}

#[test]
fn queries_take_the_lowest_free_slot(rt: HostRuntime) {
    let server = IpAddress::Ipv4(Ipv4Address([192, 0, 2, 1]));
    let mut slots: [Option<DnsQuery>; 2] = [None, None];
    let mut socket = Socket::new(&[server], ManagedSlice::Borrowed(&mut slots));
    assert!(rt; takes_the_place(&mut socket) == Ok(true));
    let mut socket = Socket::new(&[server], ManagedSlice::Owned(Vec::new(rt.alloc())));
    assert!(rt; takes_the_lowest(&mut socket) == Ok(true));
}
