//! The server.
use crate::lease::Lease;
use crate::marks::{first_unmarked, instant_at, is_same, later, mark, micros_of};
use crate::replies::{discover_reply, release_reply};
use crate::values::number_of;
use crate::{Reply, ServerError, ServerValues, Silence};
use managed::{ManagedMap, ManagedSlice, SlotIndex, SlotKey, SlotMap};
use net_wire::{DhcpMessageType, DhcpRepr, EthernetAddress, Instant, Ipv4Address};
use std::marker::Model;

/// How many addresses a range has at most.
const MOST: usize = 1000;

/// How long an offered address is held, in microseconds.
const OFFER_MICROS: u64 = 60_000_000;

/// A DHCP server over places that its user lends: one for each address of the range.
pub struct Server<'a> {
    values: ServerValues,
    clients: ManagedMap<'a, EthernetAddress, SlotKey>,
    leases: SlotMap<'a, Lease>,
    /// When the last call was, in microseconds.
    last: u64,
}

impl<'a> Drop for Server<'a> {
    fn drop(self) {
        let Server {
            values,
            clients,
            leases,
            last: _,
        } = self;
        let _ = values;
        let _ = clients;
        let _ = leases;
    }
}

impl<'a> Model for Server<'a> {
    ghost use Rattle.lease_server.specs.State.{ServerState};

    ghost Value = { ServerState };

    ghost use Rattle.lease_server.specs.Inside.{state_inside, IsServing};

    ghost view = { state_inside };

    ghost invariant = { IsServing };
}

impl<'a> Server<'a> {
    ghost use Rattle.std.specs.Prelude.{◌≡◌, ◌⊎◌, ◌↔◌, ℕ, ◌+◌, ◌*◌, ◌^◌, ◌<◌, ◌≤◌, ◌≤ℤ◌, ◌<ℤ◌, ℤ, pos, None, Some, true, false, length, IsErr, IfErr, IsOk, MatchOption, slice_index_or, if◌then◌else◌};
    ghost use Rattle.std.specs.Option.{option_map};
    ghost use Rattle.std.specs.Result.{result_err};
    ghost use Rattle.managed.specs.SortedMap.{value_at, IsVacant};
    ghost use Rattle.net_wire.specs.DhcpMessage.{message_of};
    ghost use Rattle.lease_server.specs.Values.{values_of, number_of, first_number, refused};
    ghost use Rattle.lease_server.specs.Holdings.{same_hardware, held_up_to, held_after_reply};
    ghost use Rattle.lease_server.specs.Replies.{is_of_range, lowest_free, reply_to};
    ghost use Rattle.lease_server.specs.State.{Answers, IsFair, Held, hardware_cmp, held_of, holding, is_taken, micros_of, new_server, given};
    ghost use Rattle.lease_server.specs.Messages.{reply_message};
    ghost use Rattle.lease_server.specs.Holders.{CanHold, IsOwner, stores};

    /// The first value that is refused, in the order of `ServerError`.
    pub fn check(values: &ServerValues) -> Result<(), ServerError>
        ensures { result_err result ≡ refused (values_of values.now) }
    {
        match values.refused() {
            Some(error) => Err(error),
            None => Ok(()),
        }
    }

    /// A server that was not called yet. It reads no given lease and no given slot.
    pub fn new(
        values: ServerValues,
        clients: &'a mut [Option<(EthernetAddress, SlotKey)>],
        leases: &'a mut [Lease],
        slots: &'a mut [SlotIndex],
    ) -> Server<'a>
        requires checked { refused (values_of values) ≡ None }
        requires clients { length clients.old ≡ values.count }
        requires leases { length leases.old ≡ values.count }
        requires slots { length slots.old ≡ values.count }
        requires empty { IsVacant clients.old }
        ensures { result ≡ new_server (values_of values) }
    {
        Server {
            values,
            clients: ManagedMap::Borrowed(clients),
            leases: SlotMap::new(
                ManagedSlice::Borrowed(leases),
                ManagedSlice::Borrowed(slots),
            ),
            last: 0,
        }
    }

    /// What lies at the place of a client.
    fn find(&self, client: EthernetAddress) -> Option<Lease>
        ensures { option_map held_of result ≡ value_at hardware_cmp self.now.holders client }
    {
        let Some(key) = self.clients.get(&client).copied() else {
            return None;
        };
        self.leases.get(key).copied()
    }

    /// What a client holds at an instant.
    fn held(&self, at: u64, client: EthernetAddress) -> Option<Ipv4Address>
        ensures { result ≡ holding self.now.holders client at }
    {
        match self.find(client) {
            Some(lease) => {
                if at < micros_of(lease.until) {
                    Some(lease.address)
                } else {
                    None
                }
            }
            None => None,
        }
    }

    /// Which addresses of the range are held at an instant.
    fn taken(&self, at: u64) -> [bool; MOST]
        ensures { (place : ℕ) → place < self.now.values.count
            → slice_index_or result place false ≡ is_taken self.now.holders at (first_number self.now.values + place) }
    {
        let first = number_of(self.values.first);
        let mut taken = [false; MOST];
        for pair in self.clients.iter() {
            if let Some(lease) = self.leases.get(*pair.1) {
                mark(&mut taken, first, at, *lease);
            }
        }
        taken
    }

    /// The lowest address of the range that nobody holds at an instant.
    fn lowest_free(&self, at: u64) -> Option<Ipv4Address>
        ensures { result ≡ lowest_free self.now.values (is_taken self.now.holders at) }
    {
        let taken = self.taken(at);
        first_unmarked(&taken, number_of(self.values.first), self.values.count)
    }

    /// The reply to a message.
    fn reply(&self, at: u64, message: &DhcpRepr<'_>) -> Reply
        ensures { result ≡ reply_to self.now.values (holding self.now.holders message.now.client_hardware_address at)
            (is_taken self.now.holders at) (message_of message.now) }
    {
        let mine = self.held(at, message.client_hardware_address);
        match message.message_type {
            DhcpMessageType::Discover => discover_reply(mine, self.lowest_free(at)),
            DhcpMessageType::Request => self.values.request_reply(mine, message),
            DhcpMessageType::Release => release_reply(mine, message.client_ip),
            _ => Reply::Silent(Silence::Unwanted),
        }
    }

    /// Takes a client out.
    fn evict(&mut self, client: EthernetAddress)
        ensures holds { (other : EthernetAddress) → value_at hardware_cmp self.new.holders other
            ≡ (if same_hardware client other then None else value_at hardware_cmp self.old.holders other) }
        ensures same { self.new.values ≡ self.old.values }
        ensures last { self.new.last ≡ self.old.last }
    {
        let Some(key) = self.clients.get(&client).copied() else {
            return;
        };
        let _ = self.clients.remove(&client);
        let _ = self.leases.discard(key);
    }

    /// Gives a client a place, or its own place another lease.
    fn put(&mut self, lease: Lease)
        requires within { is_of_range self.old.values lease.address ≡ true }
        requires alone { (other : EthernetAddress) → stores self.old.holders other (number_of lease.address) ≡ true → other ≡ lease.client }
        ensures holds { (other : EthernetAddress) → value_at hardware_cmp self.new.holders other
            ≡ (if same_hardware lease.client other then Some (held_of lease) else value_at hardware_cmp self.old.holders other) }
        ensures same { self.new.values ≡ self.old.values }
        ensures last { self.new.last ≡ self.old.last }
    {
        let client = lease.client;
        match self.clients.get(&client).copied() {
            Some(key) => {
                let _ = self.leases.replace(key, lease);
            }
            None => {
                if let Some(key) = self.leases.hand_out() {
                    let _ = self.leases.replace(key, lease);
                    let _ = self.clients.insert(client, key);
                }
            }
        }
    }

    /// Which client has an address, held or not.
    fn owner(&self, address: Ipv4Address) -> Option<EthernetAddress>
        ensures { MatchOption result ((client : EthernetAddress) → stores self.now.holders client (number_of address) ≡ false)
            (IsOwner self.now.holders (number_of address)) }
    {
        for pair in self.clients.iter() {
            if let Some(lease) = self.leases.get(*pair.1) {
                if number_of(lease.address) == number_of(address) {
                    return Some(*pair.0);
                }
            }
        }
        None
    }

    /// Takes another client out that has an address and does not hold it any more.
    fn clear(&mut self, now: u64, client: EthernetAddress, address: Ipv4Address)
        requires { CanHold self.old.values self.old.holders now client address }
        ensures alone { (other : EthernetAddress) → stores self.new.holders other (number_of address) ≡ true → other ≡ client }
        ensures mine { value_at hardware_cmp self.new.holders client ≡ value_at hardware_cmp self.old.holders client }
        ensures holds { (other : EthernetAddress) (at : ℕ) → now ≤ at → holding self.new.holders other at ≡ holding self.old.holders other at }
        ensures same { self.new.values ≡ self.old.values }
        ensures last { self.new.last ≡ self.old.last }
    {
        if let Some(other) = self.owner(address) {
            if !is_same(other, client) {
                self.evict(other);
            }
        }
    }

    /// Gives a client an address for a span, and longer where it holds it longer already.
    fn hold(&mut self, now: u64, client: EthernetAddress, address: Ipv4Address, span: u64)
        requires can { CanHold self.old.values self.old.holders now client address }
        requires small { now + span < 2 ^ 63 }
        ensures holds { (other : EthernetAddress) (at : ℕ) → now ≤ at → holding self.new.holders other at
            ≡ (if same_hardware client other then held_up_to (now + span) address at (holding self.old.holders other at)
            else holding self.old.holders other at) }
        ensures same { self.new.values ≡ self.old.values }
        ensures last { self.new.last ≡ self.old.last }
    {
        let end = now + span;
        let until = match self.find(client) {
            Some(lease) => later(lease, address, end),
            None => instant_at(end),
        };
        self.clear(now, client, address);
        self.put(Lease {
            client,
            address,
            until,
        });
    }

    /// Does to the holdings what a reply says.
    fn change(&mut self, now: u64, client: EthernetAddress, reply: Reply)
        requires small { now < 4294967296000000 }
        requires can { (address : Ipv4Address) → given reply ≡ Some address → CanHold self.old.values self.old.holders now client address }
        ensures holds { (other : EthernetAddress) (at : ℕ) → now ≤ at → holding self.new.holders other at
            ≡ (if same_hardware client other then held_after_reply self.old.values now reply at (holding self.old.holders other at)
            else holding self.old.holders other at) }
        ensures same { self.new.values ≡ self.old.values }
    {
        match reply {
            Reply::Offer(address) => self.hold(now, client, address, OFFER_MICROS),
            Reply::Ack(address) => {
                let span = u64::from(self.values.lease_secs) * 1_000_000;
                self.hold(now, client, address, span);
            }
            Reply::Silent(Silence::Released) => self.evict(client),
            _ => {}
        }
    }

    /// Answers a message that comes at `now`, which is not before the last call's.
    pub fn answer(&mut self, now: Instant, message: &DhcpRepr<'_>) -> Reply
        requires from { pos 0 ≤ℤ now }
        requires within { micros_of now < 4294967296000000 }
        requires later { self.old.last ≤ micros_of now }
        ensures value { Answers (micros_of now) (message_of message.now) result self.old self.new }
        ensures fair { IsFair self.new }
        ensures alone { (address : Ipv4Address) → given result ≡ Some address → (other : EthernetAddress)
            → holding self.new.holders other (micros_of now) ≡ Some address → message.now.client_hardware_address ≡ other }
    {
        let _ = &self.values;
        let at = micros_of(now);
        let reply = self.reply(at, message);
        self.change(at, message.client_hardware_address, reply);
        self.last = at;
        let _ = &self.leases;
        reply
    }

    /// The message of a reply to a request, to be sent to all stations; none for silence.
    pub fn message(&self, request: &DhcpRepr<'_>, reply: &Reply) -> Option<DhcpRepr<'_>>
        ensures { option_map message_of result ≡ reply_message self.now.values (message_of request.now) reply.now }
    {
        match *reply {
            Reply::Offer(address) => {
                Some(
                    self.values
                        .granting(request, DhcpMessageType::Offer, address),
                )
            }
            Reply::Ack(address) => {
                Some(self.values.granting(request, DhcpMessageType::Ack, address))
            }
            Reply::Nak => Some(self.values.refusing(request)),
            Reply::Silent(_) => None,
        }
    }
}
