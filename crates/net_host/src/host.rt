//! A host, and what it does in one event.
ghost use Rattle.std.specs.Prelude.{◌≡◌, ◌<◌, ◌^◌, true, false, List, ◌∷◌, Option, Some, None, replicate, ◌↔◌, IsUtf8, IfOk, OnOk};
ghost use Rattle.std.specs.Result.{IsErrOf};
ghost use Rattle.dns_client.specs.Client.{client_of};
ghost use Rattle.host_model.specs.Neighbor.{told_to};
ghost use Rattle.net_wire.specs.declared.arp.ArpRepr.{ArpRepr};
ghost use Rattle.host_model.specs.Script.{IsArrival, Query};
ghost use Rattle.host_model.specs.Settings.{Settings};
ghost use Rattle.net_host.specs.Crowding.{IsCrowded};
ghost use Rattle.net_host.specs.Hearing.{after_arrival, after_told, IsShortIn};
ghost use Rattle.net_host.specs.Handling.{CanTake};
ghost use Rattle.net_host.specs.Moments.{IsFrom};
ghost use Rattle.net_host.specs.Neighbors.{place_for};
ghost use Rattle.net_host.specs.Polling.{IsReady};
ghost use Rattle.net_host.specs.QueryHearing.{HearsQueries};
ghost use Rattle.net_host.specs.QueryPolling.{AreLent};
ghost use Rattle.net_host.specs.QueryReady.{HoldsQueries};
ghost use Rattle.script_reader.specs.Reading.{arrival_of, event_at};
ghost use Rattle.phy_layers.specs.PcapBytes.{epoch_micros, IsCapturable};

use crate::arrived::{kind_of, note_for};
use crate::clients::{hold, not_asked, poll_dhcp, tell_datagram};
use crate::emitter::Emitter;
use crate::handle_error::HandleError;
use crate::moments::{earlier, state_moment};
use crate::neighbors::Neighbors;
use crate::queries::{end_queries, poll_dns, start};
use crate::{HostConfig, LineList, Row, ScriptEvent, SentList};
use dhcp_client::Socket;
use dns_client::DnsQuery;
use host_model::{EventWords, Held, Neighbor, Outcome, QueryLine};
use managed::ManagedSlice;
use net_wire::arp::arp_of;
use net_wire::dns::DnsType;
use net_wire::{ArpRepr, Context, Instant, Ipv4Address, Ipv4Cidr, NoMemory, Sources, datagram_of};
use std::alloc::Global;

/// A host, between two events. It stands over places for the stations of its link and slots for its queries, which were lent.
#[derive(Debug)]
pub struct Host<'a, 'm> {
    /// The longest IPv4 datagram of the link, in bytes.
    pub(crate) ip_mtu: u16,
    pub(crate) dhcp: Socket<'a>,
    pub(crate) dns: dns_client::Socket<'m>,
    /// How many query events there were.
    pub(crate) queries: u32,
    /// When the last event came; `None` before any.
    pub(crate) last: Option<Instant>,
    pub(crate) out: Emitter<'m>,
}

impl<'a, 'm> Drop for Host<'a, 'm> {
    fn drop(self) {
        let Host {
            ip_mtu: _,
            dhcp,
            dns,
            queries: _,
            last: _,
            out,
        } = self;
        let _ = dhcp;
        let _ = dns;
        let _ = out;
    }
}

/// What an event brings about.
#[derive(Debug, Drop)]
pub(crate) struct Handled {
    /// The address that is leased after the event.
    pub lease: Option<Ipv4Cidr>,
    /// The frames that were sent.
    pub sent: SentList,
    /// What became of queries.
    pub lines: LineList,
}

impl<'a, 'm> Host<'a, 'm> {
    ghost use Rattle.host_model.specs.History.{Entry, last_id};
    ghost use Rattle.net_host.specs.Agreement.{AgreesWithHistory};
    ghost use Rattle.net_host.specs.Config.{CanRun};
    ghost use Rattle.host_model.specs.Anchor.{anchor_before};
    ghost use Rattle.host_model.specs.Lease.{leased_under};
    ghost use Rattle.host_model.specs.Queries.{counted};
    ghost use Rattle.net_host.specs.Handling.{CanMeet, HandlesEvent};
    ghost use Rattle.net_host.specs.Stepping.{GivesRow, Meets};
    ghost use Rattle.net_host.specs.Holding.{host_lease};
    ghost use Rattle.net_host.specs.Moments.{next_moment};
    ghost use Rattle.net_host.specs.Report.{AreCapturable};
    ghost use Rattle.net_host.specs.Neighbors.{HasRoom, pair_count, place_count};
    ghost use Rattle.std.specs.Prelude.{[], ◌+◌, ◌≤◌, length};

    /// A host that has met no event, with a place for each station that it is to know. The places are emptied.
    pub fn new(
        alloc: Global,
        config: &HostConfig<'a>,
        places: &'m mut [Option<(Ipv4Address, Neighbor)>],
        slots: &'m mut [Option<DnsQuery>],
    ) -> Host<'a, 'm>
        requires slots { slots.old ≡ replicate 16 None }
        ensures runs { CanRun config.now }
        ensures agrees { AgreesWithHistory config.now [] result }
        ensures can { CanMeet result }
        ensures queries { result.queries ≡ 0 }
        ensures places { place_count result.out.neighbors ≡ length places.old }
        ensures few { pair_count result.out.neighbors ≡ 0 }
        ensures last { result.last ≡ None }
    {
        let neighbors = Neighbors::new(places);
        Host {
            ip_mtu: config.ip_mtu(),
            dhcp: Socket::with_config(config.client()),
            dns: dns_client::Socket::new(&[], ManagedSlice::Borrowed(slots)),
            queries: 0,
            last: None,
            out: Emitter {
                alloc,
                hardware: config.hardware(),
                held: None,
                neighbors,
                at: 0,
                sent: SentList::new(alloc),
                refused: None,
                numbers: [0; 16],
            },
        }
    }

    /// The id of the DHCP message that was sent last; 1 before any.
    pub fn last_id(&self) -> u32
        ensures { (settings : Settings) (before : List Entry) → AgreesWithHistory settings before self.now
            → result ≡ last_id before }
    {
        self.dhcp.transaction_id()
    }

    /// The leased address and its network's prefix; `None` without a lease.
    pub fn lease(&self) -> Option<Ipv4Cidr>
        ensures value { result ≡ host_lease self.now }
        ensures leased { (settings : Settings) (before : List Entry) → AgreesWithHistory settings before self.now
            → result ≡ leased_under (anchor_before settings before) }
    {
        match self.out.held {
            Some(held) => Some(held.address),
            None => None,
        }
    }

    /// The earliest instant behind the last event's at which time alone brings something about: a message of the DHCP client or
    /// of a query is due, a lease ends, or at T2 a renewal that waits for its hop goes to all servers. What was due by the last
    /// event, and did not find its hop, waits for any event. `None` where there is no such instant.
    pub fn poll_at(&self) -> Option<Instant>
        ensures { (settings : Settings) (before : List Entry) → AgreesWithHistory settings before self.now
            → result ≡ next_moment settings before }
    {
        let state = self.dhcp.state();
        let lease = state_moment(&self.last, &state);
        let queries = self.dns.poll_behind(&self.last);
        earlier(lease, queries)
    }

    /// Takes in an event that comes no earlier than the last one, and gives its row: what arrived, the address that is leased then,
    /// the frames that are sent and what became of queries. Once memory ran out the host can't be used again.
    pub fn handle(
        &mut self,
        at: Instant,
        event: ScriptEvent<'_>,
        words: EventWords,
    ) -> Result<Row, HandleError>
        requires can { CanMeet self.old }
        requires time { IsCapturable at }
        requires order { IsFrom self.old.last at }
        requires arrival { IsArrival (arrival_of event) }
        requires number { self.old.queries < 10000 }
        // For whatever events came before: the row is that of the event, and the host goes on behind it.
        ensures row { IfOk result (GivesRow at event.entry words self.old) }
        ensures agrees { OnOk result (Meets at event.entry words self.old self.new) }
        ensures can { OnOk result (CanMeet self.new) }
        // There is no place, just where the events so far need them all; never while one is free. Then the host is as it was.
        ensures full { (settings : Settings) (before : List Entry) → AgreesWithHistory settings before self.old
            → (IsErrOf result HandleError.Full
            ↔ IsCrowded settings before (event_at at event.entry) (place_count self.old.out.neighbors)) }
        ensures room { IsErrOf result HandleError.Full → HasRoom self.old.out.neighbors → ⊥ }
        ensures err { IsErrOf result HandleError.Full → self.new ≡ self.old }
        // What the next event may rely on.
        ensures last { OnOk result (self.new.last ≡ Some at) }
        ensures queries { OnOk result (self.new.queries ≡ counted (arrival_of event.entry) self.old.queries) }
        ensures places { OnOk result (place_count self.new.out.neighbors ≡ place_count self.old.out.neighbors) }
        ensures few { OnOk result (pair_count self.new.out.neighbors ≤ pair_count self.old.out.neighbors + 1) }
    {
        if !self.has_place(at, event) {
            return Err(HandleError::Full);
        }
        let kind = kind_of(event);
        let note = note_for(event);
        let handled = self.answer(at, event, words)?;
        Ok(Row {
            at,
            kind,
            note,
            lease: handled.lease,
            sent: handled.sent,
            lines: handled.lines,
        })
    }

    /// Whether there is a place for the station that an event tells of, if it tells of one.
    fn has_place(&self, at: Instant, event: ScriptEvent<'_>) -> bool
        requires { IsCapturable at }
        ensures value { result ≡ place_for (told_to self.now.out.hardware (arrival_of event.entry)) (epoch_micros at) self.now.out.neighbors }
        ensures within { (arp : ArpRepr) → told_to self.now.out.hardware (arrival_of event.entry) ≡ Some arp
            → pair_count self.now.out.neighbors ≤ place_count self.now.out.neighbors }
    {
        match event {
            ScriptEvent::Frame(frame) => match arp_of(frame, self.out.hardware) {
                Some(told) => self
                    .out
                    .neighbors
                    .has_place(told.source_protocol_addr, epoch_micros(at)),
                None => true,
            },
            ScriptEvent::Tick | ScriptEvent::Reset | ScriptEvent::Query { .. } => true,
        }
    }

    /// Takes in an event, and gives the address that is leased then and the frames that are sent.
    pub(crate) fn answer(
        &mut self,
        at: Instant,
        event: ScriptEvent<'_>,
        words: EventWords,
    ) -> Result<Handled, NoMemory>
        requires can { CanTake at (arrival_of event) self.old }
        requires time { IsCapturable at }
        requires arrival { IsArrival (arrival_of event) }
        ensures value { IfOk result (HandlesEvent at event.entry words self.old self.new) }
        ensures within { IfOk result (λ handled. AreCapturable handled.sent) }
        ensures ready { OnOk result (IsReady self.new.dhcp self.new.ip_mtu) }
        ensures last { OnOk result (self.new.last ≡ Some at) }
        ensures places { OnOk result (place_count self.new.out.neighbors ≡ place_count self.old.out.neighbors) }
        ensures few { OnOk result (pair_count self.new.out.neighbors ≤ pair_count self.old.out.neighbors + 1) }
        ensures lent { OnOk result (AreLent (client_of self.new.dns)) }
        ensures holds { OnOk result (HoldsQueries self.new) }
        ensures counts { OnOk result (self.new.queries ≡ counted (arrival_of event.entry) self.old.queries) }
        ensures queries { OnOk result (self.new.queries ≤ self.old.queries + 1) }
    {
        self.out.begin(epoch_micros(at));
        let cx = Context {
            now: at,
            hardware_addr: self.out.hardware,
            ip_mtu: self.ip_mtu,
        };
        let refused = self.hear(&cx, event, words)?;
        poll_dhcp(&mut self.dhcp, &cx, words.first, &mut self.out)?;
        let asked = self.out.refused_hop();
        self.out.ask(asked)?;
        self.out.refused = None;
        poll_dns(&mut self.dns, at, &mut self.out)?;
        let address = self.out.refused_hop();
        self.out.ask(not_asked(asked, address))?;
        let mut lines = end_queries(&mut self.dns, &mut self.out)?;
        if let Some(line) = refused {
            lines.put_first(line)?;
        }
        hold(&mut self.dhcp, &mut self.out.held, &mut self.dns);
        let lease = self.lease();
        self.last = Some(at);
        let sent = self.out.take_sent();
        Ok(Handled { lease, sent, lines })
    }

    /// Takes in what an event brings: the neighbour that a frame tells of, and what the clients are told. A frame
    /// that asks for the held address gets its reply. Answers the line of a query that is refused.
    fn hear(
        &mut self,
        cx: &Context,
        event: ScriptEvent<'_>,
        words: EventWords,
    ) -> Result<Option<QueryLine>, NoMemory>
        requires lent { AreLent (client_of self.old.dns) }
        requires few { self.old.queries < 10000 }
        requires place { place_for (told_to self.old.out.hardware (arrival_of event)) self.old.out.at self.old.out.neighbors ≡ true }
        requires arrival { IsArrival (arrival_of event) }
        requires hardware { cx.now.hardware_addr ≡ self.old.out.hardware }
        ensures dhcp { OnOk result (self.new.dhcp ≡ after_arrival cx.entry.now (arrival_of event.entry) self.old.dhcp) }
        ensures short { OnOk result (IsShortIn cx.entry.now (arrival_of event.entry) self.old.dhcp) }
        ensures out { OnOk result (self.new.out
            ≡ record (after_told (told_to self.old.out.hardware (arrival_of event.entry)) self.old.out) {
              numbers = self.new.out.numbers;
            }) }
        ensures queries { IfOk result (λ refused. HearsQueries (arrival_of event.entry) words self.old self.new refused) }
        ensures lent { OnOk result (AreLent (client_of self.new.dns)) }
        ensures mtu { self.new.ip_mtu ≡ self.old.ip_mtu }
        ensures small { OnOk result (AreCapturable self.old.out.sent → AreCapturable self.new.out.sent) }
    {
        match event {
            ScriptEvent::Frame(frame) => {
                let told = arp_of(frame, self.out.hardware);
                self.take_told(told)?;
                let datagram = datagram_of(frame, self.out.hardware, Sources::Unicast);
                tell_datagram(&mut self.dhcp, &mut self.dns, cx, datagram);
                Ok(None)
            }
            ScriptEvent::Tick => Ok(None),
            ScriptEvent::Query { name, query_type } => Ok(self.start(name, query_type, words)),
            ScriptEvent::Reset => {
                self.dhcp.reset();
                Ok(None)
            }
        }
    }

    /// Starts the query of an event, and answers its line, if it is refused.
    fn start(&mut self, name: &[u8], query_type: DnsType, words: EventWords) -> Option<QueryLine>
        requires lent { AreLent (client_of self.old.dns) }
        requires count { self.old.queries < 10000 }
        requires name { IsUtf8 name.now }
        ensures queries { HearsQueries (Query query_type name.now) words self.old self.new result }
        ensures lent { AreLent (client_of self.new.dns) }
        ensures dhcp { self.new.dhcp ≡ self.old.dhcp }
        ensures out { self.new.out ≡ record self.old.out { numbers = self.new.out.numbers } }
        ensures mtu { self.new.ip_mtu ≡ self.old.ip_mtu }
    {
        let number = self.queries;
        self.queries += 1;
        let Ok(name) = str::from_utf8(name) else {
            unreachable!()
        };
        match start(
            &mut self.dns,
            &mut self.out,
            number,
            name,
            query_type,
            words,
        ) {
            Some(error) => Some(QueryLine {
                query: number,
                outcome: Outcome::Refused(error),
            }),
            None => None,
        }
    }

    /// Takes in the ARP packet that a frame brings, where it brings one that counts.
    fn take_told(&mut self, told: Option<ArpRepr>) -> Result<(), NoMemory>
        requires { place_for told self.old.out.at self.old.out.neighbors ≡ true }
        ensures out { OnOk result (self.new.out ≡ after_told told self.old.out) }
        ensures dhcp { self.new.dhcp ≡ self.old.dhcp }
        ensures dns { client_of self.new.dns ≡ client_of self.old.dns }
        ensures queries { self.new.queries ≡ self.old.queries }
        ensures mtu { self.new.ip_mtu ≡ self.old.ip_mtu }
        ensures small { OnOk result (AreCapturable self.old.out.sent → AreCapturable self.new.out.sent) }
    {
        if let Some(told) = told {
            let at = self.out.at;
            self.out.neighbors.learn(&told, at);
            self.out.reply(&told)?;
        }
        Ok(())
    }
}

/// The slots of a host's queries, all free.
pub fn no_queries() -> [Option<DnsQuery>; 16]
    ensures { result ≡ replicate 16 None }
{
    [
        None, None, None, None, None, None, None, None, None, None, None, None, None, None, None,
        None,
    ]
}

/// A moment in microseconds.
fn epoch_micros(at: Instant) -> u64
    requires { IsCapturable at }
    ensures { result ≡ epoch_micros at }
{
    at.total_micros() as u64
}
