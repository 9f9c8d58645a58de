//! The events of a script, read one behind the other.
ghost use Rattle.std.specs.Prelude.{◌≡◌, ℕ, List, [], ◌∷◌, pos, ◌<◌, ◌≤◌, true, false, length, take, vec_len, IfOk, IfErr, IfSome, IfNone};
ghost use Rattle.std.specs.Result.{IsErrOf};
ghost use Rattle.wire_base.specs.Causes.{IsRisen};
ghost use Rattle.host_model.specs.Script.{Event, BeginsNoEvent, IsArrival, time_limit};
ghost use Rattle.script_reader.specs.ReaderState.{at_start};
ghost use Rattle.script_reader.specs.Reading.{arrival_with, event_at, event_with, GivesNext, IsThrough, RefusesEvent};
ghost use Rattle.script_reader.specs.declared.script.ReadEventError.TheVariants.{Script, Limit, Read};

use crate::script::{EventHead, EventKind, FRAME_LEN, HEAD_LEN, read_head, read_rest, rest_len};
use crate::{Link, ReadEventError, ScriptEvent};
use net_wire::{Instant, NoMemory};
use script_source::ScriptSource;
use std::alloc::Global;
use std::marker::Model;

/// Reads the events of one script, and knows where it is on it.
#[derive(Debug, Drop)]
pub struct EventReader {
    /// Takes the bytes of a frame or a name: the longest frame has room.
    rest: Vec<u8>,
    /// How many of them the event brought that came last.
    len: usize,
    offset: u64,
    events: u32,
    last_micros: u64,
    max_events: Option<u32>,
    is_through: bool,
}

impl Model for EventReader {
    ghost use Rattle.script_reader.specs.ReaderState.{ReaderState};

    ghost Value = { ReaderState };

    ghost use Rattle.script_reader.specs.EventReader.{state_inside, IsPlacedInside};

    ghost view = { state_inside };

    ghost invariant = { IsPlacedInside };
}

impl EventReader {
    /// A reader that has read nothing. It takes all the memory that it needs.
    pub fn new(alloc: Global) -> Result<EventReader, NoMemory>
        ensures value { IfOk result (λ reader. reader ≡ at_start) }
    {
        let Ok(rest) = vec![in alloc; 0; FRAME_LEN] else {
            return Err(NoMemory);
        };
        Ok(EventReader {
            rest,
            len: 0,
            offset: 0,
            events: 0,
            last_micros: 0,
            max_events: None,
            is_through: false,
        })
    }

    /// Reads the next event of a script that has at most `max_events`, and answers its head; at the end of
    /// input there is none. All calls are told the same number and the same source, from which nothing else
    /// reads in between.
    pub fn next_head<S: ScriptSource>(
        &mut self,
        source: &mut S,
        max_events: u32,
    ) -> Result<Option<EventHead>, ReadEventError>
        requires goes_on { self.old.is_through ≡ false }
        requires limit { IfSome self.old.max_events (λ max. max ≡ max_events) }
        ensures found { IfOk result (λ found. IfSome found (λ head.
            GivesNext max_events self.old self.new (S.left source.old) (S.left source.new)
            (event_with head self.new.brought))) }
        ensures ended { IfOk result (λ found. IfNone found (
            IsThrough max_events self.old self.new (S.left source.old) (S.left source.new))) }
        ensures err { IfErr result (
            RefusesEvent max_events self.old self.new (S.left source.old) (S.left source.new)) }
        // Why no event comes.
        ensures script { IfErr result (λ e. (o : ℕ) → e ≡ Script o
            → (o ≡ self.old.offset) × (self.old.events < max_events)
            × IfSome (S.left source.old) (λ bytes. (0 < length bytes) × BeginsNoEvent self.old.last bytes)) }
        ensures limit { IsErrOf result Limit → (max_events ≤ self.old.events)
            × IfSome (S.left source.old) (λ bytes. 0 < length bytes) }
        ensures read { IsErrOf result Read → IsRisen (S.faults source.old) (S.faults source.new) }
        ensures quiet { (IsErrOf result Read → ⊥) → S.faults source.new ≡ S.faults source.old }
        ensures later { S.faults source.old ≤ S.faults source.new }
    {
        self.max_events = Some(max_events);
        self.is_through = true;
        self.len = 0;
        let is_full = self.events >= max_events;
        let Some(head) = read_head(source, self.last_micros, self.offset, is_full)? else {
            return Ok(None);
        };
        let rest = read_rest(source, head.kind, self.offset, self.rest.as_mut_slice())?;
        self.is_through = false;
        self.len = rest.len;
        self.offset += HEAD_LEN + rest_len(head.kind, rest.len);
        self.events += 1;
        self.last_micros = head.micros;
        Ok(Some(EventHead {
            kind: rest.kind,
            micros: head.micros,
        }))
    }

    /// Lets a link make of the event whose head was read last the one that is met: answers its head, and keeps its bytes.
    pub fn pass<L: Link>(&mut self, last_id: u32, head: EventHead, link: &mut L) -> EventHead
        requires time { head.micros < time_limit }
        requires arrival { IsArrival (arrival_with head.kind self.old.brought) }
        ensures passes { (told : List Event → ℕ) → told [] ≡ last_id → (more : List Event)
            → L.makes link.old told (event_with head self.old.brought ∷ more)
            ≡ event_with result self.new.brought
            ∷ L.makes link.new (λ met. told (event_with result self.new.brought ∷ met)) more }
        ensures time { result.micros ≡ head.micros }
        ensures arrival { IsArrival (arrival_with result.kind self.new.brought) }
        ensures stays { self.new ≡ record self.old { brought = self.new.brought } }
    {
        let len = self.len;
        meet_front(link, last_id, head, self.rest.as_mut_slice(), len)
    }

    /// The event whose head was read last, with its time. It borrows the frame or the name from the reader.
    pub fn event(&self, head: EventHead) -> (Instant, ScriptEvent<'_>)
        requires { head.micros < time_limit }
        ensures event { event_at result.0 result.1 ≡ event_with head self.now.brought }
        ensures time { result.0 ≡ pos head.micros }
    {
        let event = match head.kind {
            EventKind::Frame => ScriptEvent::Frame(&self.rest.as_slice()[..self.len]),
            EventKind::Tick => ScriptEvent::Tick,
            EventKind::Reset => ScriptEvent::Reset,
            EventKind::Query(query_type) => ScriptEvent::Query {
                name: &self.rest.as_slice()[..self.len],
                query_type,
            },
        };
        (Instant::from_micros(head.micros as i64), event)
    }
}

/// Meets an event whose bytes stand at the front of a buffer.
fn meet_front<L: Link>(
    link: &mut L,
    last_id: u32,
    head: EventHead,
    buffer: &mut [u8],
    len: usize,
) -> EventHead
    requires within { len ≤ length buffer.old }
    requires time { head.micros < time_limit }
    requires arrival { IsArrival (arrival_with head.kind (take len buffer.old)) }
    ensures passes { (told : List Event → ℕ) → told [] ≡ last_id → (more : List Event)
        → L.makes link.old told (event_with head (take len buffer.old) ∷ more)
        ≡ event_with result (take len buffer.new)
        ∷ L.makes link.new (λ met. told (event_with result (take len buffer.new) ∷ met)) more }
    ensures time { result.micros ≡ head.micros }
    ensures arrival { IsArrival (arrival_with result.kind (take len buffer.new)) }
{
    link.meet(last_id, head, &mut buffer[..len])
}
