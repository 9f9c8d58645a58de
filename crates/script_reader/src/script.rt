//! The events of a script (docs/FORMATS.md), and how the parts of one are read.
ghost use Rattle.std.specs.Prelude.{◌≡◌, ℕ, ◌<◌, ◌≤◌, true, false, List, length, IfOk, IfErr, IfSome, IfNone, OnOk};
ghost use Rattle.std.specs.Result.{IsErrOf};
ghost use Rattle.std.specs.Io.KnownBytes.{Consumes, IsAtEnd};
ghost use Rattle.wire_base.specs.Causes.{IsRisen};
ghost use Rattle.host_model.specs.Script.{SpellsArrival};
ghost use Rattle.host_model.specs.Parts.{IsKind};
ghost use Rattle.script_reader.specs.Head.{byte_of, GivesHead, CutsHead, GivesType, GivesName, CutsName, GivesRest, CutsRest};
ghost use Rattle.script_reader.specs.Reading.{arrival_with};
ghost use Rattle.script_reader.specs.declared.script.EventKind.{EventKind};
ghost use Rattle.script_reader.specs.declared.script.KindByte.TheVariants as kinds;
ghost use Rattle.script_reader.specs.declared.script.ReadEventError.TheVariants.{Script, Limit, Read};

use net_wire::dns::DnsType;
use script_source::{ReadFault, ScriptSource, fill};

/// What an event brings.
#[derive(Clone, Copy, Debug, PartialEq, Eq)]
pub enum ScriptEvent<'a> {
    /// A frame arrived, of at most 65535 bytes.
    Frame(&'a [u8]),
    /// Time passed.
    Tick,
    /// The DHCP client begins anew, without a lease.
    Reset,
    /// The addresses of a name are asked for.
    Query {
        /// At most 255 bytes, in UTF-8 (RFC 3629).
        name: &'a [u8],
        /// A type of addresses: `A` or `Aaaa`.
        query_type: DnsType,
    },
}

/// Why the next event was not read.
#[derive(Clone, Copy, Debug, PartialEq, Eq)]
pub enum ReadEventError {
    /// What begins at this place of the script is no event that may come next.
    Script(u64),
    /// As many events as there may be were read, and a byte follows.
    Limit,
    /// The source failed.
    Read,
}

impl From<ReadFault> for ReadEventError {
    ghost use Rattle.std.specs.Prelude.{◌≡◌};
    ghost use Rattle.script_reader.specs.declared.script.ReadEventError.TheVariants.{Read};

    ghost from_gives = { λ _ e. e ≡ Read };

    fn from(_: ReadFault) -> ReadEventError {
        ReadEventError::Read
    }
}

/// The kinds of events.
#[derive(Clone, Copy, Debug, PartialEq, Eq)]
pub enum EventKind {
    Frame,
    Tick,
    Reset,
    /// With the type of the addresses that are asked for.
    Query(DnsType),
}

/// What is known of an event besides the bytes that it brings.
#[derive(Clone, Copy, Debug, PartialEq, Eq)]
pub struct EventHead {
    pub kind: EventKind,
    /// The time of the event.
    pub micros: u64,
}

/// What the first byte of an event names.
#[derive(Clone, Copy, Debug)]
pub(crate) enum KindByte {
    Frame,
    Tick,
    /// A query for the type `A`.
    Query,
    Reset,
    /// A query whose type stands in front of its name.
    TypedQuery,
}

/// How many bytes stand in front of what an event brings.
pub(crate) const HEAD_LEN: u64 = 9;

/// The kind and the time of an event: what stands in front of what it brings.
#[derive(Clone, Copy, Debug)]
pub(crate) struct HeadParts {
    pub kind: KindByte,
    pub micros: u64,
}

/// What stands behind the head of an event; the bytes of its frame or its name are in a buffer.
#[derive(Clone, Copy, Debug)]
pub(crate) struct RestParts {
    pub kind: EventKind,
    /// How many bytes of the buffer there are.
    pub len: usize,
}

/// Times lie below 2^32 seconds.
const TIME_LIMIT: u64 = 4_294_967_296 * 1_000_000;

/// The kind that a byte names.
fn kind_named(byte: u8) -> Option<KindByte>
    ensures found { IfSome result (λ kind. byte ≡ byte_of kind) }
    ensures refuses { IfNone result (IsKind byte → ⊥) }
{
    match byte {
        1 => Some(KindByte::Frame),
        2 => Some(KindByte::Tick),
        3 => Some(KindByte::Query),
        4 => Some(KindByte::Reset),
        5 => Some(KindByte::TypedQuery),
        _ => None,
    }
}

/// Reads the head of the next event, which may not be before `last_micros`; at the end of input there is
/// none. `offset` is the place of its first byte on the script, and `is_full` says that no event may come any
/// more.
pub(crate) fn read_head<S: ScriptSource>(
    source: &mut S,
    last_micros: u64,
    offset: u64,
    is_full: bool,
) -> Result<Option<HeadParts>, ReadEventError>
    ensures found { IfOk result (λ found. IfSome found (λ head.
        (is_full ≡ false) × GivesHead last_micros (S.left source.old) (S.left source.new) head)) }
    ensures ended { IfOk result (λ found. IfNone found (
        IsAtEnd (S.left source.old) × IsAtEnd (S.left source.new))) }
    ensures err { IfErr result (λ e. CutsHead e last_micros is_full (S.left source.old) (S.left source.new)) }
    ensures script { IfErr result (λ e. (o : ℕ) → e ≡ Script o → (o ≡ offset) × (is_full ≡ false)) }
    ensures limit { IsErrOf result Limit → is_full ≡ true }
    ensures read { IsErrOf result Read → IsRisen (S.faults source.old) (S.faults source.new) }
    ensures quiet { (IsErrOf result Read → ⊥) → S.faults source.new ≡ S.faults source.old }
    ensures later { S.faults source.old ≤ S.faults source.new }
{
    let mut kind = [0u8; 1];
    if !fill(source, &mut kind)? {
        return Ok(None);
    }
    if is_full {
        return Err(ReadEventError::Limit);
    }
    let Some(kind) = kind_named(kind[0]) else {
        return Err(ReadEventError::Script(offset));
    };
    let mut time = [0u8; 8];
    if !fill(source, &mut time)? {
        return Err(ReadEventError::Script(offset));
    }
    let micros = u64::from_be_bytes(time);
    if micros < last_micros || micros >= TIME_LIMIT {
        return Err(ReadEventError::Script(offset));
    }
    Ok(Some(HeadParts { kind, micros }))
}

/// The most bytes that an event brings: those of a frame.
pub(crate) const FRAME_LEN: usize = 65_535;

/// Reads a frame and the length in front of it. The frame goes to the front of `into`. `offset` is the place
/// of the event's first byte on the script.
fn read_frame<S: ScriptSource>(
    source: &mut S,
    offset: u64,
    into: &mut [u8],
) -> Result<RestParts, ReadEventError>
    requires room { length into.old ≡ 65535 }
    ensures found { IfOk result (GivesRest kinds.Frame (S.left source.old) (S.left source.new) into.new) }
    ensures err { IfErr result (λ e. CutsRest e kinds.Frame (S.left source.old) (S.left source.new)) }
    ensures script { IfErr result (λ e. (o : ℕ) → e ≡ Script o → o ≡ offset) }
    ensures read { IsErrOf result Read → IsRisen (S.faults source.old) (S.faults source.new) }
    ensures quiet { (IsErrOf result Read → ⊥) → S.faults source.new ≡ S.faults source.old }
    ensures later { S.faults source.old ≤ S.faults source.new }
{
    let mut len = [0u8; 2];
    if !fill(source, &mut len)? {
        return Err(ReadEventError::Script(offset));
    }
    let len = usize::from(u16::from_be_bytes(len));
    if !fill(source, &mut into[..len])? {
        return Err(ReadEventError::Script(offset));
    }
    Ok(RestParts {
        kind: EventKind::Frame,
        len,
    })
}

/// Reads the type of a query. `offset` is the place of the event's first byte on the script.
fn read_type<S: ScriptSource>(source: &mut S, offset: u64) -> Result<DnsType, ReadEventError>
    ensures found { IfOk result (GivesType (S.left source.old) (S.left source.new)) }
    ensures err { IfErr result (λ e. CutsRest e kinds.TypedQuery (S.left source.old) (S.left source.new)) }
    ensures script { IfErr result (λ e. (o : ℕ) → e ≡ Script o → o ≡ offset) }
    ensures read { IsErrOf result Read → IsRisen (S.faults source.old) (S.faults source.new) }
    ensures quiet { (IsErrOf result Read → ⊥) → S.faults source.new ≡ S.faults source.old }
    ensures later { S.faults source.old ≤ S.faults source.new }
{
    let mut number = [0u8; 2];
    if !fill(source, &mut number)? {
        return Err(ReadEventError::Script(offset));
    }
    match u16::from_be_bytes(number) {
        1 => Ok(DnsType::A),
        28 => Ok(DnsType::Aaaa),
        _ => Err(ReadEventError::Script(offset)),
    }
}

/// Reads a name and the length in front of it. The name goes to the front of `into`; answers its length.
/// `offset` is the place of the event's first byte on the script.
fn read_name<S: ScriptSource>(
    source: &mut S,
    offset: u64,
    into: &mut [u8],
) -> Result<usize, ReadEventError>
    requires room { length into.old ≡ 65535 }
    ensures found { IfOk result (GivesName (S.left source.old) (S.left source.new) into.new) }
    ensures err { IfErr result (λ e. CutsName e (S.left source.old) (S.left source.new)) }
    ensures script { IfErr result (λ e. (o : ℕ) → e ≡ Script o → o ≡ offset) }
    ensures read { IsErrOf result Read → IsRisen (S.faults source.old) (S.faults source.new) }
    ensures quiet { (IsErrOf result Read → ⊥) → S.faults source.new ≡ S.faults source.old }
    ensures later { S.faults source.old ≤ S.faults source.new }
{
    let mut len = [0u8; 1];
    if !fill(source, &mut len)? {
        return Err(ReadEventError::Script(offset));
    }
    let len = usize::from(len[0]);
    if !fill(source, &mut into[..len])? {
        return Err(ReadEventError::Script(offset));
    }
    match std::str::from_utf8(&into[..len]) {
        Ok(_) => Ok(len),
        Err(_) => Err(ReadEventError::Script(offset)),
    }
}

/// Reads what stands behind the head of an event. A frame or a name goes to the front of `into`.
pub(crate) fn read_rest<S: ScriptSource>(
    source: &mut S,
    kind: KindByte,
    offset: u64,
    into: &mut [u8],
) -> Result<RestParts, ReadEventError>
    requires room { length into.old ≡ 65535 }
    ensures found { IfOk result (GivesRest kind (S.left source.old) (S.left source.new) into.new) }
    ensures err { IfErr result (λ e. CutsRest e kind (S.left source.old) (S.left source.new)) }
    ensures script { IfErr result (λ e. (o : ℕ) → e ≡ Script o → o ≡ offset) }
    ensures read { IsErrOf result Read → IsRisen (S.faults source.old) (S.faults source.new) }
    ensures quiet { (IsErrOf result Read → ⊥) → S.faults source.new ≡ S.faults source.old }
    ensures later { S.faults source.old ≤ S.faults source.new }
{
    match kind {
        KindByte::Frame => read_frame(source, offset, into),
        KindByte::Tick => Ok(RestParts {
            kind: EventKind::Tick,
            len: 0,
        }),
        KindByte::Reset => Ok(RestParts {
            kind: EventKind::Reset,
            len: 0,
        }),
        KindByte::Query => {
            let len = read_name(source, offset, into)?;
            Ok(RestParts {
                kind: EventKind::Query(DnsType::A),
                len,
            })
        }
        KindByte::TypedQuery => {
            let query_type = read_type(source, offset)?;
            let len = read_name(source, offset, into)?;
            Ok(RestParts {
                kind: EventKind::Query(query_type),
                len,
            })
        }
    }
}

/// How many bytes stand behind the head of an event, with so many of a frame or a name.
pub(crate) fn rest_len(kind: KindByte, len: usize) -> u64
    requires { len ≤ 65535 }
    ensures value { (event_kind : EventKind) (brought bytes : List ℕ)
        → SpellsArrival (arrival_with event_kind brought) (byte_of kind) bytes
        → length brought ≡ len → result ≡ length bytes }
    ensures within { result ≤ 65538 }
{
    match kind {
        KindByte::Frame => len as u64 + 2,
        KindByte::Tick | KindByte::Reset => 0,
        KindByte::Query => len as u64 + 1,
        KindByte::TypedQuery => len as u64 + 3,
    }
}
