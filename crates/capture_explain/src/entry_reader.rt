//! The parts of a capture file, read one behind the other (draft-ietf-opsawg-pcap, sections 4 and 5).
ghost use Rattle.std.specs.Prelude.{◌≡◌, ℕ, ◌∷◌, ◌↔◌, ◌<◌, ◌≤◌, IsTrue, true, false, length, IfOk, IfErr, IfSome, IfNone, OnOk};
ghost use Rattle.std.specs.Result.{IsErrOf};
ghost use Rattle.std.specs.Io.KnownBytes.{IsAtEnd};
ghost use Rattle.wire_base.specs.Causes.{IsRisen};
ghost use Rattle.phy_layers.specs.PcapBytes.{snap_len};
ghost use Rattle.capture_explain.specs.Capture.{IsHeader};
ghost use Rattle.capture_explain.specs.Reading.{head_bytes, GivesHeader, CutsHeader, GivesNumbers, GivesEntry, CutsEntry};
ghost use Rattle.capture_explain.specs.declared.error.ExplainError.TheVariants.{Entry, Limit, Read};

use crate::ExplainError;
use net_wire::NoMemory;
use script_source::{ScriptSource, fill};
use std::alloc::Global;
use wire_base::number::read_array;

/// The bytes of the header of a file.
const HEADER_LEN: usize = 24;

/// What a header begins with: the magic number of times in microseconds, and version 2.4.
const HEADER_FRONT: [u8; 8] = [0xd4, 0xc3, 0xb2, 0xa1, 2, 0, 4, 0];

/// What it ends with: the link type of Ethernet.
const HEADER_END: [u8; 4] = [1, 0, 0, 0];

/// The bytes in front of a frame.
const HEAD_LEN: usize = 16;

/// The most bytes of a frame that are captured.
pub const FRAME_LEN: usize = 262_144;

/// The four numbers in front of a frame.
#[derive(Clone, Copy, Debug)]
pub struct EntryHead {
    /// The time of the frame: seconds, and microseconds beside them.
    pub secs: u32,
    pub micros: u32,
    /// How many of its bytes were captured.
    pub captured: u32,
    /// How many bytes the frame had, as the entry says.
    pub length: u32,
}

/// A buffer that any frame has room in.
pub(crate) fn frame_room(alloc: Global) -> Result<Vec<u8>, NoMemory>
    ensures { IfOk result (λ room. length room.items ≡ 262144) }
{
    match vec![in alloc; 0; FRAME_LEN] {
        Ok(room) => Ok(room),
        Err(_) => Err(NoMemory),
    }
}

/// Both are the same bytes.
fn same_bytes(some: &[u8], others: &[u8]) -> bool
    ensures { IsTrue result ↔ (some.now ≡ others.now) }
{
    some == others
}

/// The bytes are the header of a file of Ethernet frames.
fn is_header(bytes: &[u8]) -> bool
    requires { length bytes.now ≡ 24 }
    ensures yes { result ≡ true → IsHeader bytes.now }
    ensures no { result ≡ false → IsHeader bytes.now → ⊥ }
{
    same_bytes(&bytes[..8], &HEADER_FRONT) && same_bytes(&bytes[20..], &HEADER_END)
}

/// Reads the header of a file.
pub fn read_header<S: ScriptSource>(source: &mut S) -> Result<(), ExplainError>
    ensures ok { OnOk result (GivesHeader (S.left source.old) (S.left source.new)) }
    ensures err { IfErr result (λ e. CutsHeader e (S.left source.old) (S.left source.new)) }
    ensures read { IsErrOf result Read → IsRisen (S.faults source.old) (S.faults source.new) }
    ensures quiet { (IsErrOf result Read → ⊥) → S.faults source.new ≡ S.faults source.old }
    ensures later { S.faults source.old ≤ S.faults source.new }
{
    let mut header = [0u8; HEADER_LEN];
    if !fill(source, &mut header)? {
        return Err(ExplainError::Header);
    }
    if !is_header(&header) {
        return Err(ExplainError::Header);
    }
    Ok(())
}

/// The numbers that stand in front of a frame, in their first byte and the rest.
fn numbers_of(first: u8, rest: &[u8]) -> EntryHead
    requires { length rest.now ≡ 15 }
    ensures { first ∷ rest.now ≡ head_bytes result }
{
    EntryHead {
        secs: u32::from_le_bytes([first, rest[0], rest[1], rest[2]]),
        micros: u32::from_le_bytes(read_array(rest, 3)),
        captured: u32::from_le_bytes(read_array(rest, 7)),
        length: u32::from_le_bytes(read_array(rest, 11)),
    }
}

/// Reads the numbers of the next entry; at the end of input there is none. `offset` is the place of its first
/// byte in the file, and `is_full` says that no entry may come any more.
fn read_numbers<S: ScriptSource>(
    source: &mut S,
    is_full: bool,
    offset: u64,
) -> Result<Option<EntryHead>, ExplainError>
    ensures found { IfOk result (λ found. IfSome found (λ head.
        (is_full ≡ false) × GivesNumbers (S.left source.old) (S.left source.new) head)) }
    ensures ended { IfOk result (λ found. IfNone found (
        IsAtEnd (S.left source.old) × IsAtEnd (S.left source.new))) }
    ensures err { IfErr result (λ e. CutsEntry e is_full (S.left source.old) (S.left source.new)) }
    ensures entry { IfErr result (λ e. (o : ℕ) → e ≡ Entry o → (o ≡ offset) × (is_full ≡ false)) }
    ensures limit { IsErrOf result Limit → is_full ≡ true }
    ensures read { IsErrOf result Read → IsRisen (S.faults source.old) (S.faults source.new) }
    ensures quiet { (IsErrOf result Read → ⊥) → S.faults source.new ≡ S.faults source.old }
    ensures later { S.faults source.old ≤ S.faults source.new }
{
    let mut first = [0u8; 1];
    if !fill(source, &mut first)? {
        return Ok(None);
    }
    if is_full {
        return Err(ExplainError::Limit);
    }
    let mut rest = [0u8; HEAD_LEN - 1];
    if !fill(source, &mut rest)? {
        return Err(ExplainError::Entry(offset));
    }
    let numbers = numbers_of(first[0], &rest);
    if numbers.captured as usize > FRAME_LEN {
        return Err(ExplainError::Entry(offset));
    }
    Ok(Some(numbers))
}

/// Reads the next entry, its frame to the front of `frame`; at the end of input there is none. `offset` is
/// the place of its first byte in the file, and `is_full` says that no entry may come any more.
pub fn read_entry<S: ScriptSource>(
    source: &mut S,
    is_full: bool,
    offset: u64,
    frame: &mut [u8],
) -> Result<Option<EntryHead>, ExplainError>
    requires room { length frame.old ≡ snap_len }
    ensures found { IfOk result (λ found. IfSome found (λ head.
        (is_full ≡ false) × GivesEntry (S.left source.old) (S.left source.new) frame.new head)) }
    ensures ended { IfOk result (λ found. IfNone found (
        IsAtEnd (S.left source.old) × IsAtEnd (S.left source.new))) }
    ensures err { IfErr result (λ e. CutsEntry e is_full (S.left source.old) (S.left source.new)) }
    ensures entry { IfErr result (λ e. (o : ℕ) → e ≡ Entry o → (o ≡ offset) × (is_full ≡ false)) }
    ensures limit { IsErrOf result Limit → is_full ≡ true }
    ensures read { IsErrOf result Read → IsRisen (S.faults source.old) (S.faults source.new) }
    ensures quiet { (IsErrOf result Read → ⊥) → S.faults source.new ≡ S.faults source.old }
    ensures later { S.faults source.old ≤ S.faults source.new }
{
    let Some(head) = read_numbers(source, is_full, offset)? else {
        return Ok(None);
    };
    if !fill(source, &mut frame[..head.captured as usize])? {
        return Err(ExplainError::Entry(offset));
    }
    Ok(Some(head))
}
