//! Captures made by hand.
ghost use Rattle.std.specs.Prelude.{◌≤◌};

use capture_explain::{ExplainError, Explanation, explain};
use script_source::MemorySource;
use std::alloc::Global;
use std::test::Fail;

/// A header of little-endian microseconds, version 2.4, 262144 bytes, Ethernet.
pub const HEADER: [u8; 24] =
    *b"\xd4\xc3\xb2\xa1\x02\x00\x04\x00\x00\x00\x00\x00\x00\x00\x00\x00\x00\x00\x04\x00\x01\x00\x00\x00";

/// The header and some entries, one behind the other.
pub fn file_of(alloc: Global, entries: &[&[u8]]) -> Result<Vec<u8>, Fail> {
    let mut file = Vec::from_slice(alloc, &HEADER)?;
    for entry in entries {
        file.extend_from_slice(entry)?;
    }
    Ok(file)
}

/// The answer for the first bytes of a file, in pieces of so many bytes, and how many rows it leaves.
pub fn answer(
    alloc: Global,
    file: &[u8],
    chunk: usize,
    fails: &[u64],
    max_frames: u32,
) -> Result<(Result<(), ExplainError>, usize), Fail>
    requires chunk { 1 ≤ chunk }
    requires some { 1 ≤ max_frames }
    requires max { max_frames ≤ 100000 }
{
    let bytes = Vec::from_slice(alloc, file)?;
    let mut source = MemorySource::new(bytes, chunk, Vec::from_slice(alloc, fails)?);
    let mut explanation = Explanation::new(alloc);
    let answer = explain(alloc, &mut source, max_frames, &mut explanation);
    Ok((answer, explanation.rows().len()))
}
