//! Callers of `script_source` and `script_reader`.
ghost use Rattle.std.specs.Prelude.{◌≡◌, ℕ, ◌<◌, List, [], ◌++◌, length, IfOk, IfNone, IfSome};
ghost use Rattle.script_reader.specs.ReaderState.{at_start};
ghost use Rattle.uses.specs.Beginning.{BeginsAt};

use net_wire::Instant;
use script_reader::{EventReader, ReadEventError};
use script_source::{SureSource, fill};

/// The first two bytes of some bytes in memory, where there are two.
pub fn first_two(bytes: Vec<u8>) -> Option<[u8; 2]>
    ensures found { IfSome result (λ two. (rest : List ℕ) × (bytes.items ≡ two ++ rest)) }
    ensures short { IfNone result (length bytes.items < 2) }
{
    let mut source = SureSource::new(bytes);
    let mut two = [0u8; 2];
    match fill(&mut source, &mut two) {
        Ok(true) => Some(two),
        Ok(false) | Err(_) => None,
    }
}

/// The time of the first event of a script in memory, read by a reader that has read nothing; none is there only where the script is
/// empty.
pub fn first_time(
    reader: &mut EventReader,
    script: Vec<u8>,
) -> Result<Option<Instant>, ReadEventError>
    requires fresh { reader.old ≡ at_start }
    ensures found { IfOk result (λ time. IfSome time (λ at. BeginsAt script.items at)) }
    ensures empty { IfOk result (λ time. IfNone time (script.items ≡ [])) }
{
    let mut source = SureSource::new(script);
    match reader.next_head(&mut source, 10_000)? {
        Some(head) => Ok(Some(reader.event(head).0)),
        None => Ok(None),
    }
}
