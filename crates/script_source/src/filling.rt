//! Reading until a buffer is full.
ghost use Rattle.std.specs.Prelude.{◌<◌, length};
ghost use Rattle.script_source.specs.Source.{Filled};

use crate::{ReadFault, ScriptSource};

/// Reads until `into` is full, and answers whether it is: if not, the input ended.
pub fn fill<S: ScriptSource>(source: &mut S, into: &mut [u8]) -> Result<bool, ReadFault>
    ensures { Filled S.left S.faults result into.new source.old source.new }
{
    let mut at = 0;
    while at < into.len() {
        let count = source.read(&mut into[at..])?;
        if count == 0 {
            return Ok(false);
        }
        at += count;
    }
    Ok(true)
}
