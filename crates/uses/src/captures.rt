//! Callers of `capture_explain`.
ghost use Rattle.std.specs.Prelude.{◌≡◌, ℕ, List, IfErr, IfOk};
ghost use Rattle.capture_explain.specs.Capture.{CaptureEntry, IsCaptureFile, IsBrokenAt};
ghost use Rattle.capture_explain.specs.Rows.{AreRowsOf};
ghost use Rattle.capture_explain.specs.declared.error.ExplainError.TheVariants.{Entry};

use capture_explain::{ExplainError, Explanation, explain};
use script_source::SureSource;
use std::alloc::Global;

/// The rows of a capture in memory of at most 1000 frames. Where it is refused in an entry, it is broken there.
pub fn explained(alloc: Global, capture: Vec<u8>) -> Result<Explanation, ExplainError>
    ensures rows { IfOk result (λ rows. (entries : List CaptureEntry)
        × IsCaptureFile 1000 capture.items entries × AreRowsOf entries rows) }
    ensures broken { IfErr result (λ error. (offset : ℕ) → error ≡ Entry offset
        → IsBrokenAt 1000 capture.items offset) }
{
    let mut source = SureSource::new(capture);
    let mut explanation = Explanation::new(alloc);
    explain(alloc, &mut source, 1000, &mut explanation)?;
    Ok(explanation)
}
