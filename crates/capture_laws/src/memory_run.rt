//! A run of a script in memory, and the explanation of its capture.
ghost use Rattle.std.specs.Prelude.{◌≡◌, ℕ, List, IfOk, IfErr};
ghost use Rattle.capture_explain.specs.Capture.{CaptureEntry, IsCaptureFile};
ghost use Rattle.capture_explain.specs.Rows.{AreRowsOf};
ghost use Rattle.capture_explain.specs.declared.error.ExplainError.{ExplainError};
ghost use Rattle.capture_laws.specs.Explained.{IsExplainedRun, IsLimitOrMemory};
ghost use Rattle.capture_laws.specs.declared.memory_run.ExplainedRunError.TheVariants.{Explain};

use capture_explain::{ExplainError, Explanation, explain};
use net_host::{HostConfig, Report, RunError, run};
use net_wire::NoMemory;
use phy_layers::MemorySink;
use script_source::SureSource;
use std::alloc::Global;

/// A run, and what its capture says of it.
#[derive(Debug, Drop)]
pub struct ExplainedRun {
    pub report: Report,
    pub explanation: Explanation,
}

/// Why there is no such run.
#[derive(Clone, Copy, Debug, PartialEq, Eq)]
pub enum ExplainedRunError {
    /// The run stopped; `Sink` where its capture had no room.
    Run(RunError),
    /// Its capture was not explained.
    Explain(ExplainError),
    /// Memory ran out in front of the run.
    NoMemory,
}

impl From<RunError> for ExplainedRunError {
    ghost use Rattle.std.specs.Prelude.{◌≡◌};
    ghost use Rattle.capture_laws.specs.declared.memory_run.ExplainedRunError.TheVariants.{Run};

    ghost from_gives = { λ from error. error ≡ Run from };

    fn from(error: RunError) -> ExplainedRunError {
        ExplainedRunError::Run(error)
    }
}

impl From<ExplainError> for ExplainedRunError {
    ghost use Rattle.std.specs.Prelude.{◌≡◌};
    ghost use Rattle.capture_laws.specs.declared.memory_run.ExplainedRunError.TheVariants.{Explain};

    ghost from_gives = { λ from error. error ≡ Explain from };

    fn from(error: ExplainError) -> ExplainedRunError {
        ExplainedRunError::Explain(error)
    }
}

impl From<NoMemory> for ExplainedRunError {
    ghost use Rattle.std.specs.Prelude.{◌≡◌};
    ghost use Rattle.capture_laws.specs.declared.memory_run.ExplainedRunError.TheVariants as explained;

    ghost from_gives = { λ _ error. error ≡ explained.NoMemory };

    fn from(_: NoMemory) -> ExplainedRunError {
        ExplainedRunError::NoMemory
    }
}

/// Runs a script of at most 1000 events, and explains its capture of at most `room` bytes and 100,000 frames.
pub fn explained_run(
    alloc: Global,
    script: Vec<u8>,
    config: &HostConfig<'_>,
    words: &[u32],
    room: usize,
) -> Result<ExplainedRun, ExplainedRunError>
    ensures explained { IfOk result (λ both.
        IsExplainedRun config.now words.now script.items both.report both.explanation) }
    // What a run captured is a file that is explained.
    ensures accepted { IfErr result (λ e. (error : ExplainError) → e ≡ Explain error → IsLimitOrMemory error) }
{
    // It says that a host can run by the configuration.
    let _hardware = config.hardware();
    let mut report = Report::new(alloc);
    let mut source = SureSource::new(script);
    let mut capture = MemorySink::new(alloc, room, Vec::new(alloc))?;
    run(
        alloc,
        &mut source,
        &mut capture,
        config,
        words,
        1000,
        &mut report,
    )?;
    let explanation = explanation_of(alloc, capture.bytes())?;
    Ok(ExplainedRun {
        report,
        explanation,
    })
}

/// The explanation of a capture in memory of at most 100,000 frames.
fn explanation_of(alloc: Global, capture: &[u8]) -> Result<Explanation, ExplainError>
    ensures explained { IfOk result (λ rows. (entries : List CaptureEntry)
        × IsCaptureFile 100000 capture.now entries × AreRowsOf entries rows) }
    ensures accepted { IfErr result (λ error. (max : ℕ) (entries : List CaptureEntry)
        → IsCaptureFile max capture.now entries → IsLimitOrMemory error) }
{
    let Ok(bytes) = Vec::from_slice(alloc, capture) else {
        return Err(ExplainError::NoMemory);
    };
    let mut source = SureSource::new(bytes);
    let mut explanation = Explanation::new(alloc);
    explain(alloc, &mut source, 100_000, &mut explanation)?;
    Ok(explanation)
}
