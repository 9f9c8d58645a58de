//! Callers of `script_text`.
ghost use Rattle.std.specs.Prelude.{◌≡◌, ℕ, List, IfErr, IfOk};
ghost use Rattle.host_model.specs.Classes.{IsScript, IsBrokenAt};
ghost use Rattle.host_model.specs.Script.{Event};
ghost use Rattle.script_text.specs.EventText.{events_text};
ghost use Rattle.script_text.specs.Meaning.{IsRight};
ghost use Rattle.script_text.specs.declared.showing.ShowError.TheVariants.{Script};

use phy_layers::SureSink;
use script_source::SureSource;
use script_text::{ShowError, show};
use std::alloc::Global;

/// The text of a script in memory of at most 1000 events, which is right and has these events. Where it is refused at an
/// event, it is broken there.
pub fn shown(alloc: Global, script: Vec<u8>) -> Result<SureSink, ShowError>
    ensures text { IfOk result (λ text. (events : List Event)
        × IsScript 1000 script.items events × (text ≡ events_text events) × IsRight 1000 text events) }
    ensures broken { IfErr result (λ error. (offset : ℕ) → error ≡ Script offset
        → IsBrokenAt 1000 script.items offset) }
{
    let mut source = SureSource::new(script);
    let mut text = SureSink::new(alloc);
    let mut written = Ok(());
    show(alloc, &mut source, 1000, &mut text, &mut written)?;
    match written {
        Ok(()) => Ok(text),
        Err(_) => Err(ShowError::NoMemory),
    }
}
