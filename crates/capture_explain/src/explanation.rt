//! The rows of a capture.
use crate::{AhList, EspPart, PartList};
use ether_link::err::Layer;
use net_wire::NoMemory;
use std::alloc::Global;
use std::marker::Model;

/// A frame of a capture, laid open.
#[derive(Clone, Debug, Drop, PartialEq, Eq)]
pub struct ExplainRow {
    /// The time of the frame: seconds, and microseconds beside them.
    pub secs: u32,
    pub micros: u32,
    /// How many of its bytes were captured.
    pub captured: u32,
    /// How many bytes the frame had, as the entry says.
    pub length: u32,
    /// The parts of the captured bytes, with their places.
    pub parts: PartList,
    /// The layer that stopped the dissection.
    pub stop: Option<Layer>,
    /// Whether both dissectors hold the same headers and the same stop.
    pub agree: bool,
    /// The authentication headers.
    pub ah: AhList,
    /// The header of an encapsulating security payload, where the whole IP packet carries one.
    pub esp: Option<EspPart>,
}

/// The frames of a capture, a row each, in their order.
#[derive(Debug, Drop)]
pub struct Explanation {
    rows: Vec<ExplainRow>,
}

impl Model for Explanation {
    ghost use Rattle.std.specs.Prelude.{List};
    ghost use Rattle.capture_explain.specs.declared.explanation.ExplainRow.{ExplainRow};

    ghost Value = { List ExplainRow };

    ghost view = { λ explanation. explanation.rows.items };
}

impl Explanation {
    ghost use Rattle.std.specs.Prelude.{◌≡◌, [], ◌∷◌, ◌++◌, OnOk, OnErr};

    /// No row. Rows take memory from `alloc`.
    pub fn new(alloc: Global) -> Explanation
        ensures value { result ≡ [] }
    {
        Explanation {
            rows: Vec::new(alloc),
        }
    }

    pub fn rows(&self) -> &[ExplainRow]
        ensures value { result.now ≡ self.now }
    {
        self.rows.as_slice()
    }

    /// Adds the row of the next frame.
    pub(crate) fn push(&mut self, row: ExplainRow) -> Result<(), NoMemory>
        ensures ok { OnOk result (self.new ≡ self.old ++ row ∷ []) }
        ensures err { OnErr result (self.new ≡ self.old) }
    {
        match self.rows.push(row) {
            Ok(()) => Ok(()),
            Err(_) => Err(NoMemory),
        }
    }
}
