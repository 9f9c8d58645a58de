//! How a command ended.
ghost use Rattle.std.specs.Prelude.{◌≡◌};
ghost use Rattle.capture_explain.specs.Text.{Puts};
ghost use Rattle.host_top.specs.Ending.{status_of, status_after, last_line};

use crate::usage::put_usage;
use capture_explain::text::{put, put_number};
use phy_layers::{ByteSink, SinkError};

/// How a command ended, but for faults of the output.
#[derive(Clone, Copy, Debug, PartialEq, Eq)]
pub enum Ending {
    /// All was done.
    Done,
    /// The words name no command.
    Refused,
    /// At this place of the script something begins that is no event that may come next.
    Script(u64),
    /// The script goes on after the most events.
    Limit,
    /// At this place of the capture something begins that is no header or entry.
    Entry(u64),
    /// The capture goes on after the most frames.
    FrameLimit,
    /// The script could not be read.
    Read,
    /// The capture could not be written.
    Capture,
    /// Memory ran out.
    NoMemory,
}

impl Ending {
    /// The status that the program ends with.
    pub fn status(self) -> u8
        ensures { result ≡ status_of self }
    {
        match self {
            Ending::Done => 0,
            Ending::Refused => 1,
            Ending::Script(_) | Ending::Entry(_) => 2,
            Ending::Limit | Ending::FrameLimit => 3,
            Ending::Read => 4,
            Ending::Capture => 5,
            Ending::NoMemory => 7,
        }
    }

    /// The status after what the output answered, which a refusal of the output replaces.
    pub fn status_after(self, answer: Result<(), SinkError>) -> u8
        ensures { result ≡ status_after self answer }
    {
        match answer {
            Ok(()) => self.status(),
            Err(SinkError::Fault) => 6,
            Err(SinkError::NoMemory) => 7,
        }
    }
}

/// How a command ended, and what the output answered.
#[derive(Clone, Copy, Debug, PartialEq, Eq)]
pub struct Finish {
    pub ending: Ending,
    pub answer: Result<(), SinkError>,
}

/// Writes the last line of the output.
pub fn put_last_line<O: ByteSink>(out: &mut O, answer: &mut Result<(), SinkError>, ending: Ending)
    ensures { Puts O.bytes O.faults O.grows answer.old answer.new (last_line ending) out.old out.new }
{
    match ending {
        Ending::Done => put(out, answer, b"done\n"),
        Ending::Refused => put_usage(out, answer),
        Ending::Script(offset) => {
            put(out, answer, b"script error at ");
            put_number(out, answer, offset);
            put(out, answer, b"\n");
        }
        Ending::Limit => put(out, answer, b"event limit reached\n"),
        Ending::Entry(offset) => {
            put(out, answer, b"capture error at ");
            put_number(out, answer, offset);
            put(out, answer, b"\n");
        }
        Ending::FrameLimit => put(out, answer, b"frame limit reached\n"),
        Ending::Read => put(out, answer, b"read fault\n"),
        Ending::Capture => put(out, answer, b"capture fault\n"),
        Ending::NoMemory => put(out, answer, b"no memory\n"),
    }
}
