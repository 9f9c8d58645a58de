//! The words of a command.
ghost use Rattle.std.specs.Prelude.{◌≡◌, ℕ, true, false, codes, map, string_bytes, IfSome, IfNone};
ghost use Rattle.host_top.specs.Command.{AreNamed, NameWork, NameLiveWork, CanBeLive, IsHelpWord, IsKeyword, IsTaken, NamesOne};
ghost use Rattle.host_top.specs.RunWords.{WritesRun, IsCountWord};
ghost use Rattle.host_top.specs.MakeWords.{WritesMake};

use crate::capture_command::{CaptureCommand, capture_of};
use crate::disturb_command::{DisturbCommand, disturb_of};
use crate::serve_command::{ServeCommand, serve_of};
use crate::setting::{RunSettings, settings_of};
use crate::show_command::{ShowCommand, show_of};
use crate::word::{address_of, number_of, u32_of};
use net_wire::EthernetAddress;

/// What the program is asked for.
#[derive(Clone, Copy, Debug, PartialEq, Eq)]
pub enum Command {
    Run(RunCommand),
    Make(MakeCommand),
    /// Explain the capture of standard input.
    Explain(CaptureCommand),
    /// Print the capture of standard input.
    Print(CaptureCommand),
    /// Say how the program is used.
    Help,
    Disturb(DisturbCommand),
    Serve(ServeCommand),
    /// Write the script of standard input as a text.
    Show(ShowCommand),
    /// Write the frames of the capture of standard input as a text.
    Frames(ShowCommand),
}

/// Run the host on the script of standard input.
#[derive(Clone, Copy, Debug, PartialEq, Eq)]
pub struct RunCommand {
    pub hardware: EthernetAddress,
    /// The seed of the words of the events.
    pub seed: u32,
    /// The most events that the script may have.
    pub max_events: u32,
    pub settings: RunSettings,
}

/// Make a script, and run the host on that.
#[derive(Clone, Copy, Debug, PartialEq, Eq)]
pub struct MakeCommand {
    /// The seed of the words of the events.
    pub seed: u32,
    /// How many events the script has.
    pub count: u32,
}

impl Command {
    /// Whether its rows can be printed as they come.
    fn can_be_live(self) -> bool
        ensures yes { result ≡ true → CanBeLive self }
        ensures no { result ≡ false → CanBeLive self → ⊥ }
    {
        match self {
            Command::Run(_) | Command::Disturb(_) | Command::Serve(_) => true,
            Command::Make(_) | Command::Explain(_) | Command::Print(_) | Command::Help => false,
            Command::Show(_) | Command::Frames(_) => false,
        }
    }
}

/// A command, and how it is to be done.
#[derive(Clone, Copy, Debug, PartialEq, Eq)]
pub struct Asked {
    pub command: Command,
    /// Whether each row is printed as soon as its event is answered.
    pub is_live: bool,
}

/// What the words ask for.
pub fn parse(words: &[String]) -> Option<Asked>
    ensures found { IfSome result (AreNamed (map string_bytes words.now)) }
    ensures refuses { IfNone result (IsTaken (map string_bytes words.now) → ⊥) }
{
    let [name, behind @ ..] = words else {
        return None;
    };
    if is_live_word(name.as_bytes()) {
        Some(Asked {
            command: live_of(behind)?,
            is_live: true,
        })
    } else {
        Some(Asked {
            command: command_of(words)?,
            is_live: false,
        })
    }
}

fn is_live_word(word: &[u8]) -> bool
    ensures yes { result ≡ true → word.now ≡ codes "live" }
    ensures no { result ≡ false → word.now ≡ codes "live" → ⊥ }
{
    word == b"live".as_slice()
}

/// The command that the words behind `live` name.
fn live_of(words: &[String]) -> Option<Command>
    ensures found { IfSome result (NameLiveWork (map string_bytes words.now)) }
    ensures refuses { IfNone result ((command : Command) → NameLiveWork (map string_bytes words.now) command → ⊥) }
{
    let command = command_of(words)?;
    if command.can_be_live() {
        Some(command)
    } else {
        None
    }
}

/// The command that the words name, without `live`.
fn command_of(words: &[String]) -> Option<Command>
    ensures found { IfSome result (NameWork (map string_bytes words.now)) }
    ensures refuses { IfNone result ((command : Command) → NameWork (map string_bytes words.now) command → ⊥) }
{
    let [name, behind @ ..] = words else {
        return None;
    };
    let keyword = keyword_of(name.as_bytes())?;
    match keyword {
        Keyword::Run => Some(Command::Run(run_of(behind)?)),
        Keyword::Make => Some(Command::Make(make_of(behind)?)),
        Keyword::Explain => Some(Command::Explain(capture_of(behind)?)),
        Keyword::Print => Some(Command::Print(capture_of(behind)?)),
        Keyword::Help => {
            if behind.is_empty() {
                Some(Command::Help)
            } else {
                None
            }
        }
        Keyword::Disturb => Some(Command::Disturb(disturb_of(behind)?)),
        Keyword::Serve => Some(Command::Serve(serve_of(behind)?)),
        Keyword::Show => Some(Command::Show(show_of(behind)?)),
        Keyword::Frames => Some(Command::Frames(show_of(behind)?)),
    }
}

/// What the first word of a command asks for.
#[derive(Clone, Copy, Debug, PartialEq, Eq)]
enum Keyword {
    Run,
    Make,
    Explain,
    Print,
    Help,
    Disturb,
    Serve,
    Show,
    Frames,
}

/// The command that a first word is for.
fn keyword_of(word: &[u8]) -> Option<Keyword>
    ensures found { IfSome result (IsKeyword word.now) }
    ensures refuses { IfNone result ((keyword : Keyword) → IsKeyword word.now keyword → ⊥) }
{
    if word == b"run".as_slice() {
        Some(Keyword::Run)
    } else if word == b"make".as_slice() {
        Some(Keyword::Make)
    } else if word == b"explain".as_slice() {
        Some(Keyword::Explain)
    } else if word == b"print".as_slice() {
        Some(Keyword::Print)
    } else if is_help_word(word) {
        Some(Keyword::Help)
    } else if word == b"disturb".as_slice() {
        Some(Keyword::Disturb)
    } else if word == b"serve".as_slice() {
        Some(Keyword::Serve)
    } else if word == b"show".as_slice() {
        Some(Keyword::Show)
    } else if word == b"frames".as_slice() {
        Some(Keyword::Frames)
    } else {
        None
    }
}

fn is_help_word(word: &[u8]) -> bool
    ensures yes { result ≡ true → IsHelpWord word.now }
    ensures no { result ≡ false → IsHelpWord word.now → ⊥ }
{
    word == b"help".as_slice() || word == b"--help".as_slice() || word == b"-h".as_slice()
}

/// The run that the words behind `run` name.
fn run_of(words: &[String]) -> Option<RunCommand>
    ensures found { IfSome result (WritesRun (map string_bytes words.now)) }
    ensures refuses { IfNone result ((run : RunCommand) → WritesRun (map string_bytes words.now) run → ⊥) }
{
    let [hardware, seed, max_events, settings @ ..] = words else {
        return None;
    };
    Some(RunCommand {
        hardware: address_of(hardware.as_bytes())?,
        seed: u32_of(seed.as_bytes())?,
        max_events: count_of(max_events.as_bytes())?,
        settings: settings_of(settings)?,
    })
}

/// What the words behind `make` name.
fn make_of(words: &[String]) -> Option<MakeCommand>
    ensures found { IfSome result (WritesMake (map string_bytes words.now)) }
    ensures refuses { IfNone result ((make : MakeCommand) → WritesMake (map string_bytes words.now) make → ⊥) }
{
    let [seed, count] = words else {
        return None;
    };
    Some(MakeCommand {
        seed: u32_of(seed.as_bytes())?,
        count: count_of(count.as_bytes())?,
    })
}

/// The number of events that a word writes.
pub(crate) fn count_of(word: &[u8]) -> Option<u32>
    ensures found { IfSome result (IsCountWord word.now) }
    ensures refuses { IfNone result ((count : ℕ) → IsCountWord word.now count → ⊥) }
{
    let number = number_of(word, 10, 5)?;
    if number < 1 || number > 10_000 {
        return None;
    }
    Some(number as u32)
}

/// Words name one command at most.
pub fn one_command()
    ensures { NamesOne }
{}
