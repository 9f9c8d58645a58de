//! Words that are taken, and words that are refused.
use crate::calls::{FILE_HEADER, run_words, strings_of};
use host_top::command::{Asked, Command, parse};
use std::alloc::{AllocError, Global};
use std::test::Fail;

/// Words that name no command.
const COMMANDS: [&[&str]; 61] = [
    &[],
    &["run"],
    &["run", "020202020202", "1"],
    &["run", "010202020202", "1", "10"],
    &["run", "0202020202", "1", "10"],
    &["run", "02020202020g", "1", "10"],
    &["run", "020202020202", "4294967296", "10"],
    &["run", "020202020202", "+1", "10"],
    &["run", "020202020202", "1", "0"],
    &["run", "mtu=576", "020202020202", "1", "10"],
    &["make"],
    &["make", "1"],
    &["make", "1", "0"],
    &["make", "1", "10001"],
    &["make", "4294967296", "1"],
    &["make", "1", "1", "mtu=576"],
    &["make", "020202020202", "1", "10"],
    &["Make", "1", "1"],
    &["help", "run"],
    &["--help", "--help"],
    &["-help"],
    &["disturb", "020202020202", "1", "10", "7", "100"],
    &[
        "disturb",
        "020202020202",
        "1",
        "10",
        "7",
        "100",
        "0",
        "mtu=576",
    ],
    &["disturb", "020202020202", "1", "10", "7", "101", "0"],
    &["disturb", "020202020202", "1", "10", "7", "0", "0000"],
    &["explain"],
    &["explain", "0"],
    &["explain", "100001"],
    &["explain", "0000001"],
    &["explain", "1", "1"],
    &["live", "explain", "1"],
    &["print"],
    &["print", "100001"],
    &["live", "print", "1"],
    &["show"],
    &["show", "0"],
    &["show", "10001"],
    &["show", "1", "1"],
    &["live", "show", "1"],
    &["frames"],
    &["frames", "10001"],
    &["live", "frames", "1"],
    &[
        "serve",
        "020000000001",
        "192.168.1.1",
        "192.168.1.42",
        "1",
        "24",
        "1000",
    ],
    &[
        "serve",
        "030000000001",
        "192.168.1.1",
        "192.168.1.42",
        "1",
        "24",
        "1000",
        "10",
    ],
    &[
        "serve",
        "020000000001",
        "192.168.1",
        "192.168.1.42",
        "1",
        "24",
        "1000",
        "10",
    ],
    &[
        "serve",
        "020000000001",
        "192.168.1.1",
        "192.168.1.42.1",
        "1",
        "24",
        "1000",
        "10",
    ],
    &[
        "serve",
        "020000000001",
        "192.168.1.256",
        "192.168.1.42",
        "1",
        "24",
        "1000",
        "10",
    ],
    &[
        "serve",
        "020000000001",
        "192.168..1",
        "192.168.1.42",
        "1",
        "24",
        "1000",
        "10",
    ],
    &[
        "serve",
        "020000000001",
        "192.168.1.1",
        "192.168.1.0042",
        "1",
        "24",
        "1000",
        "10",
    ],
    &[
        "serve",
        "020000000001",
        "192.168.1.1",
        "192.168.1.42",
        "0",
        "24",
        "1000",
        "10",
    ],
    &[
        "serve",
        "020000000001",
        "192.168.1.1",
        "192.168.1.42",
        "1001",
        "16",
        "1000",
        "10",
    ],
    &[
        "serve",
        "020000000001",
        "192.168.1.1",
        "192.168.1.42",
        "1",
        "31",
        "1000",
        "10",
    ],
    &[
        "serve",
        "020000000001",
        "192.168.1.1",
        "192.168.1.42",
        "1",
        "24",
        "0",
        "10",
    ],
    &[
        "serve",
        "020000000001",
        "192.168.1.1",
        "192.168.1.42",
        "1",
        "24",
        "1000",
        "10001",
    ],
    &[
        "serve",
        "020000000001",
        "192.168.1.1",
        "192.168.1.1",
        "1",
        "24",
        "1000",
        "10",
    ],
    &[
        "serve",
        "020000000001",
        "192.168.1.1",
        "192.168.2.42",
        "1",
        "24",
        "1000",
        "10",
    ],
    &["live"],
    &["live", "make", "1", "1"],
    &["live", "help"],
    &["live", "live", "run", "020202020202", "1", "10"],
    &["run", "live", "020202020202", "1", "10"],
];

/// The words of a run of at most ten events.
const RUN: [&str; 4] = ["run", "020202020202", "1", "10"];

/// Words that are no settings behind them.
const SETTINGS: [&[&str]; 19] = [
    &["mtu=575"],
    &["mtu=1501"],
    &["mtu="],
    &["mtu=00576"],
    &["mtu=576 "],
    &["mtu"],
    &["MTU=576"],
    &["lease=4294967296"],
    &["lease=00000000001"],
    &["lease="],
    &["lease=-1"],
    &["naks=Ignore"],
    &["naks="],
    &["ttl=64"],
    &[""],
    &["10"],
    &["naks=ignore", "naks=obey"],
    &["mtu=600", "mtu=600"],
    &["lease=1", "mtu=600", "naks=obey", "lease=1"],
];

const USAGE: &[u8] = b"usage: run HW SEED MAX [mtu=N] [lease=N] [naks=ignore|obey]
       make SEED COUNT
       explain MAX
       print MAX
       disturb HW SEED MAX FSEED DROP CORRUPT
       serve HW ADDR FIRST COUNT PREFIX LEASE MAX
       show MAX
       frames MAX
       live COMMAND ...
       help
";

/// Whether the words have status 1, with the usage text, and leave nothing else.
fn is_refused(alloc: Global, words: &[&str], settings: &[&str]) -> Result<bool, AllocError> {
    let ran = run_words(alloc, words, settings, b"\x02")?;
    let has_usage = ran.printed.as_slice() == USAGE;
    let has_rows = ran.report.rows().len() > 0;
    Ok(ran.status == 1 && has_usage && ran.captured.is_empty() && !has_rows)
}

#[test]
fn words_that_name_no_command_are_refused(rt: HostRuntime) -> Result<(), Fail> {
    for (number, words) in COMMANDS.iter().enumerate() {
        assert!(rt; is_refused(rt.alloc(), words, &[])?, "words {number}");
    }
    for (number, settings) in SETTINGS.iter().enumerate() {
        assert!(rt;
            is_refused(rt.alloc(), &RUN, settings)?,
            "settings {number}"
        );
    }
    Ok(())
}

/// Settings, and what they say: of the MTU, of the longest lease in seconds, and whether refusals are ignored.
type Taken = (
    &'static [&'static str],
    (Option<u16>, Option<u32>, Option<bool>),
);

const ALL: (Option<u16>, Option<u32>, Option<bool>) = (
    Some(1500),
    Some(4_294_967_295),
    Some(false),
);

const TAKEN: [Taken; 12] = [
    (&[], (None, None, None)),
    (&["mtu=0576"], (Some(576), None, None)),
    (&["mtu=576"], (Some(576), None, None)),
    (&["lease=0000000000"], (None, Some(0), None)),
    (&["naks=ignore"], (None, None, Some(true))),
    (&["naks=obey"], (None, None, Some(false))),
    (&["mtu=1500", "lease=4294967295", "naks=obey"], ALL),
    (&["mtu=1500", "naks=obey", "lease=4294967295"], ALL),
    (&["lease=4294967295", "mtu=1500", "naks=obey"], ALL),
    (&["lease=4294967295", "naks=obey", "mtu=1500"], ALL),
    (&["naks=obey", "mtu=1500", "lease=4294967295"], ALL),
    (&["naks=obey", "lease=4294967295", "mtu=1500"], ALL),
];

/// Whether the words are taken, and a run of them is done.
fn is_taken(alloc: Global, words: &[&str], (settings, want): Taken) -> Result<bool, AllocError> {
    let args = strings_of(alloc, words, settings)?;
    let says = match parse(args.as_slice()) {
        Some(
            Asked {
                command: Command::Run(run),
                is_live: false,
            },
        ) => {
            let said = run.settings;
            (said.ip_mtu, said.max_lease_secs, said.ignore_naks) == want
        }
        _ => false,
    };
    let ran = run_words(alloc, words, settings, b"")?;
    let is_done = ran.status == 0 && ran.printed.as_slice() == b"done\n".as_slice();
    Ok(says && is_done && ran.captured.as_slice() == FILE_HEADER)
}

#[test]
fn settings_are_taken_in_any_order(rt: HostRuntime) -> Result<(), Fail> {
    for (number, taken) in TAKEN.iter().enumerate() {
        assert!(rt; is_taken(rt.alloc(), &RUN, *taken)?, "settings {number}");
    }
    // Either case, and leading zeros.
    let words = ["run", "02ABcdef0202", "0000000001", "00010"];
    assert!(rt; is_taken(rt.alloc(), &words, TAKEN[0])?);
    Ok(())
}

const TOLD: [(&[&str], &[u8]); 3] = [
    (&[], b"\x05\x98"),
    (&["mtu=0576"], b"\x01\xfc"),
    (&["lease=60", "mtu=1280"], b"\x04\xbc"),
];

#[test]
fn servers_are_told_the_mtu(rt: HostRuntime) -> Result<(), Fail> {
    // The value of option 57 in the first frame, the MTU less 68: behind the headers of the file and the record, 42
    // bytes of Ethernet, IPv4 and UDP, 240 bytes of the message, the options 53 and 61, and its own kind and length.
    let at = 24 + 16 + 42 + 240 + 3 + 9 + 2;
    for (settings, told) in TOLD {
        let ran = run_words(rt.alloc(), &RUN, settings, b"\x02\0\0\0\0\0\0\0\0")?;
        assert!(rt; ran.status == 0 && ran.captured.as_slice().get(at..at + 2) == Some(told));
    }
    Ok(())
}

/// Whether the word alone has the usage text printed, and more behind it, and leaves nothing else.
fn is_help(alloc: Global, word: &str) -> Result<bool, AllocError> {
    let ran = run_words(alloc, &[word], &[], b"\x02")?;
    let has_usage = ran.printed.as_slice().starts_with(USAGE);
    let has_rows = ran.report.rows().len() > 0;
    Ok(ran.status == 0 && has_usage && ran.captured.is_empty() && !has_rows)
}

#[test]
fn help_is_printed_and_nothing_is_read(rt: HostRuntime) -> Result<(), Fail> {
    for word in ["help", "--help", "-h"] {
        assert!(rt; is_help(rt.alloc(), word)?, "{word}");
    }
    Ok(())
}
