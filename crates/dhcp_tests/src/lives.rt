//! Lives of clients, step by step.
ghost use Rattle.std.specs.Prelude.{◌≡◌};
ghost use Rattle.dhcp_client.specs.Config.{AreSettingsWritable};

use crate::clients::{Recorder, SERVER, at, reply};
use dhcp_client::Socket;
use net_wire::{EmitError, Ipv4Address};
use wire_base::number::append;

/// What comes to a client.
#[derive(Clone, Copy)]
enum Input {
    /// It is dispatched, with this word; the emitter takes its message.
    Taken(u32),
    /// The same, where the emitter refuses its message.
    Refused(u32),
    /// The same, where the emitter would refuse a message, and there is none.
    Silent(u32),
    /// A message of the server of this type, with this id, and a lease of so many seconds.
    Heard(u8, u32, u32),
}

/// How a client stands: its due in microseconds, and how many messages were taken; the id of the last one,
/// its length, and where it went.
type Standing = (i64, u32, u32, usize, Ipv4Address);

/// When what comes, in microseconds, and how the client stands then.
#[derive(Clone, Copy)]
struct Step(i64, Input, Standing);

/// Whether refusals of servers are ignored, and the steps.
type Life = (bool, &'static [Step]);

const NONE: Ipv4Address = Ipv4Address([0; 4]);

const ALL: Ipv4Address = Ipv4Address([255; 4]);

const LIVES: [Life; 9] = [
    // A discover is sent again after ten seconds.
    (
        false,
        &[
            Step(0, Input::Taken(7), (10_000_000, 1, 7, 262, ALL)),
            Step(9_999_999, Input::Taken(8), (10_000_000, 1, 7, 262, ALL)),
            Step(10_000_000, Input::Taken(9), (20_000_000, 2, 9, 262, ALL)),
        ],
    ),
    // One that is refused stays due.
    (false, &[Step(3, Input::Refused(7), (0, 0, 0, 0, NONE))]),
    // Requests are repeated and given up.
    (
        false,
        &[
            Step(0, Input::Heard(2, 1, 1000), (0, 0, 0, 0, NONE)),
            Step(0, Input::Taken(9), (5_000_000, 1, 1, 274, ALL)),
            Step(5_000_000, Input::Taken(9), (10_000_000, 2, 1, 274, ALL)),
            Step(10_000_000, Input::Taken(9), (20_000_000, 3, 1, 274, ALL)),
            Step(20_000_000, Input::Taken(9), (30_000_000, 4, 1, 274, ALL)),
            Step(30_000_000, Input::Taken(9), (50_000_000, 5, 1, 274, ALL)),
            Step(50_000_000, Input::Taken(9), (0, 5, 1, 274, ALL)),
            Step(50_000_000, Input::Taken(9), (60_000_000, 6, 9, 262, ALL)),
        ],
    ),
    // A lease is renewed, and ends.
    (
        false,
        &[
            Step(0, Input::Heard(2, 1, 1000), (0, 0, 0, 0, NONE)),
            Step(0, Input::Heard(5, 2, 1000), (0, 0, 0, 0, NONE)),
            Step(0, Input::Heard(5, 1, 1000), (500_000_000, 0, 0, 0, NONE)),
            Step(
                500_000_000,
                Input::Taken(9),
                (687_500_000, 1, 9, 262, SERVER),
            ),
            Step(
                687_500_000,
                Input::Taken(9),
                (781_250_000, 2, 9, 262, SERVER),
            ),
            Step(
                781_250_000,
                Input::Taken(9),
                (841_250_000, 3, 9, 262, SERVER),
            ),
            Step(
                841_250_000,
                Input::Taken(9),
                (875_000_000, 4, 9, 262, SERVER),
            ),
            Step(875_000_000, Input::Taken(9), (937_500_000, 5, 9, 262, ALL)),
            Step(937_500_000, Input::Taken(9), (997_500_000, 6, 9, 262, ALL)),
            Step(
                997_500_000,
                Input::Taken(9),
                (1_000_000_000, 7, 9, 262, ALL),
            ),
            Step(1_000_000_000, Input::Taken(9), (0, 7, 9, 262, ALL)),
        ],
    ),
    // A refusal of the server ends a lease, unless it is ignored.
    (
        false,
        &[
            Step(0, Input::Heard(2, 1, 1000), (0, 0, 0, 0, NONE)),
            Step(0, Input::Heard(5, 1, 1000), (500_000_000, 0, 0, 0, NONE)),
            Step(1, Input::Heard(6, 1, 1000), (0, 0, 0, 0, NONE)),
        ],
    ),
    (
        true,
        &[
            Step(0, Input::Heard(2, 1, 1000), (0, 0, 0, 0, NONE)),
            Step(0, Input::Heard(5, 1, 1000), (500_000_000, 0, 0, 0, NONE)),
            Step(1, Input::Heard(6, 1, 1000), (500_000_000, 0, 0, 0, NONE)),
        ],
    ),
    // A renewal to an unknown hop waits for T2.
    (
        false,
        &[
            Step(0, Input::Taken(7), (10_000_000, 1, 7, 262, ALL)),
            Step(0, Input::Heard(2, 7, 1000), (0, 1, 7, 262, ALL)),
            Step(0, Input::Heard(5, 7, 1000), (500_000_000, 1, 7, 262, ALL)),
            Step(499_000_000, Input::Silent(8), (500_000_000, 1, 7, 262, ALL)),
            Step(
                500_000_000,
                Input::Refused(9),
                (500_000_000, 1, 7, 262, ALL),
            ),
            Step(
                600_000_000,
                Input::Refused(10),
                (500_000_000, 1, 7, 262, ALL),
            ),
            Step(
                875_000_000,
                Input::Taken(11),
                (937_500_000, 2, 11, 262, ALL),
            ),
        ],
    ),
    // A lease of no time is over at once.
    (
        false,
        &[
            Step(0, Input::Taken(7), (10_000_000, 1, 7, 262, ALL)),
            Step(
                1_000_000,
                Input::Heard(2, 7, 1000),
                (1_000_000, 1, 7, 262, ALL),
            ),
            Step(
                2_000_000,
                Input::Heard(5, 7, 0),
                (2_000_000, 1, 7, 262, ALL),
            ),
            Step(2_000_000, Input::Taken(8), (0, 1, 7, 262, ALL)),
            Step(2_000_000, Input::Taken(9), (12_000_000, 2, 9, 262, ALL)),
        ],
    ),
    // An acknowledgement in the last moment renews.
    (
        false,
        &[
            Step(0, Input::Heard(2, 1, 1000), (0, 0, 0, 0, NONE)),
            Step(0, Input::Heard(5, 1, 1000), (500_000_000, 0, 0, 0, NONE)),
            Step(
                997_500_000,
                Input::Taken(8),
                (1_000_000_000, 1, 8, 262, ALL),
            ),
            Step(
                1_000_000_000,
                Input::Heard(5, 7, 1000),
                (1_000_000_000, 1, 8, 262, ALL),
            ),
            Step(
                1_000_000_000,
                Input::Heard(5, 8, 1000),
                (1_500_000_000, 1, 8, 262, ALL),
            ),
            Step(
                1_000_000_000,
                Input::Taken(9),
                (1_500_000_000, 1, 8, 262, ALL),
            ),
            Step(
                1_500_000_000,
                Input::Taken(9),
                (1_687_500_000, 2, 9, 262, SERVER),
            ),
            Step(
                1_600_000_000,
                Input::Heard(6, 8, 0),
                (1_687_500_000, 2, 9, 262, SERVER),
            ),
            Step(1_600_000_000, Input::Heard(6, 9, 0), (0, 2, 9, 262, SERVER)),
            Step(
                1_600_000_000,
                Input::Taken(10),
                (1_610_000_000, 3, 10, 262, ALL),
            ),
        ],
    ),
];

/// How the client stands after what came; none where it did not answer as it should.
fn standing(
    socket: &mut Socket<'_>,
    out: &mut Recorder,
    micros: i64,
    input: Input,
) -> Option<Standing>
    requires { AreSettingsWritable socket.old.settings 1500 }
    ensures { socket.new.settings ≡ socket.old.settings }
{
    let (word, refuses, want) = match input {
        Input::Taken(word) => (word, false, Ok(())),
        Input::Refused(word) => (word, true, Err(EmitError::Unresolved)),
        Input::Silent(word) => (word, true, Ok(())),
        Input::Heard(message_type, id, secs) => {
            let mut message = reply(message_type, id);
            append(&mut message, 263, &secs.to_be_bytes());
            socket.process(&at(micros), SERVER, &message);
            return Some(standing_of(socket, out));
        }
    };
    out.refuses = refuses;
    if socket.dispatch(&at(micros), word, out) != want {
        return None;
    }
    Some(standing_of(socket, out))
}

fn standing_of(socket: &Socket<'_>, out: &Recorder) -> Standing {
    (
        socket.poll_at().total_micros(),
        out.count,
        out.transaction_id,
        out.message_len,
        out.destination,
    )
}

/// The first step after which the client does not stand as it says; none if there is no such step.
fn first_miss(ignore_naks: bool, steps: &[Step]) -> Option<usize> {
    let mut socket = Socket::new();
    socket.set_ignore_naks(ignore_naks);
    let mut out = Recorder::default();
    for i in 0..steps.len() {
        let Step(micros, input, want) = steps[i];
        if standing(&mut socket, &mut out, micros, input) != Some(want) {
            return Some(i);
        }
    }
    None
}

#[test]
fn clients_stand_as_each_step_says(rt: HostRuntime) {
    for (number, (ignore_naks, steps)) in LIVES.iter().enumerate() {
        assert_eq!(rt; first_miss(*ignore_naks, steps), None, "life {number}");
    }
}
