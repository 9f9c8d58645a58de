//! The text of what a lease server did.
ghost use Rattle.std.specs.Prelude.{◌≡◌};
ghost use Rattle.phy_layers.specs.Sink.{Took};
ghost use Rattle.capture_explain.specs.Text.{Puts};
ghost use Rattle.host_top.specs.ServeText.{serve_bytes, served_text, answered_text, reply_text, silence_word};

use crate::address_text::put_address;
use crate::report_text::put_time;
use capture_explain::text::{put, put_number};
use lease_server::{Reply, Silence};
use phy_layers::{ByteSink, SinkError};
use server_run::{Answered, ServeReport, ServeRow};

/// Writes the text of a report of a lease server. It takes no memory in itself.
pub fn serve_text<O: ByteSink>(report: &ServeReport, out: &mut O) -> Result<(), SinkError>
    ensures { Took O.bytes O.faults O.grows result (serve_bytes report.now) out.old out.new }
{
    let mut answer = Ok(());
    let mut number = 0;
    for row in report.rows() {
        put_served(out, &mut answer, number, row);
        number += 1;
    }
    answer
}

/// The line of a row.
pub(crate) fn put_served<O: ByteSink>(
    out: &mut O,
    answer: &mut Result<(), SinkError>,
    number: u64,
    row: &ServeRow,
)
    ensures { Puts O.bytes O.faults O.grows answer.old answer.new (served_text (number, row.now)) out.old out.new }
{
    put_number(out, answer, number);
    put(out, answer, b" ");
    put_time(out, answer, row.at);
    put(out, answer, b" ");
    put_answered(out, answer, row.answered);
    put(out, answer, b"\n");
}

fn put_answered<O: ByteSink>(out: &mut O, answer: &mut Result<(), SinkError>, answered: Answered)
    ensures { Puts O.bytes O.faults O.grows answer.old answer.new (answered_text answered) out.old out.new }
{
    match answered {
        Answered::Dhcp(reply) => put_reply(out, answer, reply),
        Answered::Arp => put(out, answer, b"arp"),
        Answered::Nothing => put(out, answer, b"none"),
    }
}

fn put_reply<O: ByteSink>(out: &mut O, answer: &mut Result<(), SinkError>, reply: Reply)
    ensures { Puts O.bytes O.faults O.grows answer.old answer.new (reply_text reply) out.old out.new }
{
    match reply {
        Reply::Offer(address) => {
            put(out, answer, b"offer ");
            put_address(out, answer, address);
        }
        Reply::Ack(address) => {
            put(out, answer, b"ack ");
            put_address(out, answer, address);
        }
        Reply::Nak => put(out, answer, b"nak"),
        Reply::Silent(why) => {
            put(out, answer, b"silent ");
            put(out, answer, silence_word(why));
        }
    }
}

fn silence_word(why: Silence) -> &'static [u8]
    ensures { result.now ≡ silence_word why }
{
    match why {
        Silence::Unwanted => b"unwanted",
        Silence::Other => b"other",
        Silence::Foreign => b"foreign",
        Silence::Full => b"full",
        Silence::Released => b"released",
        Silence::Stale => b"stale",
    }
}
