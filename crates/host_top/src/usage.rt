//! How the program is used.
ghost use Rattle.capture_explain.specs.Text.{Puts};
ghost use Rattle.host_top.specs.Usage.{usage_text, words_text, files_text, help_text};

use capture_explain::text::put;
use phy_layers::{ByteSink, SinkError};

/// Writes a line for each command.
pub fn put_usage<O: ByteSink>(out: &mut O, answer: &mut Result<(), SinkError>)
    ensures { Puts O.bytes O.faults O.grows answer.old answer.new usage_text out.old out.new }
{
    put(
        out,
        answer,
        b"usage: run HW SEED MAX [mtu=N] [lease=N] [naks=ignore|obey]\n       make SEED COUNT\n       explain MAX\n       print MAX\n       disturb HW SEED MAX FSEED DROP CORRUPT\n       serve HW ADDR FIRST COUNT PREFIX LEASE MAX\n       show MAX\n       frames MAX\n       live COMMAND ...\n       help\n",
    );
}

/// Writes what the words of the commands are.
fn put_words<O: ByteSink>(out: &mut O, answer: &mut Result<(), SinkError>)
    ensures { Puts O.bytes O.faults O.grows answer.old answer.new words_text out.old out.new }
{
    put(
        out,
        answer,
        b"HW       the hardware address of the host or the server: twelve hexadecimal digits\nSEED     where the ids and ports of its messages come from: 0 to 4294967295\nMAX      the most events that the script may have, of frames the most frames: 1 to 10000; of explain and print: 1 to 100000\nCOUNT    how many events the made script has: 1 to 10000; of serve how many addresses: 1 to 1000\nFSEED    where the faults of a bad link come from: 0 to 4294967295\nDROP     how often a frame is dropped, in percent: 0 to 100\nCORRUPT  how often a frame has a bit flipped, in percent: 0 to 100\nADDR     the address of the server, such as 192.168.1.1\nFIRST    the lowest address that it leases\nPREFIX   how many ones the mask of its network has: 1 to 30\nLEASE    how long a lease is, in seconds: 1 to 4294967295\n",
    );
}

/// Writes what is read and what is written.
fn put_files<O: ByteSink>(out: &mut O, answer: &mut Result<(), SinkError>)
    ensures { Puts O.bytes O.faults O.grows answer.old answer.new files_text out.old out.new }
{
    put(
        out,
        answer,
        b"input    standard input: the script of frames, ticks, queries and resets; of explain, print and frames a capture\noutput   standard output: the report, a row an event; of explain a row a frame; of print the headers of each frame;\n         of show and frames a line an event\ncapture  capture.pcap: all frames, those that arrived and those that were sent\n",
    );
}

/// Writes how the program is used.
pub fn put_help<O: ByteSink>(out: &mut O, answer: &mut Result<(), SinkError>)
    ensures { Puts O.bytes O.faults O.grows answer.old answer.new help_text out.old out.new }
{
    put_usage(out, answer);
    put_words(out, answer);
    put_files(out, answer);
}
