//! The script of a made run.
ghost use Rattle.std.specs.Prelude.{◌≡◌, ◌+◌, ◌*◌, ◌≤◌, length, IfOk, OnOk};
ghost use Rattle.host_model.specs.Chronicle.{words_at};
ghost use Rattle.made_script.specs.Growing.{GainsMade};
ghost use Rattle.made_script.specs.Made.{IsMadeScript};

use crate::event::{push_frame, push_query, push_reset, push_tick};
use crate::server::{grant_frame, response_frame, told_frame};
use host_model::EventWords;
use net_wire::{DhcpMessageType, NoMemory};
use std::alloc::Global;

/// The name that the host asks for.
const ASKED_NAME: &str = "test.example";

/// The script of so many events that the words make, three words an event.
#[tactic(auto, using(crate::proofs::ScriptLemmas::none_made))]
pub fn make_script(alloc: Global, words: &[u32], count: u32) -> Result<Vec<u8>, NoMemory>
    requires { 3 * count ≤ length words.now }
    ensures { IfOk result (λ bytes. IsMadeScript words.now count bytes.items) }
{
    let mut bytes = Vec::new(alloc);
    for place in 0..count {
        push_event(&mut bytes, words, place)?;
    }
    Ok(bytes)
}

/// Appends the event at a place, which is so many seconds after the start.
fn push_event(bytes: &mut Vec<u8>, words: &[u32], place: u32) -> Result<(), NoMemory>
    requires { 3 * (place + 1) ≤ length words.now }
    ensures ok { OnOk result (GainsMade words.now place bytes.old.items bytes.new.items) }
{
    let at = place as u64 * 1_000_000;
    let round = place / 100;
    match place % 100 {
        0 => push_reset(bytes, at),
        1 => push_frame(
            bytes,
            at,
            &grant_frame(DhcpMessageType::Offer, words_at(words, round * 100).first),
        ),
        2 => push_frame(
            bytes,
            at,
            &grant_frame(DhcpMessageType::Ack, words_at(words, round * 100).first),
        ),
        3 => push_frame(bytes, at, &told_frame()),
        4 => push_query(bytes, at, ASKED_NAME),
        5 if round % 2 == 1 => {
            push_frame(bytes, at, &response_frame(words_at(words, round * 100 + 4)))
        }
        _ => push_tick(bytes, at),
    }
}

/// The words of the event at a place.
fn words_at(words: &[u32], place: u32) -> EventWords
    requires { 3 * (place + 1) ≤ length words.now }
    ensures { result ≡ words_at words.now place }
{
    let first = place as usize * 3;
    EventWords {
        first: words[first],
        second: words[first + 1],
        third: words[first + 2],
    }
}
