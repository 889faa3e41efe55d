// Lines: their verbs, how many words each takes, and what is asked for.
ghost use Rattle.std.specs.Prelude.{◌≡◌};
ghost use Rattle.console_requests.specs.Requests.{name_of, verb_of, takes, with_octets, asked_of, request_of};

use crate::areas::{number, poke, size};
use crate::bookings::{open, row};
use crate::{MOST_RECEIVE, MOST_SEND, Request};
use console_numbers::hex_len;
use console_words::{word, word_count};

#[derive(Clone, Copy)]
pub enum Verb {
    Open,
    Row,
    Receive,
    Command,
    Clear,
    Send,
    Fill,
    Read,
    Hand,
    Wipe,
    Size,
    Poke,
    Show,
    Slots,
    Help,
}

const VERBS: [Verb; 15] = [
    Verb::Open,
    Verb::Row,
    Verb::Receive,
    Verb::Command,
    Verb::Clear,
    Verb::Send,
    Verb::Fill,
    Verb::Read,
    Verb::Hand,
    Verb::Wipe,
    Verb::Size,
    Verb::Poke,
    Verb::Show,
    Verb::Slots,
    Verb::Help,
];

fn name(verb: Verb) -> &'static [u8]
    ensures { result.now ≡ name_of verb }
{
    match verb {
        Verb::Open => b"open",
        Verb::Row => b"row",
        Verb::Receive => b"receive",
        Verb::Command => b"command",
        Verb::Clear => b"clear",
        Verb::Send => b"send",
        Verb::Fill => b"fill",
        Verb::Read => b"read",
        Verb::Hand => b"hand",
        Verb::Wipe => b"wipe",
        Verb::Size => b"size",
        Verb::Poke => b"poke",
        Verb::Show => b"show",
        Verb::Slots => b"slots",
        Verb::Help => b"help",
    }
}

// The verb that a word names.
fn verb_named(word: &[u8]) -> Option<Verb>
    ensures { result ≡ verb_of word.now }
{
    VERBS.iter().find(|verb| name(**verb) == word).copied()
}

// Whether a line of a verb may have so many words. Of switches there are none or more, each of which is looked at.
fn takes(verb: Verb, words: usize) -> bool
    ensures { result ≡ takes verb words }
{
    match verb {
        Verb::Open | Verb::Row => true,
        Verb::Poke => words == 4,
        Verb::Size => words == 3,
        Verb::Receive | Verb::Command | Verb::Clear | Verb::Send | Verb::Read | Verb::Hand => {
            words == 2
        }
        Verb::Fill | Verb::Wipe | Verb::Show | Verb::Slots | Verb::Help => words == 1,
    }
}

// A request whose octets are word 1, if that says so many at most.
#[tactic(auto, unfolding(crate::specs::Requests::with_octets))]
fn with_octets(line: &[u8], most: usize, request: Request) -> Option<Request>
    ensures { result ≡ with_octets line.now most request }
{
    let octets = hex_len(word(line, 1)?)?;
    (octets <= most).then_some(request)
}

// What a line of so many words as its verb takes asks for.
fn asked(line: &[u8], verb: Verb) -> Option<Request>
    ensures { result ≡ asked_of line.now verb }
{
    match verb {
        Verb::Open => Some(Request::Open(open(line)?)),
        Verb::Row => Some(Request::Row(row(line)?)),
        Verb::Receive => with_octets(line, MOST_RECEIVE, Request::Receive),
        Verb::Command => Some(Request::Command(number(line, 1)?)),
        Verb::Clear => Some(Request::Clear(number(line, 1)?)),
        Verb::Send => with_octets(line, MOST_SEND, Request::Send),
        Verb::Fill => Some(Request::Fill),
        Verb::Read => Some(Request::Read(number(line, 1)?)),
        Verb::Hand => Some(Request::Hand(number(line, 1)?)),
        Verb::Wipe => Some(Request::Wipe),
        Verb::Size => size(line),
        Verb::Poke => poke(line),
        Verb::Show => Some(Request::Show),
        Verb::Slots => Some(Request::Slots),
        Verb::Help => Some(Request::Help),
    }
}

// What a line, without its end, asks for; nothing if it is empty or a comment.
#[tactic(auto, unfolding(crate::specs::Requests::request_of))]
pub fn request(line: &[u8]) -> Option<Request>
    ensures { result ≡ request_of line.now }
{
    if let [] | [b'#', ..] = line {
        return Some(Request::Nothing);
    }
    if line == b"size auto".as_slice() {
        return Some(Request::SizeAuto);
    }
    let verb = verb_named(word(line, 0)?)?;
    if takes(verb, word_count(line)) {
        asked(line, verb)
    } else {
        None
    }
}
