// A line, done: what it asks for, and what that prints.
ghost use Rattle.std.specs.Prelude.{◌≡◌, ◌≤◌, ◌++◌, ℕ, List, take, length, IfOk, string_bytes};
ghost use Rattle.console_requests.specs.Requests.{most_receive, most_send};
ghost use Rattle.console_calls.specs.Console.{console_of, after_text, printed};
ghost use Rattle.console_calls.specs.Answers.{receiving, sending};
ghost use Rattle.console_calls.specs.Lines.{octets_said, sized, asked, answered};

use crate::{Board, answers};
use console_board::{Sizes, lent_pool, lent_words, poke_octet, poke_word};
use console_numbers::hex_octets;
use console_print::answers::put_unreadable;
use console_print::fields::put_link;
use console_print::grammar::put_help;
use console_print::slots::put_slots;
use console_requests::grammar::request;
use console_requests::{Area, MOST_RECEIVE, MOST_SEND, Request};
use console_words::word;
use std::alloc::{AllocError, Allocator};

// The octets that word 1 of a line says, to the front of an area. Answers how many they are.
#[tactic(auto, unfolding(crate::specs::Lines::octets_said))]
fn octets_said(line: &[u8], area: &mut [u8]) -> usize
    ensures value { take result area.new ≡ octets_said (length area.old) line.now }
    ensures upper_bound { result ≤ length area.new }
{
    match word(line, 1) {
        Some(said) => hex_octets(said, area).unwrap_or(0),
        None => 0,
    }
}

fn receive<A: Allocator>(
    board: Board,
    line: &[u8],
    pool: &mut [u8],
    descriptors: &mut [u16],
    records: &mut [u8],
    text: &mut String<A>,
) -> Result<Board, AllocError>
    ensures { (output : List ℕ) → IfOk result (λ after. printed (console_of after pool.new descriptors.new records.new output) (string_bytes text.new) ≡ after_text (string_bytes text.old) (receiving (console_of board pool.old descriptors.old records.old output) (octets_said most_receive line.now))) }
{
    let mut octets = [0; MOST_RECEIVE];
    let count = octets_said(line, &mut octets);
    answers::receive(board, &octets[..count], pool, descriptors, records, text)
}

fn send<A: Allocator>(
    board: Board,
    line: &[u8],
    output: &mut [u8],
    text: &mut String<A>,
) -> Result<Board, AllocError>
    ensures { (pool descriptors records : List ℕ) → IfOk result (λ after. printed (console_of after pool descriptors records output.new) (string_bytes text.new) ≡ after_text (string_bytes text.old) (sending (console_of board pool descriptors records output.old) (octets_said most_send line.now))) }
{
    let mut content = [0; MOST_SEND];
    let count = octets_said(line, &mut content);
    answers::send(board, &content[..count], output, text)
}

// The sizes with one that is fixed.
fn sized(sizes: Sizes, area: Area, n: u16) -> Sizes
    ensures { result ≡ sized sizes area n }
{
    match area {
        Area::Pool => Sizes {
            pool: Some(n),
            ..sizes
        },
        Area::Descriptors => Sizes {
            descriptors: Some(n),
            ..sizes
        },
        Area::Records => Sizes {
            records: Some(n),
            ..sizes
        },
        Area::Output => Sizes {
            output: Some(n),
            ..sizes
        },
    }
}

// The areas are lent one by one, as the calls take them.
// What a request asks for. The octets of receive and send are those of the line.
#[tactic(auto, unfolding(crate::specs::Lines::asked))]
fn ask<A: Allocator>(
    board: Board,
    request: Request,
    line: &[u8],
    pool: &mut [u8],
    descriptors: &mut [u16],
    records: &mut [u8],
    output: &mut [u8],
    text: &mut String<A>,
) -> Result<Board, AllocError>
    ensures { IfOk result (λ after. printed (console_of after pool.new descriptors.new records.new output.new) (string_bytes text.new) ≡ after_text (string_bytes text.old) (asked (console_of board pool.old descriptors.old records.old output.old) line.now request)) }
{
    let sizes = board.sizes;
    match request {
        Request::Open(s) => return answers::open(board, s, pool, descriptors, text),
        Request::Row(s) => return answers::open(board, s, pool, descriptors, text),
        Request::Receive => return receive(board, line, pool, descriptors, records, text),
        Request::Command(number) => return answers::command(board, number, text),
        Request::Clear(chosen) => return answers::clear(board, chosen, text),
        Request::Send => return send(board, line, output, text),
        Request::Fill => return answers::fill(board, output, text),
        Request::Hand(slot) => return answers::hand_back(board, slot, pool, descriptors, text),
        Request::Wipe => return answers::wipe(board, pool, descriptors, text),
        Request::Size(area, n) => {
            return Ok(Board {
                sizes: sized(sizes, area, n),
                ..board
            });
        },
        Request::SizeAuto => {
            return Ok(Board {
                sizes: Sizes::auto(),
                ..board
            });
        },
        Request::Read(slot) => answers::read(board, slot, pool, descriptors, text)?,
        Request::PokePool(i, octet) => poke_octet(pool, usize::from(i), octet),
        Request::PokeDescriptor(i, word) => poke_word(descriptors, usize::from(i), word),
        Request::Show => put_link(text, &board.link)?,
        Request::Slots => {
            let octets = lent_pool(board.link, sizes, pool);
            put_slots(text, octets, lent_words(board.link, sizes, descriptors))?;
        },
        Request::Help => put_help(text)?,
        Request::Nothing => (),
    }
    Ok(board)
}

// A line by its number, counted from 1.
#[tactic(auto, unfolding(crate::specs::Lines::answered))]
pub fn answer<A: Allocator>(
    board: Board,
    number: u64,
    line: &[u8],
    pool: &mut [u8],
    descriptors: &mut [u16],
    records: &mut [u8],
    output: &mut [u8],
    text: &mut String<A>,
) -> Result<Board, AllocError>
    ensures { IfOk result (λ after. printed (console_of after pool.new descriptors.new records.new output.new) (string_bytes text.new) ≡ after_text (string_bytes text.old) (answered (console_of board pool.old descriptors.old records.old output.old) number line.now)) }
{
    let Some(request) = request(line) else {
        put_unreadable(text, number)?;
        return Ok(board);
    };
    ask(
        board,
        request,
        line,
        pool,
        descriptors,
        records,
        output,
        text,
    )
}
