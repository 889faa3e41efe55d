// The calls, each on the memory that it is lent, and what it answers put behind a text. What is not lent to a function stays as it is.
ghost use Rattle.std.specs.Prelude.{◌≡◌, ◌++◌, ℕ, List, take, length, IfOk, string_bytes};
ghost use Rattle.std.specs.Result.{result_unwrap_or};
ghost use Rattle.link.specs.Answer.{number_of};
ghost use Rattle.console_print.specs.Answers.{done_line};
ghost use Rattle.console_calls.specs.Console.{console_of, after_text, printed, counted_or};
ghost use Rattle.console_calls.specs.Answers.{opening, receiving, commanding, clearing, sending, filling, reading, handing, wiping};

use crate::Board;
use calls::{Counted, Link, Refusal, Settings};
use console_print::answers::{put_done, put_made, put_read, put_received, put_wiped};
use std::alloc::{AllocError, Allocator};

// A call that gives the link: its name and its number.
fn say_done<A: Allocator>(
    board: Board,
    done: Result<Link, Refusal>,
    name: &str,
    text: &mut String<A>,
) -> Result<Board, AllocError>
    ensures { IfOk result (λ after. (after ≡ record { link = result_unwrap_or done board.link; sizes = board.sizes }) × (string_bytes text.new ≡ string_bytes text.old ++ done_line name.now (number_of done))) }
{
    let number = match done {
        Ok(_) => 0,
        Err(refusal) => u8::from(refusal),
    };
    put_done(text, name, number)?;
    Ok(Board {
        link: done.unwrap_or(board.link),
        ..board
    })
}

// The number of a call that counts, its link and its count, none where it is refused.
fn counted(link: Link, done: Result<Counted, Refusal>) -> (u8, Counted)
    ensures { (result.0 ≡ number_of done) × (result.1 ≡ counted_or link done) }
{
    match done {
        Ok(counted) => (0, counted),
        Err(refusal) => (u8::from(refusal), Counted { link, count: 0 }),
    }
}

// The front of an area, or all of it where it has no more.
fn front(area: &[u8], count: usize) -> &[u8]
    ensures { result.now ≡ take count area.now }
{
    &area[..count.min(area.len())]
}

// open N
pub fn open<A: Allocator>(
    board: Board,
    settings: Settings,
    pool: &mut [u8],
    descriptors: &mut [u16],
    text: &mut String<A>,
) -> Result<Board, AllocError>
    ensures { (records output : List ℕ) → IfOk result (λ after. printed (console_of after pool.new descriptors.new records output) (string_bytes text.new) ≡ after_text (string_bytes text.old) (opening (console_of board pool.old descriptors.old records output) settings)) }
{
    let done = console_board::open(board.link, board.sizes, settings, pool, descriptors);
    say_done(board, done, "open", text)
}

// receive N COUNT, and the records.
pub fn receive<A: Allocator>(
    board: Board,
    octets: &[u8],
    pool: &mut [u8],
    descriptors: &mut [u16],
    records: &mut [u8],
    text: &mut String<A>,
) -> Result<Board, AllocError>
    ensures { (output : List ℕ) → IfOk result (λ after. printed (console_of after pool.new descriptors.new records.new output) (string_bytes text.new) ≡ after_text (string_bytes text.old) (receiving (console_of board pool.old descriptors.old records.old output) octets.now)) }
{
    let done = console_board::receive(
        board.link,
        board.sizes,
        octets,
        pool,
        descriptors,
        &mut *records,
    );
    let (number, after) = counted(board.link, done);
    put_received(text, number, after.count, records)?;
    Ok(Board {
        link: after.link,
        ..board
    })
}

// command N
pub fn command<A: Allocator>(
    board: Board,
    number: u16,
    text: &mut String<A>,
) -> Result<Board, AllocError>
    ensures { (pool descriptors records output : List ℕ) → IfOk result (λ after. printed (console_of after pool descriptors records output) (string_bytes text.new) ≡ after_text (string_bytes text.old) (commanding (console_of board pool descriptors records output) number)) }
{
    say_done(board, calls::command(board.link, number), "command", text)
}

// clear N
pub fn clear<A: Allocator>(
    board: Board,
    chosen: u16,
    text: &mut String<A>,
) -> Result<Board, AllocError>
    ensures { (pool descriptors records output : List ℕ) → IfOk result (λ after. printed (console_of after pool descriptors records output) (string_bytes text.new) ≡ after_text (string_bytes text.old) (clearing (console_of board pool descriptors records output) chosen)) }
{
    say_done(board, calls::clear(board.link, chosen), "clear", text)
}

// send N COUNT HEX
pub fn send<A: Allocator>(
    board: Board,
    content: &[u8],
    output: &mut [u8],
    text: &mut String<A>,
) -> Result<Board, AllocError>
    ensures { (pool descriptors records : List ℕ) → IfOk result (λ after. printed (console_of after pool descriptors records output.new) (string_bytes text.new) ≡ after_text (string_bytes text.old) (sending (console_of board pool descriptors records output.old) content.now)) }
{
    let done = console_board::send(board.link, board.sizes, content, &mut *output);
    let (number, after) = counted(board.link, done);
    put_made(text, "send", number, front(output, after.count))?;
    Ok(Board {
        link: after.link,
        ..board
    })
}

// fill N COUNT HEX
pub fn fill<A: Allocator>(
    board: Board,
    output: &mut [u8],
    text: &mut String<A>,
) -> Result<Board, AllocError>
    ensures { (pool descriptors records : List ℕ) → IfOk result (λ after. printed (console_of after pool descriptors records output.new) (string_bytes text.new) ≡ after_text (string_bytes text.old) (filling (console_of board pool descriptors records output.old))) }
{
    let done = console_board::fill(board.link, board.sizes, &mut *output);
    let (number, after) = counted(board.link, done);
    put_made(text, "fill", number, front(output, after.count))?;
    Ok(Board {
        link: after.link,
        ..board
    })
}

// read N HEX
pub fn read<A: Allocator>(
    board: Board,
    slot: u16,
    pool: &[u8],
    descriptors: &[u16],
    text: &mut String<A>,
) -> Result<(), AllocError>
    ensures { (records output : List ℕ) → IfOk result (λ _. printed (console_of board pool.now descriptors.now records output) (string_bytes text.new) ≡ after_text (string_bytes text.old) (reading (console_of board pool.now descriptors.now records output) slot)) }
{
    let number = console_board::read_number(board.link, board.sizes, pool, descriptors, slot);
    let unit = console_board::read(board.link, board.sizes, pool, descriptors, slot);
    put_read(text, number, unit)
}

// hand N
pub fn hand_back<A: Allocator>(
    board: Board,
    slot: u16,
    pool: &mut [u8],
    descriptors: &mut [u16],
    text: &mut String<A>,
) -> Result<Board, AllocError>
    ensures { (records output : List ℕ) → IfOk result (λ after. printed (console_of after pool.new descriptors.new records output) (string_bytes text.new) ≡ after_text (string_bytes text.old) (handing (console_of board pool.old descriptors.old records output) slot)) }
{
    let done = console_board::hand_back(board.link, board.sizes, pool, descriptors, slot);
    say_done(board, done, "hand", text)
}

// wipe: all of pool and descriptors.
pub fn wipe<A: Allocator>(
    board: Board,
    pool: &mut [u8],
    descriptors: &mut [u16],
    text: &mut String<A>,
) -> Result<Board, AllocError>
    ensures { (records output : List ℕ) → IfOk result (λ after. printed (console_of after pool.new descriptors.new records output) (string_bytes text.new) ≡ after_text (string_bytes text.old) (wiping (console_of board pool.old descriptors.old records output))) }
{
    let link = calls::wipe(pool, descriptors);
    put_wiped(text)?;
    Ok(Board { link, ..board })
}
