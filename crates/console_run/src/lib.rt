// The job of the program console: lines from standard input, what each asks of one board, and the answers to standard output.

#![tactic(auto)]

ghost use Rattle.std.specs.Prelude.{◌≡◌, ◌<◌, ◌++◌, ℕ, List, [], length, replicate, OnOk, IfOk, IsErrOf, IfSome, string_bytes};
ghost use Rattle.std.specs.Io.KnownBytes.{Appends, IsAtEnd};
ghost use Rattle.streams.specs.declared.Unfinished.TheVariants.{Unread};
ghost use Rattle.console_run.specs.declared.Stopped.TheVariants.{Stream, NoMemory};
ghost use Rattle.console_run.specs.Session.{new_session, state_of, start, line_passed, line_text, all_passed, all_text, session_text, AnswersSome, AnswersAll};

use console_board::{DESCRIPTORS, OUTPUT, POOL, RECORDS};
use console_calls::Board;
use std::alloc::{AllocError, Allocator};
use std::io;
use std::io::{Read, Write};
use streams::Unfinished;

// Octets of one read.
const BLOCK: usize = 4096;

// The board, and how many lines have ended.
#[derive(Clone, Copy, PartialEq, Eq)]
pub struct Session {
    pub board: Board,
    pub ended: u64,
}

// Why a session stopped before the end of its input.
#[derive(Clone, Copy, PartialEq, Eq)]
pub enum Stopped {
    Stream(Unfinished),
    NoMemory,
}

impl From<Unfinished> for Stopped {
    ghost from_gives = { λ unfinished stopped. stopped ≡ Stream unfinished };

    fn from(unfinished: Unfinished) -> Stopped {
        Stopped::Stream(unfinished)
    }
}

impl From<AllocError> for Stopped {
    ghost from_gives = { λ _ stopped. stopped ≡ NoMemory };

    fn from(_error: AllocError) -> Stopped {
        Stopped::NoMemory
    }
}

impl Session {
    pub fn new() -> Self
        ensures { result ≡ new_session }
    {
        Self {
            board: Board::new(),
            ended: 0,
        }
    }
}

// The areas are arrays of `run`, lent down one by one, as the calls take them.
// A line that has ended, done.
#[tactic(auto, unfolding(crate::specs::Session::line_passed, crate::specs::Session::line_text))]
fn pass_line<A: Allocator>(
    session: Session,
    line: &[u8],
    pool: &mut [u8],
    descriptors: &mut [u16],
    records: &mut [u8],
    output: &mut [u8],
    text: &mut String<A>,
) -> Result<Session, AllocError>
    ensures passed { IfOk result (λ after. state_of after [] pool.new descriptors.new records.new output.new ≡ line_passed (state_of session line.now pool.old descriptors.old records.old output.old)) }
    ensures put { OnOk result (string_bytes text.new ≡ string_bytes text.old ++ line_text (state_of session line.now pool.old descriptors.old records.old output.old)) }
{
    let ended = session.ended.saturating_add(1);
    let board = console_calls::lines::answer(
        session.board,
        ended,
        line,
        pool,
        descriptors,
        records,
        output,
        text,
    )?;
    Ok(Session { board, ended })
}

// The octets of one block: each line that ends in it is done, and what stands behind the last end is kept.
fn pass_block<A: Allocator, B: Allocator>(
    session: &mut Session,
    begun: &mut Vec<u8, A>,
    octets: &[u8],
    pool: &mut [u8],
    descriptors: &mut [u16],
    records: &mut [u8],
    output: &mut [u8],
    text: &mut String<B>,
) -> Result<(), AllocError>
    ensures passed { OnOk result (state_of session.new begun.new.items pool.new descriptors.new records.new output.new ≡ all_passed (state_of session.old begun.old.items pool.old descriptors.old records.old output.old) octets.now) }
    ensures put { OnOk result (string_bytes text.new ≡ string_bytes text.old ++ all_text (state_of session.old begun.old.items pool.old descriptors.old records.old output.old) octets.now) }
{
    for octet in octets {
        if *octet == b'\n' {
            *session = pass_line(
                *session,
                begun.as_slice(),
                &mut *pool,
                &mut *descriptors,
                &mut *records,
                &mut *output,
                &mut *text,
            )?;
            begun.clear();
        } else {
            begun.push(*octet)?;
        }
    }
    Ok(())
}

// One block, and what its lines print, written at once.
fn answer_block<H: Eprint + Alloc, W: Write, A: Allocator>(
    host: &H,
    out: &mut W,
    session: &mut Session,
    begun: &mut Vec<u8, A>,
    octets: &[u8],
    pool: &mut [u8],
    descriptors: &mut [u16],
    records: &mut [u8],
    output: &mut [u8],
) -> Result<(), Stopped>
    ensures passed { OnOk result (state_of session.new begun.new.items pool.new descriptors.new records.new output.new ≡ all_passed (state_of session.old begun.old.items pool.old descriptors.old records.old output.old) octets.now) }
    ensures written { OnOk result (Appends (W.contents out.old) (W.contents out.new) (all_text (state_of session.old begun.old.items pool.old descriptors.old records.old output.old) octets.now)) }
    ensures err { ¬ IsErrOf result (Stream Unread) }
{
    let mut text = String::new(host.alloc());
    pass_block(
        session,
        begun,
        octets,
        pool,
        descriptors,
        records,
        output,
        &mut text,
    )?;
    streams::write_out(host, out, text.as_bytes())?;
    Ok(())
}

// What stands behind the last end of a line, which is a line too.
fn answer_last<H: Eprint + Alloc, W: Write>(
    host: &H,
    out: &mut W,
    session: Session,
    line: &[u8],
    pool: &mut [u8],
    descriptors: &mut [u16],
    records: &mut [u8],
    output: &mut [u8],
) -> Result<(), Stopped>
    ensures written { OnOk result (Appends (W.contents out.old) (W.contents out.new) (line_text (state_of session line.now pool.old descriptors.old records.old output.old))) }
    ensures err { ¬ IsErrOf result (Stream Unread) }
{
    let mut text = String::new(host.alloc());
    pass_line(session, line, pool, descriptors, records, output, &mut text)?;
    Ok(streams::write_out(host, out, text.as_bytes())?)
}

// A proved loop has to end, and nothing says that the input does: the reads are counted to a number that no run uses up.
fn answer_all<H: Eprint + Alloc, R: Read, W: Write, A: Allocator>(
    host: &H,
    input: &mut R,
    out: &mut W,
    session: &mut Session,
    begun: &mut Vec<u8, A>,
    buffer: &mut [u8],
    pool: &mut [u8],
    descriptors: &mut [u16],
    records: &mut [u8],
    output: &mut [u8],
) -> Result<(), Stopped>
    ensures whole { OnOk result (AnswersAll (state_of session.old begun.old.items pool.old descriptors.old records.old output.old) (R.remaining input.old) (R.remaining input.new) (W.contents out.old) (W.contents out.new)) }
    ensures end { OnOk result (0 < length buffer.new → IsAtEnd (R.remaining input.new)) }
    ensures unread { IsErrOf result (Stream Unread) → AnswersSome (state_of session.old begun.old.items pool.old descriptors.old records.old output.old) (R.remaining input.old) (R.remaining input.new) (W.contents out.old) (W.contents out.new) }
{
    for _ in 0..u64::MAX {
        let n = streams::read_in(host, &mut *input, &mut *buffer)?;
        if n == 0 {
            let last = begun.as_slice();
            return answer_last(
                host,
                out,
                *session,
                last,
                pool,
                descriptors,
                records,
                output,
            );
        }
        answer_block(
            host,
            &mut *out,
            &mut *session,
            &mut *begun,
            &buffer[..n],
            &mut *pool,
            &mut *descriptors,
            &mut *records,
            &mut *output,
        )?;
    }
    Err(Stopped::Stream(Unfinished::More))
}

// A board with its own memory, and all of the input: what its lines print goes behind what the output holds.
pub fn answer<H: Eprint + Alloc, R: Read, W: Write>(
    host: &H,
    input: &mut R,
    out: &mut W,
) -> Result<(), Stopped>
    ensures whole { OnOk result (IfSome (R.remaining input.old) (λ octets. Appends (W.contents out.old) (W.contents out.new) (session_text octets))) }
    ensures end { OnOk result (IsAtEnd (R.remaining input.new)) }
    ensures unread { IsErrOf result (Stream Unread) → AnswersSome start (R.remaining input.old) (R.remaining input.new) (W.contents out.old) (W.contents out.new) }
{
    let mut pool = [0u8; POOL];
    let mut descriptors = [0u16; DESCRIPTORS];
    let mut records = [0u8; RECORDS];
    let mut output = [0u8; OUTPUT];
    let mut buffer = [0u8; BLOCK];
    let mut session = Session::new();
    let mut begun = Vec::new(host.alloc());
    answer_all(
        host,
        input,
        out,
        &mut session,
        &mut begun,
        &mut buffer,
        &mut pool,
        &mut descriptors,
        &mut records,
        &mut output,
    )
}

// All of standard input, to standard output. What fails is said on standard error.
pub fn answer_input<H: Input + Print + Eprint + Alloc>(host: &H) {
    let answered = answer(host, &mut host.reader(), &mut io::writer(host));
    if let Err(Stopped::NoMemory) = answered {
        // there is nowhere else to say that standard error takes nothing
        let _ = eprintln!(host; "console: out of memory");
    }
}
