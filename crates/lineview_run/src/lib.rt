// The job of the program lineview: line octets from standard input, their records to standard output.

#![tactic(auto)]

ghost use Rattle.std.specs.Prelude.{◌≡◌, ◌*◌, ◌<◌, ◌≤◌, length, take, replicate, OnOk, IfOk, IsErrOf, IfSome};
ghost use Rattle.std.specs.Io.KnownBytes.{Appends, IsAtEnd};
ghost use Rattle.board.specs.Limits.{record_room};
ghost use Rattle.lineview_board.specs.View.{board_opened, all_written};
ghost use Rattle.lineview_run.specs.View.{held, all_passed, Views, ViewsAll};
ghost use Rattle.streams.specs.declared.Unfinished.TheVariants.{Unwritten};

use board::Link;
use std::io;
use std::io::{Read, Write};
use streams::Unfinished;

// Octets of record area for the line octets of one read.
const ROOM: usize = Link::RECORDS * Link::MOST_LINE;

// The program's booking: its link, and its memory of 16 slots.
#[derive(Drop)]
pub struct Booking {
    link: Link,
    pool: [u8; Link::SLOT * 16],
    descriptors: [u16; 32],
}

impl Booking {
    // Line octets, one at a time: the records of each go behind those of the octets before it. Answers how many octets the records are.
    fn pass_all(&mut self, octets: &[u8], records: &mut [u8]) -> usize
        requires { record_room * length octets.now ≤ length records.old }
        ensures descriptors_after { held self.new ≡ all_passed (held self.old) octets.now }
        ensures records_after { take result records.new ≡ all_written (held self.old) octets.now }
        ensures written_in_bounds { result ≤ length records.new }
    {
        let mut at: usize = 0;
        for octet in octets {
            let got = lineview_board::feed(
                self.link,
                *octet,
                &mut self.pool,
                &mut self.descriptors,
                &mut records[at..],
            );
            // a refused call leaves the link as it was, and writes no record
            if let Ok(fed) = got {
                self.link = fed.link;
                at += Link::RECORD * fed.count;
            }
        }
        at
    }
}

// Host, input and output are lent by `main`, here and below: a struct of them would need a clause on the ghost name of each. Buffer and records
// come beside the booking, since a part of one is passed while the other is written; the room of the records is a bound of these two.
// What one read of the input gives, and its records. Answers how many octets were read, none only at the end of the input.
fn read_some<H: Eprint + Alloc, R: Read, W: Write>(
    host: &H,
    input: &mut R,
    output: &mut W,
    booking: &mut Booking,
    buffer: &mut [u8],
    records: &mut [u8],
) -> Result<usize, Unfinished>
    requires { record_room * length buffer.old ≤ length records.old }
    ensures viewed { ¬ IsErrOf result Unwritten → Views (held booking.old) (held booking.new) (R.remaining input.old) (R.remaining input.new) (W.contents output.old) (W.contents output.new) }
    ensures end { IfOk result (λ n. n ≡ 0 → 0 < length buffer.new → IsAtEnd (R.remaining input.new)) }
{
    let n = streams::read_in(host, input, &mut *buffer)?;
    if n > 0 {
        let written = booking.pass_all(&buffer[..n], &mut *records);
        streams::write_out(host, output, &records[..written])?;
    }
    Ok(n)
}

// A proved loop has to end, and nothing says that the input does: the reads are counted to a number that no run uses up.
fn run<H: Eprint + Alloc, R: Read, W: Write>(
    host: &H,
    input: &mut R,
    output: &mut W,
    booking: &mut Booking,
    buffer: &mut [u8],
    records: &mut [u8],
) -> Result<(), Unfinished>
    requires { record_room * length buffer.old ≤ length records.old }
    ensures viewed { ¬ IsErrOf result Unwritten → ViewsAll (held booking.old) (R.remaining input.old) (R.remaining input.new) (W.contents output.old) (W.contents output.new) }
    ensures end { OnOk result (0 < length buffer.new → IsAtEnd (R.remaining input.new)) }
{
    for _ in 0..u64::MAX {
        let n = read_some(
            host,
            &mut *input,
            &mut *output,
            &mut *booking,
            &mut *buffer,
            &mut *records,
        )?;
        if n == 0 {
            return Ok(());
        }
    }
    Err(Unfinished::More)
}

// A booking on its own memory, and all of the input: the records of its octets go behind what the output holds. What fails is said on standard error.
pub fn view<H: Eprint + Alloc, R: Read, W: Write>(
    host: &H,
    input: &mut R,
    output: &mut W,
) -> Result<(), Unfinished>
    ensures viewed { ¬ IsErrOf result Unwritten → ViewsAll (board_opened (replicate 4480 0) (replicate 32 0)) (R.remaining input.old) (R.remaining input.new) (W.contents output.old) (W.contents output.new) }
    ensures whole { OnOk result (IfSome (R.remaining input.old) (λ octets. Appends (W.contents output.old) (W.contents output.new) (all_written (board_opened (replicate 4480 0) (replicate 32 0)) octets))) }
    ensures end { OnOk result (IsAtEnd (R.remaining input.new)) }
{
    let mut pool = [0u8; Link::SLOT * 16];
    let mut descriptors = [0u16; 32];
    let mut buffer = [0u8; Link::MOST_LINE];
    let mut records = [0u8; ROOM];
    let link = lineview_board::open_board(&mut pool, &mut descriptors);
    let mut booking = Booking {
        link,
        pool,
        descriptors,
    };
    run(host, input, output, &mut booking, &mut buffer, &mut records)
}

// All of standard input, to standard output.
pub fn view_input<H: Input + Print + Eprint + Alloc>(host: &H) {
    let _ = view(host, &mut host.reader(), &mut io::writer(host));
}
