// The job of the program unitdump: line octets from standard input, the units handed over to standard output, as a pcap file.

#![tactic(auto)]

ghost use Rattle.std.specs.Prelude.{◌≡◌, ◌<◌, length, OnOk, IfOk, IsErrOf, IfSome};
ghost use Rattle.std.specs.Io.KnownBytes.{Appends, IsAtEnd};
ghost use Rattle.unitdump_line.specs.Units.{taken_of, Takes};
ghost use Rattle.unitdump_run.specs.File.{begun_on, file_of, Dumps, DumpsAll, DumpedFile};
ghost use Rattle.streams.specs.declared.Unfinished.TheVariants.{Unwritten};

use board::Link;
use std::io;
use std::io::{BufWriter, Read, Write};
use std::process::ExitCode;
use streams::Unfinished;
use unitdump_line::Dump;

// The booking. No monitor is started, since none decides what is handed over; an open that is refused leaves the link closed.
fn begin(pool: &mut [u8], descriptors: &mut [u16]) -> Dump
    ensures { taken_of result pool.new descriptors.new ≡ begun_on pool.old descriptors.old }
{
    let closed = Link::new();
    let opened = calls::open(closed, lineview_board::settings(), pool, descriptors);
    Dump {
        link: opened.unwrap_or(closed),
        octets: 0,
    }
}

// Packets of line octets, which don't wait for those of later octets.
fn put_out<W: Write>(
    output: &mut W,
    dump: &mut Dump,
    octets: &[u8],
    pool: &mut [u8],
    descriptors: &mut [u16],
) -> io::Result<()>
    ensures { OnOk result (Takes (taken_of dump.old pool.old descriptors.old) (taken_of dump.new pool.new descriptors.new) (W.contents output.old) (W.contents output.new) octets.now) }
{
    unitdump_line::take_octets(&mut *output, dump, octets, pool, descriptors)?;
    output.flush()
}

// The areas are arrays of `dump_line`, lent down one by one, as the calls take them.
// What one read of the input gives, and its packets. Answers how many octets were read, none only at the end of the input.
fn read_some<H: Eprint + Alloc, R: Read, W: Write>(
    host: &H,
    input: &mut R,
    output: &mut W,
    dump: &mut Dump,
    pool: &mut [u8],
    descriptors: &mut [u16],
    buffer: &mut [u8],
) -> Result<usize, Unfinished>
    ensures dumped { ¬ IsErrOf result Unwritten → Dumps (taken_of dump.old pool.old descriptors.old) (taken_of dump.new pool.new descriptors.new) (R.remaining input.old) (R.remaining input.new) (W.contents output.old) (W.contents output.new) }
    ensures end { IfOk result (λ n. n ≡ 0 → 0 < length buffer.new → IsAtEnd (R.remaining input.new)) }
{
    let n = streams::read_in(host, input, &mut *buffer)?;
    match put_out(output, dump, &buffer[..n], pool, descriptors) {
        Ok(()) => Ok(n),
        Err(error) => {
            streams::fail(host, "write", error);
            Err(Unfinished::Unwritten)
        }
    }
}

// A proved loop has to end, and nothing says that the input does: the reads are counted to a number that no run uses up.
fn run<H: Eprint + Alloc, R: Read, W: Write>(
    host: &H,
    input: &mut R,
    output: &mut W,
    dump: &mut Dump,
    pool: &mut [u8],
    descriptors: &mut [u16],
    buffer: &mut [u8],
) -> Result<(), Unfinished>
    ensures dumped { ¬ IsErrOf result Unwritten → DumpsAll (taken_of dump.old pool.old descriptors.old) (R.remaining input.old) (R.remaining input.new) (W.contents output.old) (W.contents output.new) }
    ensures end { OnOk result (0 < length buffer.new → IsAtEnd (R.remaining input.new)) }
{
    for _ in 0..u64::MAX {
        let n = read_some(
            host,
            &mut *input,
            &mut *output,
            &mut *dump,
            &mut *pool,
            &mut *descriptors,
            &mut *buffer,
        )?;
        if n == 0 {
            return Ok(());
        }
    }
    Err(Unfinished::More)
}

// A booking on its own memory, and all of the input: the file of its octets goes behind what the output holds. What fails is said on standard error.
pub fn dump_line<H: Eprint + Alloc, R: Read, W: Write>(
    host: &H,
    input: &mut R,
    output: &mut W,
) -> Result<(), Unfinished>
    ensures dumped { ¬ IsErrOf result Unwritten → DumpedFile (R.remaining input.old) (R.remaining input.new) (W.contents output.old) (W.contents output.new) }
    ensures whole { OnOk result (IfSome (R.remaining input.old) (λ octets. Appends (W.contents output.old) (W.contents output.new) (file_of octets))) }
    ensures end { OnOk result (IsAtEnd (R.remaining input.new)) }
{
    let mut pool = [0u8; Link::SLOT * 16];
    let mut descriptors = [0u16; 32];
    let mut buffer = [0u8; Link::MOST_LINE];
    let mut dump = begin(&mut pool, &mut descriptors);
    streams::write_out(host, &mut *output, &unitdump_packets::file_header())?;
    run(
        host,
        input,
        output,
        &mut dump,
        &mut pool,
        &mut descriptors,
        &mut buffer,
    )
}

// All of standard input, to standard output.
pub fn dump_input<H: Input + Print + Eprint + Alloc>(host: &H) -> ExitCode {
    match BufWriter::new(host.alloc(), io::writer(host)) {
        Ok(mut output) => match dump_line(host, &mut host.reader(), &mut output) {
            Ok(()) => ExitCode::SUCCESS,
            Err(_) => ExitCode::FAILURE,
        },
        Err(error) => {
            streams::fail(host, "memory", error);
            ExitCode::FAILURE
        }
    }
}
