// The job of the program recordview: records from standard input, lines for people to standard output.

#![tactic(auto)]

ghost use Rattle.std.specs.Prelude.{◌≡◌, ◌++◌, OnOk, IfErr, IsErrOf, IfSome};
ghost use Rattle.std.specs.Io.KnownBytes.{Keeps, Appends, IsAtEnd};
ghost use Rattle.streams.specs.declared.Unfinished.TheVariants.{Unwritten};
ghost use Rattle.recordview_lines.specs.Viewer.{taken, nothing_seen};
ghost use Rattle.recordview_run.specs.View.{IsFilled, viewer_taken, line_ended, records_in, viewer_after, lines_of, rest_text, view_text, Views};

use recordview_lines::lines::{Run, TornEnd};
use recordview_lines::viewer::Viewer;
use std::fmt::Display;
use std::io;
use std::io::{BufWriter, Read, Write};
use streams::Unfinished;

// Octets of records that are read before lines are written: whole records.
const BLOCK: usize = 16 * 1024;

// What reading until the buffer is full came to: it is full; the input ended, or a read failed, with so many octets in it.
#[derive(Clone, Copy, PartialEq, Eq)]
enum Filled {
    Full,
    Ended(usize),
    Unread(usize),
}

// Reads until the buffer is full, the input ends or a read fails.
fn fill<H: Eprint + Alloc, R: Read>(host: &H, input: &mut R, buffer: &mut [u8]) -> Filled
    ensures { IsFilled (R.remaining input.old) (R.remaining input.new) buffer.new result }
{
    let mut done: usize = 0;
    while done < buffer.len() {
        match streams::read_in(host, input, &mut buffer[done..]) {
            Ok(0) => return Filled::Ended(done),
            Ok(n) => done += n,
            Err(_) => return Filled::Unread(done),
        }
    }
    Filled::Full
}

// Writes what a value displays.
fn write_text<H: Eprint + Alloc, W: Write, D: Display + Drop>(
    host: &H,
    output: &mut W,
    text: D,
) -> Result<(), Unfinished>
    ensures ok { OnOk result (IfSome (D.output text) (Appends (W.contents output.old) (W.contents output.new))) }
    ensures err { IfErr result (λ e. e ≡ Unwritten) }
{
    write!(output, "{text}").map_err(|error| {
        streams::fail(host, "write", error);
        Unfinished::Unwritten
    })
}

// A line that has ended, if one has.
fn write_line<H: Eprint + Alloc, W: Write>(
    host: &H,
    output: &mut W,
    ended: Option<Run>,
) -> Result<(), Unfinished>
    ensures ok { OnOk result (Appends (W.contents output.old) (W.contents output.new) (line_ended ended)) }
    ensures err { IfErr result (λ e. e ≡ Unwritten) }
{
    match ended {
        None => Ok(()),
        Some(run) => write_text(host, output, run),
    }
}

// The whole records of a block, one after the other.
fn view_records<H: Eprint + Alloc, W: Write>(
    host: &H,
    output: &mut W,
    viewer: &mut Viewer,
    octets: &[u8],
) -> Result<(), Unfinished>
    ensures viewer { OnOk result (viewer.new ≡ viewer_after viewer.old (records_in octets.now)) }
    ensures lines { OnOk result (Appends (W.contents output.old) (W.contents output.new) (lines_of viewer.old (records_in octets.now))) }
    ensures err { IfErr result (λ e. e ≡ Unwritten) }
{
    let (records, _) = octets.as_chunks::<16>();
    for octets in records {
        let taken = viewer.take(*octets);
        *viewer = taken.viewer;
        write_line(host, &mut *output, taken.ended)?;
    }
    Ok(())
}

// The last octets of the input, then the line that has not ended, a torn end and the totals.
fn view_rest<H: Eprint + Alloc, W: Write>(
    host: &H,
    output: &mut W,
    mut viewer: Viewer,
    octets: &[u8],
) -> Result<(), Unfinished>
    ensures ok { OnOk result (Appends (W.contents output.old) (W.contents output.new) (rest_text viewer octets.now)) }
    ensures err { IfErr result (λ e. e ≡ Unwritten) }
{
    view_records(host, &mut *output, &mut viewer, octets)?;
    write_line(host, &mut *output, viewer.run)?;
    let (_, torn) = octets.as_chunks::<16>();
    write_text(host, &mut *output, TornEnd(torn))?;
    write_text(host, &mut *output, viewer.totals)?;
    Ok(())
}

// What stays in a buffer on the way is written too.
fn flush<H: Eprint + Alloc, W: Write>(host: &H, output: &mut W) -> Result<(), Unfinished>
    ensures ok { Keeps (W.contents output.old) (W.contents output.new) }
    ensures err { IfErr result (λ e. e ≡ Unwritten) }
{
    output.flush().map_err(|error| {
        streams::fail(host, "write", error);
        Unfinished::Unwritten
    })
}

// The rest of the input, and what has stayed in a buffer on the way.
fn view_end<H: Eprint + Alloc, W: Write>(
    host: &H,
    output: &mut W,
    viewer: Viewer,
    octets: &[u8],
) -> Result<(), Unfinished>
    ensures ok { OnOk result (Appends (W.contents output.old) (W.contents output.new) (rest_text viewer octets.now)) }
    ensures err { IfErr result (λ e. e ≡ Unwritten) }
{
    view_rest(host, &mut *output, viewer, octets)?;
    flush(host, output)
}

// All of the input: the lines of its records and the totals go behind what the output holds. After a failed read they are those of what was
// read. What fails is said on standard error.
// A proved loop has to end, and nothing says that the input does: the reads are counted to a number that no run uses up.
pub fn view<H: Eprint + Alloc, R: Read, W: Write>(
    host: &H,
    input: &mut R,
    output: &mut W,
) -> Result<(), Unfinished>
    ensures viewed { ¬ IsErrOf result Unwritten → Views (R.remaining input.old) (R.remaining input.new) (W.contents output.old) (W.contents output.new) }
    ensures whole { OnOk result (IfSome (R.remaining input.old) (λ octets. Appends (W.contents output.old) (W.contents output.new) (view_text octets))) }
    ensures end { OnOk result (IsAtEnd (R.remaining input.new)) }
{
    let mut buffer = [0u8; BLOCK];
    let mut viewer = Viewer::new();
    for _ in 0..u64::MAX {
        match fill(host, &mut *input, &mut buffer) {
            Filled::Full => view_records(host, &mut *output, &mut viewer, &buffer)?,
            Filled::Ended(n) => {
                view_end(host, output, viewer, &buffer[..n])?;
                return Ok(());
            }
            Filled::Unread(n) => {
                view_end(host, output, viewer, &buffer[..n])?;
                return Err(Unfinished::Unread);
            }
        }
    }
    view_end(host, output, viewer, &[])?;
    Err(Unfinished::More)
}

// All of standard input, to standard output.
pub fn view_input<H: Input + Print + Eprint + Alloc>(host: &H) {
    match BufWriter::new(host.alloc(), io::writer(host)) {
        Ok(mut output) => {
            let _ = view(host, &mut host.reader(), &mut output);
        }
        Err(error) => streams::fail(host, "write", error),
    }
}
