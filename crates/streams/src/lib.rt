// Reading and writing octets in blocks; what fails is said on standard error.

#![tactic(auto)]

ghost use Rattle.std.specs.Prelude.{◌≡◌, ◌<◌, ◌≤◌, [], length, take, OnOk, IfOk, OnErr, IfErr};
ghost use Rattle.std.specs.Io.KnownBytes.{Consumes, Appends, IsAtEnd};
ghost use Rattle.streams.specs.declared.Unfinished.TheVariants.{Unread, Unwritten};

use std::io;
use std::io::{Read, Write};

// Why a program stopped before the end of its input: the reads are used up and there may be more; a read failed; a write failed.
#[derive(Clone, Copy, PartialEq, Eq)]
pub enum Unfinished {
    More,
    Unread,
    Unwritten,
}

// Writes a line to standard error: what failed, a colon and the error's text, without the system's number behind it.
pub fn fail<H: Eprint + Alloc>(host: &H, what: &str, error: io::Error) {
    let said = match format!(in host.alloc(); "{error}") {
        Ok(text) => match text.as_str().split_once(" (os error ") {
            Some((words, _)) => eprintln!(host; "{what}: {words}"),
            None => eprintln!(host; "{what}: {text}"),
        },
        Err(_) => eprintln!(host; "{what}: {error}"),
    };
    // there is nowhere else to say that standard error takes nothing
    let _ = said;
}

// Writes octets to the output.
pub fn write_out<H: Eprint + Alloc, W: Write>(
    host: &H,
    output: &mut W,
    octets: &[u8],
) -> Result<(), Unfinished>
    ensures ok { OnOk result (Appends (W.contents output.old) (W.contents output.new) octets.now) }
    ensures err { IfErr result (λ e. e ≡ Unwritten) }
{
    output.write_all(octets).map_err(|error| {
        fail(host, "write", error);
        Unfinished::Unwritten
    })
}

// Reads once from the input, and answers how many octets it gave, none only at its end.
pub fn read_in<H: Eprint + Alloc, R: Read>(
    host: &H,
    input: &mut R,
    buffer: &mut [u8],
) -> Result<usize, Unfinished>
    ensures bounded { IfOk result (λ n. n ≤ length buffer.new) }
    ensures octets { IfOk result (λ n. Consumes (R.remaining input.old) (R.remaining input.new) (take n buffer.new)) }
    ensures end { IfOk result (λ n. n ≡ 0 → 0 < length buffer.new → IsAtEnd (R.remaining input.new)) }
    ensures failed { OnErr result (Consumes (R.remaining input.old) (R.remaining input.new) []) }
    ensures err { IfErr result (λ e. e ≡ Unread) }
{
    input.read(buffer).map_err(|error| {
        fail(host, "read", error);
        Unfinished::Unread
    })
}
