// Reads up to 4,096 octets from standard input and writes the check octets of each beginning of them, from one octet on, to standard output.

#![tactic(auto)]

ghost use Rattle.std.specs.Prelude.{◌≤◌, length, take, OnOk};
ghost use Rattle.std.specs.Io.KnownBytes.{Consumes, Appends};
ghost use Rattle.check_prefixes.specs.Checks.{checks_of};

use std::io;
use std::io::{Read, Write};

// Reads until buf is full, the input ends or a read fails, and returns how many octets it put at the start of buf.
fn read_full<R: Read>(input: &mut R, buf: &mut [u8]) -> usize
    ensures bounded { result ≤ length buf.new }
    ensures octets { Consumes (R.remaining input.old) (R.remaining input.new) (take result buf.new) }
{
    let mut done: usize = 0;
    // a turn is one read, which says itself how much it took
    while let Ok(n @ 1..) = input.read(&mut buf[done..]) {
        done += n;
    }
    done
}

// Writes the check octets of each beginning, as long as it can.
fn write_checks<W: Write>(output: &mut W, octets: &[u8]) -> io::Result<()>
    ensures { OnOk result (Appends (W.contents output.old) (W.contents output.new) (checks_of octets.now (length octets.now))) }
{
    for n in 1..=octets.len() {
        output.write_all(&fcs::check_octets(&octets[..n]))?;
    }
    Ok(())
}

fn main(rt: HostRuntime) {
    let mut input = [0u8; 4096];
    let n = read_full(&mut rt.stdin(), &mut input);
    let _ = write_checks(&mut rt.stdout(), &input[..n]);
}
