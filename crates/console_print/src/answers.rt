// What a call answers: its name and number, and what else it gives, on one line.
ghost use Rattle.std.specs.Prelude.{◌≡◌, ◌++◌, OnOk, string_bytes};
ghost use Rattle.console_print.specs.Answers.{done_line, wiped_line, received_lines, record_lines, made_line, read_line, unreadable_line};

use board::Link;
use std::alloc::{AllocError, Allocator};
use text::Hex;

// NAME NUMBER
pub fn put_done<A: Allocator>(
    text: &mut String<A>,
    name: &str,
    number: u8,
) -> Result<(), AllocError>
    ensures { OnOk result (string_bytes text.new ≡ string_bytes text.old ++ done_line name.now number) }
{
    writeln!(text, "{name} {number}")
}

pub fn put_wiped<A: Allocator>(text: &mut String<A>) -> Result<(), AllocError>
    ensures { OnOk result (string_bytes text.new ≡ string_bytes text.old ++ wiped_line) }
{
    writeln!(text, "wipe")
}

// receive NUMBER COUNT, and a line for each record.
pub fn put_received<A: Allocator>(
    text: &mut String<A>,
    number: u8,
    count: usize,
    records: &[u8],
) -> Result<(), AllocError>
    ensures { OnOk result (string_bytes text.new ≡ string_bytes text.old ++ received_lines number count records.now) }
{
    writeln!(text, "receive {number} {count}")?;
    put_records(text, count, records)
}

// record HEX, for each of the first records of the area.
fn put_records<A: Allocator>(
    text: &mut String<A>,
    count: usize,
    records: &[u8],
) -> Result<(), AllocError>
    ensures { OnOk result (string_bytes text.new ≡ string_bytes text.old ++ record_lines count records.now) }
{
    let (all, _) = records.as_chunks::<{ Link::RECORD }>();
    for record in all.iter().take(count) {
        writeln!(text, "record {}", Hex(record))?;
    }
    Ok(())
}

// NAME NUMBER COUNT HEX, of the octets that send or fill wrote.
pub fn put_made<A: Allocator>(
    text: &mut String<A>,
    name: &str,
    number: u8,
    octets: &[u8],
) -> Result<(), AllocError>
    ensures { OnOk result (string_bytes text.new ≡ string_bytes text.old ++ made_line name.now number octets.now) }
{
    writeln!(text, "{name} {number} {} {}", octets.len(), Hex(octets))
}

// read NUMBER HEX
pub fn put_read<A: Allocator>(
    text: &mut String<A>,
    number: u8,
    octets: &[u8],
) -> Result<(), AllocError>
    ensures { OnOk result (string_bytes text.new ≡ string_bytes text.old ++ read_line number octets.now) }
{
    writeln!(text, "read {number} {}", Hex(octets))
}

// ? LINE, for a line that can't be read.
pub fn put_unreadable<A: Allocator>(text: &mut String<A>, line: u64) -> Result<(), AllocError>
    ensures { OnOk result (string_bytes text.new ≡ string_bytes text.old ++ unreadable_line line) }
{
    writeln!(text, "? {line}")
}
