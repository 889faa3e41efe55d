// The slots that are lent, as they stand.
ghost use Rattle.std.specs.Prelude.{◌≡◌, ◌++◌, OnOk, string_bytes};
ghost use Rattle.console_print.specs.Slots.{slot_lines};

use board::Link;
use std::alloc::{AllocError, Allocator};
use text::Hex;

// slot I STATUS LENGTH HEX, for each slot that is whole in both areas, and `end`.
pub fn put_slots<A: Allocator>(
    text: &mut String<A>,
    pool: &[u8],
    descriptors: &[u16],
) -> Result<(), AllocError>
    ensures { OnOk result (string_bytes text.new ≡ string_bytes text.old ++ slot_lines pool.now descriptors.now) }
{
    let (slots, _) = pool.as_chunks::<{ Link::SLOT }>();
    let (words, _) = descriptors.as_chunks::<2>();
    for (slot, (octets, [status, length])) in slots.iter().zip(words).enumerate() {
        writeln!(text, "slot {slot} {status} {length} {}", Hex(octets))?;
    }
    writeln!(text, "end")
}
