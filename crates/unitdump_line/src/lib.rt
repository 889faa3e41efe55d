// What line octets bring to the output: each unit handed over, read from its slot, written as a packet, and the slot handed back.

#![tactic(auto)]

ghost use Rattle.std.specs.Prelude.{◌-◌, [], ◌∷◌, OnOk};
ghost use Rattle.std.specs.Io.KnownBytes.{Appends};
ghost use Rattle.unitdump_packets.specs.Packets.{packet_of};
ghost use Rattle.unitdump_line.specs.Units.{slots_from, TakesSlots, taken_of, Takes};

use board::Link;
use std::io;
use std::io::Write;

// A booking's link, and how many line octets it was given, which goes round to 0 after 64 bits.
#[derive(Clone, Copy)]
pub struct Dump {
    pub link: Link,
    pub octets: u64,
}

// A unit as a packet; nothing where there is no unit.
fn write_packet<W: Write>(output: &mut W, line_octets: u64, unit: &[u8]) -> io::Result<()>
    ensures { OnOk result (Appends (W.contents output.old) (W.contents output.new) (packet_of line_octets unit.now)) }
{
    if unit.is_empty() {
        return Ok(());
    }
    output.write_all(&unitdump_packets::packet_header(line_octets, unit.len()))?;
    output.write_all(unit)
}

// The units in slots from one up to another, which are handed back.
fn take_slots<W: Write>(
    output: &mut W,
    dump: Dump,
    pool: &mut [u8],
    descriptors: &mut [u16],
    first: u16,
    end: u16,
) -> io::Result<()>
    ensures { OnOk result (TakesSlots dump.octets (record { link = dump.link; pool = pool.old; descriptors = descriptors.old }) (record { link = dump.link; pool = pool.new; descriptors = descriptors.new }) (W.contents output.old) (W.contents output.new) (slots_from first (end - first))) }
{
    for slot in first..end {
        if lineview_board::is_filled(descriptors, slot) {
            let unit = calls::read(dump.link, pool, descriptors, slot);
            write_packet(output, dump.octets, unit)?;
            let _ = calls::hand_back(dump.link, pool, descriptors, slot);
        }
    }
    Ok(())
}

// One line octet, and the units that it closes, in the order of the slots round the ring from the next one on, which is that of the records.
fn take_octet<W: Write>(
    output: &mut W,
    dump: &mut Dump,
    octet: u8,
    pool: &mut [u8],
    descriptors: &mut [u16],
) -> io::Result<()>
    ensures { OnOk result (Takes (taken_of dump.old pool.old descriptors.old) (taken_of dump.new pool.new descriptors.new) (W.contents output.old) (W.contents output.new) (octet ∷ [])) }
{
    let first = dump.link.units.slots.next;
    let mut records = [0u8; Link::RECORDS];
    let got = calls::receive(
        dump.link,
        &[octet],
        &mut *pool,
        &mut *descriptors,
        &mut records,
    );
    // a refused call leaves the link as it was
    dump.link = got.map_or(dump.link, |received| received.link);
    dump.octets = dump.octets.wrapping_add(1);
    take_slots(
        &mut *output,
        *dump,
        &mut *pool,
        &mut *descriptors,
        first,
        Link::MOST_SLOTS,
    )?;
    take_slots(output, *dump, pool, descriptors, 0, first)
}

// Line octets, one at a time.
pub fn take_octets<W: Write>(
    output: &mut W,
    dump: &mut Dump,
    octets: &[u8],
    pool: &mut [u8],
    descriptors: &mut [u16],
) -> io::Result<()>
    ensures { OnOk result (Takes (taken_of dump.old pool.old descriptors.old) (taken_of dump.new pool.new descriptors.new) (W.contents output.old) (W.contents output.new) octets.now) }
{
    for octet in octets {
        take_octet(
            &mut *output,
            &mut *dump,
            *octet,
            &mut *pool,
            &mut *descriptors,
        )?;
    }
    Ok(())
}
