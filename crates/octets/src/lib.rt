// Delimitation by whole octets: those in which no flag and no abort ends, by a table of 2,048 rows.

#![tactic(auto)]

ghost use Rattle.std.specs.Prelude.{◌≡◌, ◌+◌, ◌*◌, ◌≤◌, length, take};
ghost use Rattle.bits.specs.Octets.{line_bits, packed};
ghost use Rattle.framing.specs.InnerReading.{IsWellFormed};
ghost use Rattle.octets.specs.Rows.{row_table};
ghost use Rattle.octets.specs.InnerScan.{Gathered, Hunted, Passes};

use framing::Line;

pub mod table;

// How many octets were taken, and the receiver's numbers then.
#[derive(Clone, Copy, PartialEq, Eq)]
pub struct Scan {
    pub taken: usize,
    pub line: Line,
}

// From this value on a row is that of an octet in which a flag or an abort ends: a mark and no Option, since the definition's rows are numbers.
const MARKED: u32 = 0x1000000;

// The table, where it stands. Its words are 32 bits, for which usize has no From: a run read from one is cast.
pub fn row_table() -> &'static [u32; 2048]
    ensures { result.now ≡ row_table }
{
    &table::ROWS
}

// Fixed memory: the lent area and how many bits of it are used.
// Inside a unit that holds `bits` bits: octets up to the first in which a flag or an abort ends. Kept bits wait until they fill an octet of the area.
fn gather_octets(octets: &[u8], run: u8, bits: u16, area: &mut [u8; 279]) -> Scan
    requires run_bound { (run ≤ 7) × (bits + 8 * length octets.now ≤ 2231) }
    requires area_value { area.old ≡ packed 279 (take bits (line_bits area.old)) }
    ensures { Gathered octets.now run (take bits (line_bits area.old)) result area.new }
{
    let rows = row_table();
    let mut base = usize::from(run) * 256;
    let mut n = usize::from(bits / 8);
    let mut have = u32::from(bits % 8);
    let mut wait = u32::from(area[n]);
    let mut taken = 0;
    for octet in octets {
        let octet = usize::from(*octet);
        let row = rows[base + octet];
        if row >= MARKED {
            break;
        }
        wait += (row % 256) << have;
        have += row / 65536;
        if have >= 8 {
            area[n] = (wait % 256) as u8;
            wait /= 256;
            have -= 8;
            n += 1;
        }
        base = (rows[octet] / 256 % 8 * 256) as usize;
        taken += 1;
    }
    area[n] = wait as u8;
    Scan {
        taken,
        line: Line {
            run: (base / 256) as u8,
            hunting: false,
            bits: (8 * n) as u16 + have as u16,
        },
    }
}

// Hunting: octets up to the first in which a flag or an abort ends. It keeps no bits: one loop for both would ask in each turn whether it
// hunts. `taken` is what is answered; an index by enumerate is gone where the octets end.
fn hunt_octets(octets: &[u8], run: u8) -> Scan
    requires { run ≤ 7 }
    ensures { Hunted octets.now run result }
{
    let rows = row_table();
    let mut base = usize::from(run) * 256;
    let mut taken = 0;
    for octet in octets {
        let octet = usize::from(*octet);
        if rows[base + octet] >= MARKED {
            break;
        }
        base = (rows[octet] / 256 % 8 * 256) as usize;
        taken += 1;
    }
    Scan {
        taken,
        line: Line {
            run: (base / 256) as u8,
            hunting: true,
            bits: 0,
        },
    }
}

// M is a setting, and the area lies in the link that a host holds: their bounds are each function's `requires`.
// Octets by their rows, up to the first in which a flag or an abort ends or that might make the unit long.
pub fn plain_octets(m: u16, line: Line, octets: &[u8], area: &mut [u8; 279]) -> Scan
    requires m_bound { m ≤ 278 }
    requires well_formed { IsWellFormed m line area.old }
    ensures { Passes m line octets.now area.old result area.new }
{
    if line.hunting {
        return hunt_octets(octets, line.run);
    }
    let room = usize::from((m * 8 + 7 - line.bits) / 8);
    let end = room.min(octets.len());
    gather_octets(&octets[..end], line.run, line.bits, area)
}
