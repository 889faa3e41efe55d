// Flags, aborts, stuffed zeros and long units: the scope's rule for one bit, and the bits of an octet up to a finding.
ghost use Rattle.std.specs.Prelude.{◌≡◌, true, ◌<◌, ◌≤◌, [], ◌∷◌, ◌++◌, take};
ghost use Rattle.bits.specs.Octets.{bits_of, line_bits, packed};
ghost use Rattle.framing.specs.Delimitation.{gather, flag, step_bit};
ghost use Rattle.framing.specs.InnerReading.{reading, IsWellFormed, Stepped, FedTo};
ghost use Rattle.framing.specs.Representation.{line_of, decode};

use crate::{Fed, Found, Line, Step, area};

// `IsWellFormed` is each function's `requires` and no type's invariant: M is a setting, and the area lies in the link that a host holds.

// One more bit in the area, which holds `bits` bits.
fn put_bit(area: &mut [u8; 279], bits: u16, bit: bool)
    requires bits_bound { bits < 2232 }
    requires area_value { area.old ≡ packed 279 (take bits (line_bits area.old)) }
    ensures { area.new ≡ packed 279 (take bits (line_bits area.old) ++ (bit ∷ [])) }
{
    if bit {
        area[usize::from(bits / 8)] |= 1u8 << (bits % 8);
    }
}

// Hunting for a flag after a run of ones.
fn hunting(run: u8) -> Line
    ensures { result ≡ line_of run true 0 }
{
    Line {
        run,
        hunting: true,
        bits: 0,
    }
}

// Inside a unit, the bit is gathered, or the unit is long. The line's run is that after the bit.
fn gather_bit(m: u16, line: &mut Line, area: &mut [u8; 279], bit: bool) -> Option<Found>
    requires m_bound { m ≤ 278 }
    requires well_formed { IsWellFormed m line.old area.old }
    ensures { Stepped m (gather m (decode line.old area.old) line.old.run bit) (record { line = line.new; found = result }) area.new }
{
    if line.hunting {
        return None;
    }
    if line.bits >= m * 8 + 7 {
        area::clear(area, line.bits);
        *line = hunting(line.run);
        return Some(Found::Long);
    }
    put_bit(area, line.bits, bit);
    line.bits += 1;
    None
}

// A flag closes the unit, if one is open, and opens the next. A receiver that hunts has gathered no bits.
fn end_flag(m: u16, line: &mut Line, area: &mut [u8; 279]) -> Option<Found>
    requires m_bound { m ≤ 278 }
    requires well_formed { IsWellFormed m line.old area.old }
    ensures { Stepped m (flag (decode line.old area.old)) (record { line = line.new; found = result }) area.new }
{
    let bits = line.bits;
    *line = Line {
        run: 0,
        hunting: false,
        bits: 0,
    };
    if bits <= 7 {
        // `area::clear` in one store: its call of the library for one octet made a line of flags a seventh slower
        if bits > 0 {
            area[0] = 0;
        }
        return None;
    }
    Some(Found::Closed(bits - 7))
}

// One bit of the line. It changes the line where it lies: given back in a `Step`, it was taken apart and put together again for each bit.
#[tactic(auto, unfolding(crate::specs::Delimitation::step_bit))]
fn step_bit(m: u16, line: &mut Line, area: &mut [u8; 279], bit: bool) -> Option<Found>
    requires m_bound { m ≤ 278 }
    requires well_formed { IsWellFormed m line.old area.old }
    ensures { Stepped m (step_bit m (decode line.old area.old) bit) (record { line = line.new; found = result }) area.new }
{
    match (bit, line.run) {
        (true, 6) => {
            area::clear(area, line.bits);
            *line = hunting(7);
            Some(Found::Abort)
        }
        (true, run) => {
            line.run = (run + 1).min(7);
            gather_bit(m, line, area, true)
        }
        (false, 5) => {
            line.run = 0;
            None
        }
        (false, 6) => end_flag(m, line, area),
        (false, _) => {
            line.run = 0;
            gather_bit(m, line, area, false)
        }
    }
}

// The lowest `bits` bits of an octet, lowest first, up to and with the first that finds something.
pub fn feed(m: u16, mut line: Line, area: &mut [u8; 279], mut octet: u8, bits: u8) -> Fed
    requires m_bound { (m ≤ 278) × (bits ≤ 8) }
    requires well_formed { IsWellFormed m line area.old }
    ensures { FedTo m (reading m (decode line area.old) (bits_of bits octet)) result area.new }
{
    for left in (0..bits).rev() {
        let found = step_bit(m, &mut line, area, octet % 2 == 1);
        octet /= 2;
        if found.is_some() {
            return Fed {
                step: Step { line, found },
                octet,
                left,
            };
        }
    }
    Fed {
        step: Step { line, found: None },
        octet,
        left: 0,
    }
}
