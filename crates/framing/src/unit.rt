// The verdict on a closed unit: short, not whole octets, check wrong, or good.
ghost use Rattle.std.specs.Prelude.{◌≡◌, ◌≤◌, length, take};
ghost use Rattle.bits.specs.Octets.{line_bits};
ghost use Rattle.bits.specs.Format.{basic};
ghost use Rattle.framing.specs.Verdict.{verdict_of};

use crate::Verdict;

// Fixed memory: the lent area and how many bits of it are used.
// The verdict on the unit of `bits` bits at the front of the area, by the check's table.
pub fn verdict(area: &[u8; 279], bits: u16) -> Verdict
    requires bits_bound { (bits ≤ 2224) × (length area.now ≡ 279) }
    ensures { result ≡ verdict_of basic (take bits (line_bits area.now)) }
{
    if bits < 40 {
        return Verdict::Short;
    }
    if bits % 8 != 0 {
        return Verdict::NotWhole;
    }
    let octets = usize::from(bits / 8);
    if fcs::check_by_table(&area[..octets], fcs::check_table()) == 0xf0b8 {
        Verdict::Good
    } else {
        Verdict::CheckWrong
    }
}
