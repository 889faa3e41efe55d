// The gathering area: bits stand in it lowest bit of an octet first, and it is zero past them.
ghost use Rattle.std.specs.Prelude.{◌≡◌, [], ◌≤◌, take};
ghost use Rattle.bits.specs.Octets.{line_bits, packed};

// The area at no bits. Only the octets that hold some are written.
// Fixed memory: a host lends all of the area, and a line says how many bits of it are used, here and where else both are passed; so that
// the area holds these bits and no others is each function's `requires`.
pub fn clear(area: &mut [u8; 279], bits: u16)
    requires bits_bound { bits ≤ 2232 }
    requires area_value { area.old ≡ packed 279 (take bits (line_bits area.old)) }
    ensures { area.new ≡ packed 279 [] }
{
    let end = usize::from(bits).div_ceil(8);
    area[..end].fill(0);
}
