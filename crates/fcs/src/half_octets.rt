// The check half an octet at a time, from sixteen constants.
ghost use Rattle.std.specs.Prelude.{◌≡◌};
ghost use Rattle.bits.specs.Octets.{bits_of};
ghost use Rattle.fcs.specs.Check.{check_bits};
ghost use Rattle.fcs.specs.HalfOctets.{constants};

// What four zero bits make of each register below 16.
static CONSTANTS: [u16; 16] = [
    0x0000, 0x1081, 0x2102, 0x3183, 0x4204, 0x5285, 0x6306, 0x7387, 0x8408, 0x9489, 0xa50a, 0xb58b,
    0xc60c, 0xd68d, 0xe70e, 0xf78f,
];

// The constants, where they stand.
pub fn sixteen_constants() -> &'static [u16; 16]
    ensures { result.now ≡ constants }
{
    &CONSTANTS
}

// Half an octet, the low four bits of `half`: the register moves down by four bits, and one constant is added.
fn check_half(register: u16, half: u8) -> u16
    ensures { result ≡ check_bits register (bits_of 4 half) }
{
    let at = (register ^ u16::from(half)) % 16;
    (register / 16) ^ sixteen_constants()[usize::from(at)]
}

// The two halves of an octet, the low one first.
pub fn check_octet(register: u16, octet: u8) -> u16
    ensures { result ≡ check_bits register (bits_of 8 octet) }
{
    let low = check_half(register, octet % 16);
    check_half(low, octet / 16)
}
