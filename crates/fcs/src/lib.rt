// The frame check sequence: CRC-CCITT over octets, and the two check octets that a unit ends in.

#![tactic(auto)]

ghost use Rattle.std.specs.Prelude.{◌≡◌};
ghost use Rattle.fcs.specs.Check.{check_of, check_octets};
ghost use Rattle.fcs.specs.Table.{check_table};

mod half_octets;
mod table;

// What the register is preset to.
const PRESET: u16 = 0xffff;

// The register after a run of octets, from the preset: half an octet at a time.
pub fn check(octets: &[u8]) -> u16
    ensures { result ≡ check_of octets.now }
{
    let mut register = PRESET;
    for octet in octets {
        register = half_octets::check_octet(register, *octet);
    }
    register
}

// The table, where it stands.
pub fn check_table() -> &'static [u16; 1024]
    ensures { result.now ≡ check_table }
{
    &table::TABLE
}

// What may not change: a call with any other words is refused (the edit any_table of framing), so that the table is a parameter.
// The register after a run of octets, from the preset: four octets at a time, and the last up to three one at a time.
pub fn check_by_table(octets: &[u8], table: &[u16; 1024]) -> u16
    requires { table.now ≡ check_table }
    ensures { result ≡ check_of octets.now }
{
    let mut register = PRESET;
    let mut left = octets;
    // four octets a turn by a pattern, which no `for` takes
    while let [a, b, c, d, rest @ ..] = left {
        let low = (register ^ u16::from(*a)) % 256;
        let high = (register / 256) ^ u16::from(*b);
        register = table[768 + usize::from(low)]
            ^ table[512 + usize::from(high)]
            ^ table[256 + usize::from(*c)]
            ^ table[usize::from(*d)];
        left = rest;
    }
    for octet in left {
        let low = (register ^ u16::from(*octet)) % 256;
        register = (register / 256) ^ table[usize::from(low)];
    }
    register
}

// Contents shorter than this are worked from the sixteen constants, as by hand; longer ones by the table, which takes less time an octet.
const LONG: usize = 12;

// The register after a content's octets: of a short one by half octets, of a long one by the table.
fn check_content(content: &[u8]) -> u16
    ensures { result ≡ check_of content.now }
{
    if content.len() < LONG {
        check(content)
    } else {
        check_by_table(content, check_table())
    }
}

// The two check octets that go behind a unit's content.
pub fn check_octets(content: &[u8]) -> [u8; 2]
    ensures { result ≡ check_octets content.now }
{
    (check_content(content) ^ 0xffff).to_le_bytes()
}
