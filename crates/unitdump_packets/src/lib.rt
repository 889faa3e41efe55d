// The octets of a pcap file of signal units: its header, and the header before each unit. All numbers stand low octet first.

#![tactic(auto)]

ghost use Rattle.std.specs.Prelude.{◌≡◌};
ghost use Rattle.std.specs.Int.{to_le_bytes, w32};
ghost use Rattle.unitdump_packets.specs.Packets.{file_header, packet_header};

use board::Link;

// The octets that a file with times in microseconds begins with, as a number.
const MAGIC: u64 = 0xA1B2C3D4;
// The link type of units from their first octet on, without flags: MTP2.
const LINK_TYPE: u64 = 140;
// At 64 kbit/s.
const OCTETS_A_SECOND: u64 = 8000;

const MICROSECONDS_AN_OCTET: u64 = 125;

// The 32 lowest bits of a number.
fn low_word(number: u64) -> [u8; 4]
    ensures { result ≡ to_le_bytes w32 number }
{
    let [a, b, c, d, ..] = number.to_le_bytes();
    [a, b, c, d]
}

// What stands once, at the start of the file.
pub fn file_header() -> [u8; 24]
    ensures { result ≡ file_header }
{
    let [m0, m1, m2, m3] = low_word(MAGIC);
    let [l0, l1, l2, l3] = low_word(u64::from(Link::MOST_LONGEST));
    let [t0, t1, t2, t3] = low_word(LINK_TYPE);
    // version 2.4, then two words that are zero; the longest unit is the most that a packet keeps
    [
        m0, m1, m2, m3, 2, 0, 4, 0, 0, 0, 0, 0, 0, 0, 0, 0, l0, l1, l2, l3, t0, t1, t2, t3,
    ]
}

// What stands before a unit of so many octets: the time, when so many line octets have come, and twice the number of octets, those that are
// kept and those that came.
pub fn packet_header(line_octets: u64, count: usize) -> [u8; 16]
    ensures { result ≡ packet_header line_octets count }
{
    let [s0, s1, s2, s3] = low_word(line_octets / OCTETS_A_SECOND);
    let [u0, u1, u2, u3] = low_word(line_octets % OCTETS_A_SECOND * MICROSECONDS_AN_OCTET);
    let [c0, c1, c2, c3] = low_word(count as u64);
    [
        s0, s1, s2, s3, u0, u1, u2, u3, c0, c1, c2, c3, c0, c1, c2, c3,
    ]
}
