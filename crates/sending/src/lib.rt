// Sending: a unit's octets are stuffed, closed by a flag, and packed into whole octets of a lent output area.

#![tactic(auto)]

ghost use Rattle.std.specs.Prelude.{◌≡◌, ◌^◌, ◌≤◌, ◌<◌};
ghost use Rattle.bits.specs.Octets.{bits_of, line_bits};
ghost use Rattle.sending.specs.Stuffing.{stuffed, ones_over, flag, unit_line};
ghost use Rattle.sending.specs.Rows.{stuffing_table};
ghost use Rattle.sending.specs.InnerPutting.{Puts, Room};

use std::marker::Model;

mod table;

// Fixed memory: the output area is lent, and `at` says how far it is written.
// Where the next octet goes in the output area; how many bits wait and the octet that holds them, first one lowest; and the
// ones sent in a row.
#[derive(Clone, Copy, PartialEq, Eq)]
pub struct Tx {
    pub at: usize,
    pub count: u8,
    pub wait: u8,
    pub ones: u8,
}

// A clause sees the four fields as a plain record. A sender that the code has is in range.
impl Model for Tx {
    ghost use Rattle.sending.specs.Sender.{Sender, TxInRange};

    ghost Value = { Sender };

    ghost view = { λ t. record { at = t.at; count = t.count; wait = t.wait; ones = t.ones } };

    ghost inverse = { λ s. record { at = s.at; count = s.count; wait = s.wait; ones = s.ones } };

    ghost invariant = { λ t. TxInRange (record { at = t.at; count = t.count; wait = t.wait; ones = t.ones }) };
}

// The rows of stuffing, where they stand.
fn stuffing_table() -> &'static [u16; 1280]
    ensures { result.now ≡ stuffing_table }
{
    &table::ROWS
}

// Eight to ten bits, given as a number, behind those that wait: the octets that they fill go out. So many ones in a row stand at their end.
fn put_piece(out: &mut [u8], t: Tx, piece: u16, many: u8, ones: u8) -> Tx
    requires room { Room t (bits_of many piece) out.old }
    requires piece_bound { (piece < 2 ^ many) × (8 ≤ many) × (many ≤ 10) }
    requires ones_bound { ones ≤ 4 }
    ensures { Puts out.old t (bits_of many piece) ones result out.new }
{
    let joined = u32::from(t.wait) + (u32::from(piece) << t.count);
    let have = t.count + many;
    out[t.at] = (joined % 256) as u8;
    if have < 16 {
        return Tx {
            at: t.at + 1,
            count: have - 8,
            wait: (joined / 256) as u8,
            ones,
        };
    }
    out[t.at + 1] = (joined / 256 % 256) as u8;
    Tx {
        at: t.at + 2,
        count: have - 16,
        wait: (joined / 65536) as u8,
        ones,
    }
}

// One octet of a unit, by its row.
fn put_octet(out: &mut [u8], t: Tx, octet: u8) -> Tx
    requires { Room t (stuffed t.ones (bits_of 8 octet)) out.old }
    ensures { Puts out.old t (stuffed t.ones (bits_of 8 octet)) (ones_over t.ones (bits_of 8 octet)) result out.new }
{
    let at = usize::from(t.ones) * 256 + usize::from(octet);
    let row = stuffing_table()[at];
    let zeros = (row / 1024 % 4) as u8;
    put_piece(out, t, row % 1024, 8 + zeros, (row / 4096) as u8)
}

// Octets of a unit.
fn put_octets(out: &mut [u8], mut t: Tx, octets: &[u8]) -> Tx
    requires { Room t (stuffed t.ones (line_bits octets.now)) out.old }
    ensures { Puts out.old t (stuffed t.ones (line_bits octets.now)) (ones_over t.ones (line_bits octets.now)) result out.new }
{
    // Read for the proof: it knows the sender's range even where no octet comes.
    let _ = &t.ones;
    for octet in octets {
        t = put_octet(out, t, *octet);
    }
    t
}

// A flag, one piece of eight bits, which are not stuffed. The ones in a row begin anew behind it.
pub fn put_flag(out: &mut [u8], t: Tx) -> Tx
    requires { Room t flag out.old }
    ensures { Puts out.old t flag 0 result out.new }
{
    put_piece(out, t, 0x7e, 8, 0)
}

// A whole unit after a flag: content, its check octets, and the closing flag.
pub fn put_unit(out: &mut [u8], t: Tx, content: &[u8]) -> Tx
    requires { Room t (unit_line content.now) out.old }
    ensures { Puts out.old t (unit_line content.now) 0 result out.new }
{
    let check = fcs::check_octets(content);
    let t = put_octets(out, Tx { ones: 0, ..t }, content);
    let t = put_octets(out, t, &check);
    put_flag(out, t)
}
