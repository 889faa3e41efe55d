// The booking that lineview views the line through, and what one line octet does to it.

#![tactic(auto)]

ghost use Rattle.std.specs.Prelude.{◌≡◌, not, eqb, ◌*◌, ◌≤◌, length};
ghost use Rattle.memory.specs.declared.Status.TheVariants.{Empty};
ghost use Rattle.memory.specs.Lent.{status_of, status_word};
ghost use Rattle.board.specs.Limits.{record_octets};
ghost use Rattle.input.specs.Receive.{outcome_of};
ghost use Rattle.lineview_board.specs.View.{row_one, booking_opened, board_opened, filled_back, octet_fed};

use board::{Link, Settings};
use link::{Counted, Refusal};

// Row 1 with 16 slots, the mask all ones, the switches off. A row is five of the settings; a From would serve this place alone.
pub fn settings() -> Settings
    ensures { result ≡ row_one }
{
    let row = calls::numbers(1);
    Settings {
        k: Link::MOST_SLOTS,
        m: row.m,
        n: row.n,
        t: row.t,
        d: row.d,
        a: row.a,
        mask: [255; 5],
        filter: false,
        itu: false,
        orn: false,
    }
}

// A new booking with the failure monitor started. What is refused leaves the link as it was.
pub fn open_booking(settings: Settings, pool: &mut [u8], descriptors: &mut [u16]) -> Link
    ensures { record { link = result; pool = pool.new; descriptors = descriptors.new } ≡ booking_opened settings pool.old descriptors.old }
{
    let closed = Link::new();
    let opened = calls::open(closed, settings, pool, descriptors).unwrap_or(closed);
    calls::command(opened, 2).unwrap_or(opened)
}

// The program's booking.
pub fn open_board(pool: &mut [u8], descriptors: &mut [u16]) -> Link
    ensures { record { link = result; pool = pool.new; descriptors = descriptors.new } ≡ board_opened pool.old descriptors.old }
{
    open_booking(settings(), pool, descriptors)
}

// Whether a slot's status is not empty; a slot past the end of the descriptors counts as filled, and the call then refuses it. One line over
// `memory::word_at`, as its negation for the next slot in `units` is: no plainer as a function of `memory` that both negate or not.
pub fn is_filled(descriptors: &[u16], slot: u16) -> bool
    ensures { result ≡ not (eqb (status_of descriptors.now slot) (status_word Empty)) }
{
    memory::word_at(descriptors, 2 * usize::from(slot)) != Link::STATUS_EMPTY
}

// Hands back each slot that is not empty: for an empty one the call is refused and changes nothing. The link stays as it is.
#[tactic(auto, using(crate::proofs::Views::all_back))]
pub fn hand_back_filled(link: Link, pool: &mut [u8], descriptors: &mut [u16])
    ensures { record { link = link; pool = pool.new; descriptors = descriptors.new } ≡ filled_back (record { link = link; pool = pool.old; descriptors = descriptors.old }) }
{
    for slot in 0..Link::MOST_SLOTS {
        if is_filled(descriptors, slot) {
            let _ = calls::hand_back(link, pool, descriptors, slot);
        }
    }
}

// One line octet, and filled slots handed back at once, also where the call is refused.
pub fn feed(
    link: Link,
    octet: u8,
    pool: &mut [u8],
    descriptors: &mut [u16],
    records: &mut [u8],
) -> Result<Counted, Refusal>
    ensures { outcome_of link result pool.new descriptors.new records.new ≡ octet_fed link octet pool.old descriptors.old records.old }
{
    let got = calls::receive(link, &[octet], &mut *pool, &mut *descriptors, records);
    let after = got.map_or(link, |received| received.link);
    hand_back_filled(after, pool, descriptors);
    got
}

// How many octets so many records are, at most all of the area.
pub fn octets_of(count: usize, records: &[u8]) -> usize
    ensures upper_bound { result ≤ length records.now }
    ensures value { record_octets * count ≤ length records.now → result ≡ record_octets * count }
{
    Link::RECORD.saturating_mul(count).min(records.len())
}
