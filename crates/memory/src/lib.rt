// The memory that the host lends: the pool, K slots of 280 octets each, and the descriptors, two words for each slot: status, then length.

#![tactic(auto)]

ghost use Rattle.std.specs.Prelude.{◌≡◌, ℕ, ◌+◌, ◌*◌, ◌≤◌, ◌<◌, eqb, length, take, drop, get_or};
ghost use Rattle.bits.specs.Format.{basic};
ghost use Rattle.memory.specs.Lent.{status_word, zeros, wiped, empty_descriptors, with_slot, with_descriptor, filled, empty_slot, next_slot};

// Octets of a slot.
pub const SLOT: usize = 280;
// The status of an empty slot.
pub const STATUS_EMPTY: u16 = 32768;

// What a slot holds: nothing, a good unit, or one with an error.
#[derive(Clone, Copy, PartialEq, Eq)]
pub enum Status {
    Empty,
    Good,
    CheckWrong,
    NotWhole,
}

// All octets from a place on, or-ed: 0 if all are zero. Without an exit it compiles to many octets a step.
pub fn or_from(octets: &[u8], from: usize) -> u8
    ensures { eqb result 0 ≡ zeros (drop from octets.now) }
{
    let rest = &octets[from.min(octets.len())..];
    rest.iter().fold(0, |all, octet| all | *octet)
}

// Whether every octet is zero.
pub fn no_octet(octets: &[u8]) -> bool
    ensures { result ≡ zeros octets.now }
{
    or_from(octets, 0) == 0
}

// Whether every word is zero. Octets and words have a function each: it is one line, and a trait for both would be longer.
pub fn no_word(words: &[u16]) -> bool
    ensures { result ≡ zeros words.now }
{
    words.iter().fold(0, |all, word| all | *word) == 0
}

// Zeroes all octets.
#[tactic(auto, unfolding(crate::specs::Lent::wiped))]
pub fn wipe_octets(octets: &mut [u8])
    ensures { octets.new ≡ wiped octets.old }
{
    octets.fill(0);
}

// Zeroes all words, as `wipe_octets` does octets: one line each.
#[tactic(auto, unfolding(crate::specs::Lent::wiped))]
pub fn wipe_words(words: &mut [u16])
    ensures { words.new ≡ wiped words.old }
{
    words.fill(0);
}

// The word at a place, and 0 past the end.
pub fn word_at(words: &[u16], at: usize) -> u16
    ensures { result ≡ get_or words.now at 0 }
{
    words.get(at).copied().unwrap_or(0)
}

// Marks all k slots empty, with length 0.
pub fn mark_empty(descriptors: &mut [u16], k: u16)
    requires { length descriptors.old ≡ 2 * k }
    ensures { descriptors.new ≡ empty_descriptors k }
{
    for each in 0..k {
        describe(descriptors, each, STATUS_EMPTY, 0);
    }
}

// The room of a slot in pool and descriptors is each function's `requires`: how many slots they have is the host's, who lends both.

// Fixed memory: the gathering area is lent whole, and `count` says how much of it is the unit. The status is a word: which word each Status
// has stands with the constants of Link, above this crate.
// Puts the first `count` octets of a gathered unit into a slot: the rest of the slot zero, the length, the status.
fn store(
    pool: &mut [u8],
    descriptors: &mut [u16],
    slot: u16,
    area: &[u8; 279],
    count: u16,
    status: u16,
)
    requires { (280 * slot + 280 ≤ length pool.old) × (2 * slot + 2 ≤ length descriptors.old) }
    ensures { (pool.new ≡ with_slot basic pool.old slot (filled basic (take count area.now))) × (descriptors.new ≡ with_descriptor descriptors.old slot status count) }
{
    let from = start_of(slot);
    let unit = first_octets(area, count);
    fill_slot(&mut pool[from..from + SLOT], unit);
    describe(descriptors, slot, status, count);
}

// Puts a unit into slot `next` of k, as `store` does, and gives the slot for the unit after it.
pub fn store_next(
    pool: &mut [u8],
    descriptors: &mut [u16],
    next: u16,
    k: u16,
    area: &[u8; 279],
    count: u16,
    status: u16,
) -> u16
    requires { (280 * next + 280 ≤ length pool.old) × (2 * next + 2 ≤ length descriptors.old) × (next < 65535) }
    ensures { (result ≡ next_slot k next) × (pool.new ≡ with_slot basic pool.old next (filled basic (take count area.now))) × (descriptors.new ≡ with_descriptor descriptors.old next status count) }
{
    store(pool, descriptors, next, area, count, status);
    next_slot(k, next)
}

// Zeroes a slot and its length, and marks it empty.
pub fn release(pool: &mut [u8], descriptors: &mut [u16], slot: u16)
    requires { (280 * slot + 280 ≤ length pool.old) × (2 * slot + 2 ≤ length descriptors.old) }
    ensures { (pool.new ≡ with_slot basic pool.old slot (empty_slot basic)) × (descriptors.new ≡ with_descriptor descriptors.old slot (status_word Status.Empty) 0) }
{
    let from = start_of(slot);
    wipe_octets(&mut pool[from..from + SLOT]);
    describe(descriptors, slot, STATUS_EMPTY, 0);
}

// The slot after `next`, round the ring of k slots.
#[tactic(auto, unfolding(crate::specs::Lent::next_slot))]
fn next_slot(k: u16, next: u16) -> u16
    requires { next < 65535 }
    ensures { result ≡ next_slot k next }
{
    if next + 1 == k { 0 } else { next + 1 }
}

// Where a slot's octets begin in the pool.
fn start_of(slot: u16) -> usize
    ensures { result ≡ 280 * slot }
{
    usize::from(slot) * SLOT
}

// Writes a slot's status and length.
#[tactic(auto, unfolding(crate::specs::Lent::with_descriptor))]
fn describe(descriptors: &mut [u16], slot: u16, status: u16, count: u16)
    requires { 2 * slot + 2 ≤ length descriptors.old }
    ensures { descriptors.new ≡ with_descriptor descriptors.old slot status count }
{
    let at = usize::from(slot) * 2;
    descriptors[at] = status;
    descriptors[at + 1] = count;
}

// The first `count` octets of a gathered unit's area, or all of it.
fn first_octets(area: &[u8; 279], count: u16) -> &[u8]
    ensures { (result.now ≡ take count area.now) × (length result.now ≤ 279) }
{
    &area[..usize::from(count).min(area.len())]
}

// Writes a unit into a slot, all 280 octets of it.
fn fill_slot(slot: &mut [u8], unit: &[u8])
    requires { (length slot.old ≡ 280) × (length unit.now ≤ 280) }
    ensures { slot.new ≡ filled basic unit.now }
{
    let n = unit.len();
    slot[..n].copy_from_slice(unit);
    wipe_octets(&mut slot[n..]);
}
