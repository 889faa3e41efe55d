// What happens to a closed unit, in order; long units and aborts; octet counting. The front end: it never looks at the monitor.

#![tactic(auto)]

ghost use Rattle.std.specs.Prelude.{◌≡◌, ℕ, ◌+◌, ◌-◌, ◌≤◌, true, List, [], ◌∷◌, take, if◌then◌else◌, ◌==◌, nat_eq};
ghost use Rattle.bits.specs.Octets.{line_bits, packed};
ghost use Rattle.memory.specs.Lent.{status_word, status_of};
ghost use Rattle.units.specs.Units.{unit_memory, effect, unit_state_of, begins, first_five, bare_of, hand_over, counted, good_unit, errored_unit, closed_unit, broken, tick_of};
ghost use Rattle.units.specs.InnerFit.{Fits};

use board::{Counting, Counts, Link, Settings, Slots, UnitState, limits};
use filter::Fate;
use framing::Verdict;
use memory::Status;
use records::{Happening, RecordKind};

// The unit state after a finding, and what happened.
#[derive(Clone, Copy)]
pub struct Taken {
    pub units: UnitState,
    pub happening: Happening,
}

// Fixed memory: the gathering area is lent whole, and `count` or `bits`, with its bound, says how much of it is the unit, here and below.
// Settings and unit state come apart: the C link has both among others, and only the unit state is given back.
// The first five of the first `count` octets of the area, zero filled.
fn first_five(area: &[u8; 279], count: u16) -> [u8; 5]
    ensures { result ≡ first_five (take count area.now) }
{
    let mut first = [0; 5];
    let shown = usize::from(count).min(5);
    first[..shown].copy_from_slice(&area[..shown]);
    first
}

// Whether a slot is empty.
fn is_free(descriptors: &[u16], slot: u16) -> bool
    ensures { result ≡ (status_of descriptors.now slot == status_word Status.Empty) }
{
    memory::word_at(descriptors, 2 * usize::from(slot)) == Link::STATUS_EMPTY
}

// One more good unit, and one more of its fate; each count goes round to 0 after 65,535.
fn counted(c: Counts, fate: Fate) -> Counts
    ensures { result ≡ counted fate c }
{
    let counts = Counts {
        good: c.good.wrapping_add(1),
        ..c
    };
    match fate {
        Fate::HandedOver => Counts {
            over: c.over.wrapping_add(1),
            ..counts
        },
        Fate::Dropped => Counts {
            dropped: c.dropped.wrapping_add(1),
            ..counts
        },
        Fate::Lost => Counts {
            lost: c.lost.wrapping_add(1),
            ..counts
        },
    }
}

// Octet counting goes on, or begins if a switch is on.
fn counting_on(units: UnitState, switch: bool) -> UnitState
    ensures { result ≡ unit_state_of (begins switch units.counting) units.memory units.slots.next units.counts }
{
    UnitState {
        counting: Counting {
            on: switch | units.counting.on,
            ..units.counting
        },
        ..units
    }
}

// What is no event and shows no unit.
fn bare(kind: RecordKind, good: u16) -> Happening
    ensures { result ≡ bare_of kind [] good 0 }
{
    Happening {
        kind,
        lost: false,
        length: 0,
        first: [0; 5],
        good,
        event: false,
        errored: false,
        bits: 0,
    }
}

// The unit of `count` octets at the front of the area, as it is shown where it is no event.
fn shown(kind: RecordKind, area: &[u8; 279], count: u16, good: u16) -> Happening
    requires { count ≤ 278 }
    ensures { result ≡ bare_of kind (take count area.now) good 0 }
{
    Happening {
        length: count,
        first: first_five(area, count),
        ..bare(kind, good)
    }
}

// What happened as an errored event.
fn errored(unit: Happening) -> Happening
    ensures { result ≡ record unit { event = true; errored = true } }
{
    Happening {
        event: true,
        errored: true,
        ..unit
    }
}

// An event whose unit has no slot: with orn on, octet counting begins.
fn lost(s: Settings, units: UnitState, event: Happening) -> Taken
    ensures { result ≡ record { units = unit_state_of (begins s.orn units.counting) units.memory units.slots.next units.counts; happening = record event { lost = true; bits = Link.EVENT_BUSY } } }
{
    Taken {
        units: counting_on(units, s.orn),
        happening: Happening {
            lost: true,
            bits: Link::EVENT_BUSY,
            ..event
        },
    }
}

// `Fits` is each function's `requires`: it ties settings and units to both lent areas, and a struct of `&mut` parts would want a clause on
// the ghost name of each part in each contract.

// An event whose unit goes from the front of the area to the next slot, which is empty.
fn hand_over(
    s: Settings,
    units: UnitState,
    event: Happening,
    area: &[u8; 279],
    status: Status,
    pool: &mut [u8],
    descriptors: &mut [u16],
) -> Taken
    requires fits { Fits s units pool.old descriptors.old }
    requires length_bound { event.length ≤ 278 }
    ensures { effect (unit_memory result.units pool.new descriptors.new) (result.happening ∷ []) ≡ effect (hand_over s.k status (take event.length area.now) (unit_memory units pool.old descriptors.old) units) (record event { bits = Link.EVENT_OVER } ∷ []) }
{
    let next = memory::store_next(
        pool,
        descriptors,
        units.slots.next,
        s.k,
        area,
        event.length,
        limits::status_word(status),
    );
    Taken {
        units: UnitState {
            slots: Slots { next },
            ..units
        },
        happening: Happening {
            bits: Link::EVENT_OVER,
            ..event
        },
    }
}

// A good unit of `count` octets at the front of the area.
fn good_unit(
    s: Settings,
    units: UnitState,
    area: &[u8; 279],
    count: u16,
    pool: &mut [u8],
    descriptors: &mut [u16],
) -> Taken
    requires fits { Fits s units pool.old descriptors.old }
    requires le_count { (5 ≤ count) × (count ≤ 278) }
    ensures { effect (unit_memory result.units pool.new descriptors.new) (result.happening ∷ []) ≡ good_unit s (unit_memory units pool.old descriptors.old) (take count area.now) }
{
    let unit = shown(RecordKind::HandedOver, area, count, units.counts.good);
    let free = is_free(descriptors, units.slots.next);
    let settled = filter::settle(s.filter, s.mask, units.memory, count, unit.first, free);
    let counts = counted(units.counts, settled.fate);
    let ended = UnitState {
        counting: Counting {
            on: false,
            ..units.counting
        },
        memory: settled.memory,
        counts,
        ..units
    };
    let event = Happening {
        good: counts.good,
        event: true,
        ..unit
    };
    match settled.fate {
        Fate::HandedOver => hand_over(s, ended, event, area, Status::Good, pool, descriptors),
        Fate::Dropped => Taken {
            units: ended,
            happening: Happening {
                kind: RecordKind::Dropped,
                ..event
            },
        },
        Fate::Lost => lost(
            s,
            ended,
            Happening {
                kind: RecordKind::Lost,
                ..event
            },
        ),
    }
}

// A unit with an error, of this status and kind, of `count` whole octets at the front of the area.
fn errored_unit(
    s: Settings,
    units: UnitState,
    area: &[u8; 279],
    count: u16,
    status: Status,
    kind: RecordKind,
    pool: &mut [u8],
    descriptors: &mut [u16],
) -> Taken
    requires fits { Fits s units pool.old descriptors.old }
    requires count_bound { count ≤ 278 }
    ensures { effect (unit_memory result.units pool.new descriptors.new) (result.happening ∷ []) ≡ errored_unit s (unit_memory units pool.old descriptors.old) status kind (take count area.now) }
{
    let event = errored(shown(kind, area, count, units.counts.good));
    if is_free(descriptors, units.slots.next) {
        hand_over(s, units, event, area, status, pool, descriptors)
    } else {
        lost(s, units, event)
    }
}

// A closed unit of `bits` bits at the front of the area, by its verdict.
pub fn closed_unit(
    s: Settings,
    units: UnitState,
    area: &[u8; 279],
    bits: u16,
    pool: &mut [u8],
    descriptors: &mut [u16],
) -> Taken
    requires fits { Fits s units pool.old descriptors.old }
    requires bits_bound { (bits ≤ 2224) × (area.now ≡ packed 279 (take (bits + 7) (line_bits area.now))) }
    ensures { effect (unit_memory result.units pool.new descriptors.new) (result.happening ∷ []) ≡ closed_unit s (unit_memory units pool.old descriptors.old) (take bits (line_bits area.now)) }
{
    let count = bits / 8;
    match framing::unit::verdict(area, bits) {
        Verdict::Short => Taken {
            units,
            happening: shown(RecordKind::Short, area, count, units.counts.good),
        },
        Verdict::NotWhole => errored_unit(
            s,
            units,
            area,
            count,
            Status::NotWhole,
            RecordKind::NotWhole,
            pool,
            descriptors,
        ),
        Verdict::CheckWrong => errored_unit(
            s,
            units,
            area,
            count,
            Status::CheckWrong,
            RecordKind::CheckWrong,
            pool,
            descriptors,
        ),
        Verdict::Good => good_unit(s, units, area, count, pool, descriptors),
    }
}

// A long unit or an abort, of this kind and with this event bit.
pub fn break_off(s: Settings, units: UnitState, kind: RecordKind, bits: u16) -> Taken
    ensures { (pool descriptors : List ℕ) → effect (unit_memory result.units pool descriptors) (result.happening ∷ []) ≡ broken s (unit_memory units pool descriptors) kind bits }
{
    Taken {
        units: counting_on(units, s.itu),
        happening: Happening {
            bits,
            ..bare(kind, units.counts.good)
        },
    }
}

// N's counter after an octet: it runs down, and at zero it reloads. No plainer as `octet_reception::wound` of one octet: that takes a
// remainder where this asks whether one is left.
pub fn count_down(n: u16, left: u16) -> u16
    requires { 1 ≤ left }
    ensures { result ≡ (if nat_eq left 1 then n else left - 1) }
{
    if left == 1 { n } else { left - 1 }
}

// The tick of octet counting.
pub fn tick(good: u16) -> Happening
    ensures { result ≡ tick_of good }
{
    Happening {
        bits: Link::EVENT_OCTET,
        ..errored(bare(RecordKind::Tick, good))
    }
}
