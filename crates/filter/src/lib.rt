// The repeat filter: what becomes of a good unit, and what the filter remembers of it. State goes in by value and comes back by value.

#![tactic(auto)]

ghost use Rattle.std.specs.Prelude.{◌≡◌, ◌&&◌, cond, List, ℕ, ◌≤◌, eqb, length, take};
ghost use Rattle.bits.specs.Format.{basic, fill_in_octets};
ghost use Rattle.filter.specs.Unit.{kind_of, masked, same};
ghost use Rattle.filter.specs.Memory.{empty_memory, repeats, forgets, settled};

// Fill-in unit (FISU), link status unit (LSSU), message unit (MSU).
#[derive(Clone, Copy, PartialEq, Eq)]
pub enum Kind {
    FillIn,
    LinkStatus,
    Message,
}

// The last good unit that went to a slot: its length, its first octets under the mask, and whether the unit before
// it was like it. Length 0 is the empty memory, and no Option, since the C link (HostMemory) shows all three fields.
#[repr(C)]
#[derive(Clone, Copy, PartialEq, Eq)]
pub struct Memory {
    pub length: u16,
    pub octets: [u8; 5],
    pub alike: bool,
}

// What becomes of a good unit.
#[derive(Clone, Copy, PartialEq, Eq)]
pub enum Fate {
    HandedOver,
    Dropped,
    Lost,
}

#[derive(Clone, Copy, PartialEq, Eq)]
pub struct Settled {
    pub fate: Fate,
    pub memory: Memory,
}

impl Memory {
    // The memory that holds no unit.
    pub fn empty() -> Self
        ensures { result ≡ empty_memory basic }
    {
        Self {
            length: 0,
            octets: [0; 5],
            alike: false,
        }
    }
}

// The kind of a unit of so many octets, check octets included.
#[tactic(auto, unfolding(crate::specs::Unit::kind_of))]
pub fn kind_of(octets: u16) -> Kind
    ensures { (u : List ℕ) → length u ≡ octets → result ≡ kind_of basic u }
{
    match octets {
        5 => Kind::FillIn,
        6 | 7 => Kind::LinkStatus,
        _ => Kind::Message,
    }
}

// The first five octets of a unit under the mask. By `array::from_fn` the proof does not close: its items are told one at a time.
pub fn masked_unit(first: [u8; 5], mask: [u8; 5]) -> [u8; 5]
    ensures { result ≡ masked mask first }
{
    [
        first[0] & mask[0],
        first[1] & mask[1],
        first[2] & mask[2],
        first[3] & mask[3],
        first[4] & mask[4],
    ]
}

// Whether two runs of five octets are equal.
pub fn same_five(a: [u8; 5], b: [u8; 5]) -> bool
    ensures { result ≡ same a b }
{
    a == b
}

// Whether the memory holds a unit like one of so many octets with these five under the mask.
fn holds_like(memory: Memory, octets: u16, five: [u8; 5]) -> bool
    ensures { result ≡ (eqb memory.length octets && same memory.octets five) }
{
    (memory.length == octets) & same_five(memory.octets, five)
}

// Whether a unit of this kind is dropped: `like` says that the memory holds its like, `before` that the unit before that one was
// alike too.
fn is_dropped(on: bool, kind: Kind, like: bool, before: bool) -> bool
    ensures { result ≡ (on && repeats kind like before) }
{
    on & match kind {
        Kind::FillIn => like,
        Kind::LinkStatus => like & before,
        Kind::Message => false,
    }
}

// What is remembered of a unit that goes to a slot: itself, unless it is a message or the filter is off.
fn remembered(on: bool, kind: Kind, unit: Memory) -> Memory
    ensures { result ≡ cond on (forgets basic kind unit) (empty_memory basic) }
{
    if on && kind != Kind::Message {
        unit
    } else {
        Memory::empty()
    }
}

// What becomes of a good unit, given by its length and its first five octets, whose next slot is free or not.
pub fn settle(
    on: bool,
    mask: [u8; 5],
    memory: Memory,
    octets: u16,
    first: [u8; 5],
    free: bool,
) -> Settled
    requires { fill_in_octets basic ≤ octets }
    ensures { (u : List ℕ) → length u ≡ octets → take (fill_in_octets basic) u ≡ first → result ≡ settled basic on mask memory u free }
{
    let kind = kind_of(octets);
    let five = masked_unit(first, mask);
    let unit = Memory {
        length: octets,
        octets: five,
        alike: holds_like(memory, octets, five),
    };
    if is_dropped(on, kind, unit.alike, memory.alike) {
        return Settled {
            fate: Fate::Dropped,
            memory,
        };
    }
    if free {
        return Settled {
            fate: Fate::HandedOver,
            memory: remembered(on, kind, unit),
        };
    }
    Settled {
        fate: Fate::Lost,
        memory: Memory::empty(),
    }
}
