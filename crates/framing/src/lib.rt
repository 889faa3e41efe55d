// Delimitation: from line bits to units, and what is to be said of a closed unit.
// The receiver's small state goes by value; the gathered bits stand in an area of 279 octets that the caller lends.

#![tactic(auto)]

pub mod area;
pub mod delimit;
pub mod unit;

// The run of ones so far, 0 to 7; whether the receiver hunts for a flag; and how many bits are gathered in the area.
// `hunting` and `bits` are no enum: the C link (HostLine) shows both, and a link that hunts with bits is one that calls must refuse.
#[repr(C)]
#[derive(Clone, Copy, PartialEq, Eq)]
pub struct Line {
    pub run: u8,
    pub hunting: bool,
    pub bits: u16,
}

// What a bit may find. A closed unit of n bits stands at the front of the area, with the seven bits of its flag behind it,
// until the caller has used it and clears n + 7 bits.
#[derive(Clone, Copy, PartialEq, Eq)]
pub enum Found {
    Closed(u16),
    Abort,
    Long,
}

#[derive(Clone, Copy, PartialEq, Eq)]
pub struct Step {
    pub line: Line,
    pub found: Option<Found>,
}

// Where reading an octet stopped: at a finding, with `left` bits of it to come in `octet`, or at its end.
#[derive(Clone, Copy, PartialEq, Eq)]
pub struct Fed {
    pub step: Step,
    pub octet: u8,
    pub left: u8,
}

// What is to be said of a closed unit.
#[derive(Clone, Copy, PartialEq, Eq)]
pub enum Verdict {
    Short,
    NotWhole,
    CheckWrong,
    Good,
}
