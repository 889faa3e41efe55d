// The link as a host in C or Rust holds it: every field a number or an array of octets, so that no octet of it can be one that the language does not see.

#![tactic(auto)]

use board::Counts;

pub mod answers;
mod reading;
mod showing;

// What a booking says; the three switches are 0 or 1.
#[repr(C)]
#[derive(Clone, Copy)]
pub struct HostSettings {
    pub k: u16,
    pub m: u16,
    pub n: u16,
    pub t: u16,
    pub d: u16,
    pub a: u16,
    pub mask: [u8; 5],
    pub filter: u8,
    pub itu: u8,
    pub orn: u8,
}

// The monitor's count and event number.
#[repr(C)]
#[derive(Clone, Copy)]
pub struct HostMonitor {
    pub count: u16,
    pub number: u16,
}

// The filter's memory; alike is 0 or 1.
#[repr(C)]
#[derive(Clone, Copy)]
pub struct HostMemory {
    pub length: u16,
    pub octets: [u8; 5],
    pub alike: u8,
}

// The receiver of line bits; hunting is 0 or 1.
#[repr(C)]
#[derive(Clone, Copy)]
pub struct HostLine {
    pub bits: u16,
    pub run: u8,
    pub hunting: u8,
}

// The sender between calls; flagged and sent are 0 or 1.
#[repr(C)]
#[derive(Clone, Copy)]
pub struct HostTransmitter {
    pub flagged: u8,
    pub count: u8,
    pub wait: u8,
    pub sent: u8,
    pub last: [u8; 2],
}

// The link, words before octets, so that no octet of it is padding: 338 octets. The mode is 0 off, 1 failure, 2 alignment, 3 idle; opened and
// counting are 0 or 1.
#[repr(C)]
#[derive(Clone, Copy)]
pub struct HostLink {
    pub settings: HostSettings,
    pub counts: Counts,
    pub monitor: HostMonitor,
    pub events: u16,
    pub next: u16,
    pub left: u16,
    pub memory: HostMemory,
    pub line: HostLine,
    pub transmitter: HostTransmitter,
    pub opened: u8,
    pub counting: u8,
    pub mode: u8,
    pub area: [u8; 279],
}
