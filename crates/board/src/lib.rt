// The link as a value: its parts, the new link, the limits by name, the ready settings, and when a link is malformed.

#![tactic(auto)]

use filter::Memory;
use framing::Line;
use monitor::{Mode, Monitor};

pub mod events;
pub mod limits;
pub mod rows;

ghost use Rattle.std.specs.Prelude.{◌≡◌};
ghost use Rattle.board.specs.Link.{new_link, new_line, new_settings, new_units, new_supervision, new_transmitter};

// What a booking says: K slots, the longest unit M, N, T, D and A, the mask, and the three switches.
#[repr(C)]
#[derive(Clone, Copy, PartialEq, Eq)]
pub struct Settings {
    pub k: u16,
    pub m: u16,
    pub n: u16,
    pub t: u16,
    pub d: u16,
    pub a: u16,
    pub mask: [u8; 5],
    pub filter: bool,
    pub itu: bool,
    pub orn: bool,
}

// The receiver of line bits: its small state and the gathering area.
#[repr(C)]
#[derive(Clone, Copy, PartialEq, Eq)]
pub struct Gathering {
    pub state: Line,
    pub area: [u8; 279],
}

// Octet counting: whether it is on, and N's counter, which runs at all times and so is no Option.
#[repr(C)]
#[derive(Clone, Copy, PartialEq, Eq)]
pub struct Counting {
    pub on: bool,
    pub left: u16,
}

// The slot that the next unit goes to.
#[repr(C)]
#[derive(Clone, Copy, PartialEq, Eq)]
pub struct Slots {
    pub next: u16,
}

// Good units, and of those the units handed over, dropped and lost; each goes round to 0 after 65,535.
#[repr(C)]
#[derive(Clone, Copy, PartialEq, Eq)]
pub struct Counts {
    pub good: u16,
    pub over: u16,
    pub dropped: u16,
    pub lost: u16,
}

// The sender between calls: whether a flag has gone, the waiting bits, and the last content's first two octets, if content was sent.
// `flagged` and the waiting bits, `sent` and `last` are no Options, since the C link (HostTransmitter) shows each, and what it shows comes back.
#[repr(C)]
#[derive(Clone, Copy, PartialEq, Eq)]
pub struct Transmitter {
    pub flagged: bool,
    pub count: u8,
    pub wait: u8,
    pub sent: bool,
    pub last: [u8; 2],
}

// What deals with units: octet counting, the filter's memory, the next slot, the counts.
#[repr(C)]
#[derive(Clone, Copy, PartialEq, Eq)]
pub struct UnitState {
    pub counting: Counting,
    pub memory: Memory,
    pub slots: Slots,
    pub counts: Counts,
}

// The monitor and the event bits.
#[derive(Clone, Copy, PartialEq, Eq)]
pub struct Supervision {
    pub monitor: Monitor,
    pub events: u16,
}

// `opened` is no Option around the rest: the C link (HostLink) shows a closed link's numbers, and calls must refuse one that is not the new link.
#[derive(Clone, Copy, PartialEq, Eq)]
pub struct Link {
    pub opened: bool,
    pub settings: Settings,
    pub line: Gathering,
    pub units: UnitState,
    pub supervision: Supervision,
    pub transmitter: Transmitter,
}

impl Link {
    // Octets of a slot.
    pub const SLOT: usize = memory::SLOT;
    // Most slots; shortest and longest M; the most that N, T, D and A can be; least is 1 for K, N, T, D and A.
    pub const MOST_SLOTS: u16 = 16;

    pub const LEAST_LONGEST: u16 = 7;

    pub const MOST_LONGEST: u16 = 278;

    pub const MOST_COUNT: u16 = 1024;
    // Most line octets of a receive, octets of one record, octets of records for one line octet.
    pub const MOST_LINE: usize = 1024;

    pub const RECORD: usize = 16;

    pub const RECORDS: usize = 3 * Link::RECORD;
    // Least octets of an output area, shortest and longest content.
    pub const OUTPUT: usize = 336;

    pub const LEAST_CONTENT: usize = 3;

    pub const MOST_CONTENT: usize = 276;
    // A descriptor's status.
    pub const STATUS_EMPTY: u16 = memory::STATUS_EMPTY;

    pub const STATUS_GOOD: u16 = 0;

    pub const STATUS_CHECK_WRONG: u16 = 1;

    pub const STATUS_NOT_WHOLE: u16 = 2;
    // Event bits, as words with that bit alone.
    pub const EVENT_OVER: u16 = 1;

    pub const EVENT_BUSY: u16 = 2;

    pub const EVENT_SUER: u16 = 4;

    pub const EVENT_AERM: u16 = 8;

    pub const EVENT_OCTET: u16 = 16;

    pub const EVENT_ABORT: u16 = 32;

    pub const EVENT_LONG: u16 = 64;

    pub const EVENT_SENT: u16 = 128;

    pub const EVENT_FILL: u16 = 256;

    // The new link, which is closed.
    pub fn new() -> Self
        ensures { result ≡ new_link }
    {
        Self {
            opened: false,
            settings: no_settings(),
            line: new_line(),
            units: new_units(),
            supervision: new_supervision(),
            transmitter: new_transmitter(),
        }
    }
}

// A receiver that has read seven ones and hunts, with no bits in its gathering area.
#[tactic(auto, unfolding(crate::specs::Link::clear_area))]
fn new_line() -> Gathering
    ensures { result ≡ new_line }
{
    Gathering {
        state: Line {
            run: 7,
            hunting: true,
            bits: 0,
        },
        area: [0; 279],
    }
}

// No octet counting, nothing remembered, all counts zero.
fn new_units() -> UnitState
    ensures { result ≡ new_units }
{
    UnitState {
        counting: Counting { on: false, left: 0 },
        memory: Memory::empty(),
        slots: Slots { next: 0 },
        counts: Counts {
            good: 0,
            over: 0,
            dropped: 0,
            lost: 0,
        },
    }
}

// The monitor off, no event bit set.
fn new_supervision() -> Supervision
    ensures { result ≡ new_supervision }
{
    Supervision {
        monitor: Monitor::started(Mode::Off),
        events: 0,
    }
}

// The settings of a link that is not open.
fn no_settings() -> Settings
    ensures { result ≡ new_settings }
{
    Settings {
        k: 0,
        m: 0,
        n: 0,
        t: 0,
        d: 0,
        a: 0,
        mask: [0; 5],
        filter: false,
        itu: false,
        orn: false,
    }
}

// A sender from which nothing has gone out.
fn new_transmitter() -> Transmitter
    ensures { result ≡ new_transmitter }
{
    Transmitter {
        flagged: false,
        count: 0,
        wait: 0,
        sent: false,
        last: [0; 2],
    }
}
