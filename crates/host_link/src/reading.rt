// A link and settings from the numbers that a host gives, field by field: the C structs have an order and types of their own.
ghost use Rattle.std.specs.Prelude.{◌≡◌};
ghost use Rattle.host_link.specs.Crossing.{switch_read, mode_read, settings_read, given_settings, transmitter_read, link_read, from_host};

use crate::{HostLink, HostSettings, HostTransmitter};
use board::{Counting, Gathering, Link, Settings, Slots, Supervision, Transmitter, UnitState};
use filter::Memory;
use framing::Line;
use monitor::{Mode, Monitor};

// The switch of a number, 0 or 1. A function, as the next is, since neither type is this crate's, so that no TryFrom can stand here; beside Mode it
// would serve this place alone.
fn switch(n: u8) -> Option<bool>
    ensures { result ≡ switch_read n }
{
    match n {
        0 => Some(false),
        1 => Some(true),
        _ => None,
    }
}

// The mode of a number, 0 to 3.
fn mode(n: u8) -> Option<Mode>
    ensures { result ≡ mode_read n }
{
    match n {
        0 => Some(Mode::Off),
        1 => Some(Mode::Failure),
        2 => Some(Mode::Alignment),
        3 => Some(Mode::Idle),
        _ => None,
    }
}

// Settings, where the three switches are switches.
fn settings(s: HostSettings) -> Option<Settings>
    ensures { result ≡ settings_read s }
{
    Some(Settings {
        k: s.k,
        m: s.m,
        n: s.n,
        t: s.t,
        d: s.d,
        a: s.a,
        mask: s.mask,
        filter: switch(s.filter)?,
        itu: switch(s.itu)?,
        orn: switch(s.orn)?,
    })
}

// The sender between calls, where both switches are switches.
fn transmitter(t: HostTransmitter) -> Option<Transmitter>
    ensures { result ≡ transmitter_read t }
{
    Some(Transmitter {
        flagged: switch(t.flagged)?,
        count: t.count,
        wait: t.wait,
        sent: switch(t.sent)?,
        last: t.last,
    })
}

// The link, where every switch is a switch and the mode is a mode.
#[tactic(auto, unfolding(crate::specs::Crossing::readable))]
fn link(h: HostLink) -> Option<Link>
    ensures { result ≡ link_read h }
{
    Some(Link {
        opened: switch(h.opened)?,
        settings: settings(h.settings)?,
        line: Gathering {
            state: Line {
                run: h.line.run,
                hunting: switch(h.line.hunting)?,
                bits: h.line.bits,
            },
            area: h.area,
        },
        units: UnitState {
            counting: Counting {
                on: switch(h.counting)?,
                left: h.left,
            },
            memory: Memory {
                length: h.memory.length,
                octets: h.memory.octets,
                alike: switch(h.memory.alike)?,
            },
            slots: Slots { next: h.next },
            counts: h.counts,
        },
        supervision: Supervision {
            monitor: Monitor {
                mode: mode(h.mode)?,
                count: h.monitor.count,
                number: h.monitor.number,
            },
            events: h.events,
        },
        transmitter: transmitter(h.transmitter)?,
    })
}

// With a switch that is none, settings out of range, which open refuses.
#[tactic(auto, unfolding(crate::specs::Crossing::given_settings))]
impl From<HostSettings> for Settings {
    ghost from_gives = { λ s r. r ≡ given_settings s };

    fn from(s: HostSettings) -> Settings {
        settings(s).unwrap_or_else(|| Link::new().settings)
    }
}

// With a switch or the mode that is none, a malformed link, which every call but wipe refuses: open, with K = 0.
#[tactic(auto, unfolding(crate::specs::Crossing::from_host))]
impl From<HostLink> for Link {
    ghost from_gives = { λ h r. r ≡ from_host h };

    fn from(h: HostLink) -> Link {
        link(h).unwrap_or_else(|| Link {
            opened: true,
            ..Link::new()
        })
    }
}
