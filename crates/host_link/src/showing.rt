// A link as the numbers that a host holds, field by field: the C structs have an order and types of their own.
ghost use Rattle.std.specs.Prelude.{◌≡◌};
ghost use Rattle.host_link.specs.Crossing.{host_settings, host_transmitter, to_host};

use crate::{HostLine, HostLink, HostMemory, HostMonitor, HostSettings, HostTransmitter};
use board::{Link, Settings, Transmitter};
use filter::Memory;
use framing::Line;

impl From<Settings> for HostSettings {
    ghost from_gives = { λ s r. r ≡ host_settings s };

    fn from(s: Settings) -> HostSettings {
        let mask = s.mask;
        HostSettings {
            k: s.k,
            m: s.m,
            n: s.n,
            t: s.t,
            d: s.d,
            a: s.a,
            mask,
            filter: u8::from(s.filter),
            itu: u8::from(s.itu),
            orn: u8::from(s.orn),
        }
    }
}

impl From<Transmitter> for HostTransmitter {
    ghost from_gives = { λ t r. r ≡ host_transmitter t };

    fn from(t: Transmitter) -> HostTransmitter {
        let last = t.last;
        HostTransmitter {
            flagged: u8::from(t.flagged),
            count: t.count,
            wait: t.wait,
            sent: u8::from(t.sent),
            last,
        }
    }
}

impl From<Link> for HostLink {
    ghost from_gives = { λ l r. r ≡ to_host l };

    fn from(l: Link) -> HostLink {
        let Memory {
            length,
            octets,
            alike,
        } = l.units.memory;
        let Line { run, hunting, bits } = l.line.state;
        let monitor = l.supervision.monitor;
        let counts = l.units.counts;
        let area = l.line.area;
        HostLink {
            settings: HostSettings::from(l.settings),
            counts,
            monitor: HostMonitor {
                count: monitor.count,
                number: monitor.number,
            },
            events: l.supervision.events,
            next: l.units.slots.next,
            left: l.units.counting.left,
            memory: HostMemory {
                length,
                octets,
                alike: u8::from(alike),
            },
            line: HostLine {
                bits,
                run,
                hunting: u8::from(hunting),
            },
            transmitter: HostTransmitter::from(l.transmitter),
            opened: u8::from(l.opened),
            counting: u8::from(l.units.counting.on),
            // the mode's own number, which the equation of this function ties to that of the C interface
            mode: monitor.mode as u8,
            area,
        }
    }
}
