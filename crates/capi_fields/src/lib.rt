// Exported for the test of the header alone: the fields of a host's link, each read by its name.

#![tactic(auto)]

use host_link::HostLink;

// The fields but the gathering area, in the order of the header; arrays octet by octet.
fn fields(link: HostLink) -> [u16; 42] {
    let s = link.settings;
    let mask = s.mask;
    let octets = link.memory.octets;
    let last = link.transmitter.last;
    [
        s.k,
        s.m,
        s.n,
        s.t,
        s.d,
        s.a,
        u16::from(mask[0]),
        u16::from(mask[1]),
        u16::from(mask[2]),
        u16::from(mask[3]),
        u16::from(mask[4]),
        u16::from(s.filter),
        u16::from(s.itu),
        u16::from(s.orn),
        link.counts.good,
        link.counts.over,
        link.counts.dropped,
        link.counts.lost,
        link.monitor.count,
        link.monitor.number,
        link.events,
        link.next,
        link.left,
        link.memory.length,
        u16::from(octets[0]),
        u16::from(octets[1]),
        u16::from(octets[2]),
        u16::from(octets[3]),
        u16::from(octets[4]),
        u16::from(link.memory.alike),
        link.line.bits,
        u16::from(link.line.run),
        u16::from(link.line.hunting),
        u16::from(link.transmitter.flagged),
        u16::from(link.transmitter.count),
        u16::from(link.transmitter.wait),
        u16::from(link.transmitter.sent),
        u16::from(last[0]),
        u16::from(last[1]),
        u16::from(link.opened),
        u16::from(link.counting),
        u16::from(link.mode),
    ]
}

// The field of a number: those above, then the octets of the gathering area; 0 from there on.
#[unsafe(no_mangle)]
pub extern "C" fn pj_field(link: HostLink, number: usize) -> u16 {
    let values = fields(link);
    let area = link.area;
    if number < 42 {
        values[number]
    } else if number < 321 {
        u16::from(area[number - 42])
    } else {
        0
    }
}
