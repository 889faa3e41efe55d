// A whole line through one link of its own, for crates that export it to programs that measure or compare: slices and numbers only.

#![tactic(auto)]

use board::{Link, Settings};
use reception::Engine;

// Where a run stands: the link, the records of the last call, those of all calls, and how far the output area is written.
#[derive(Clone, Copy)]
struct Run {
    link: Link,
    last: usize,
    total: usize,
    written: usize,
}

// Row 1 with 16 slots and the mask all ones. The switches are the number's bits, as the exported functions take them: 0 filter, 1 itu, 2 orn.
fn settings(switches: u64) -> Settings {
    Settings {
        filter: switches % 2 == 1,
        itu: switches / 2 % 2 == 1,
        orn: switches / 4 % 2 == 1,
        ..lineview_board::settings()
    }
}

// Fixed memory: the output area is lent, and `written` says how far it is written.
// Octets behind those that the output area has already. Where they do not fit, the area counts as full.
fn put(octets: &[u8], output: &mut [u8], written: usize) -> usize {
    if written <= output.len() && octets.len() <= output.len() - written {
        let end = written + octets.len();
        output[written..end].copy_from_slice(octets);
        end
    } else {
        output.len()
    }
}

// The numbers and switches of a link: all of it but its arrays. Field by field, since the benchmark compares them in this order.
fn words_of(link: &Link) -> [u16; 30] {
    let s = link.settings;
    let state = link.line.state;
    let units = link.units;
    let monitor = link.supervision.monitor;
    let t = link.transmitter;
    [
        u16::from(link.opened),
        s.k,
        s.m,
        s.n,
        s.t,
        s.d,
        s.a,
        u16::from(s.filter),
        u16::from(s.itu),
        u16::from(s.orn),
        u16::from(state.run),
        u16::from(state.hunting),
        state.bits,
        u16::from(units.counting.on),
        units.counting.left,
        units.memory.length,
        u16::from(units.memory.alike),
        units.slots.next,
        units.counts.good,
        units.counts.over,
        units.counts.dropped,
        units.counts.lost,
        // the mode's own number; a From for it would serve this place and host_link's, each of which has a bound of its own
        monitor.mode as u16,
        monitor.count,
        monitor.number,
        link.supervision.events,
        u16::from(t.flagged),
        u16::from(t.count),
        u16::from(t.wait),
        u16::from(t.sent),
    ]
}

// Words as octets, the low one first.
fn octets_of_words(words: &[u16; 30]) -> [u8; 60] {
    let mut octets = [0; 60];
    for (i, word) in words.iter().enumerate() {
        octets[2 * i..2 * i + 2].copy_from_slice(&word.to_le_bytes());
    }
    octets
}

// All of a link behind what the output area has: its numbers, then its arrays.
fn put_link(link: &Link, output: &mut [u8], written: usize) {
    let numbers = octets_of_words(&words_of(link));
    let mut end = written;
    for part in [
        &numbers[..],
        &link.line.area[..],
        &link.settings.mask[..],
        &link.units.memory.octets[..],
        &link.transmitter.last[..],
    ] {
        end = put(part, output, end);
    }
}

// One call: the slots that the last one filled are handed back, line octets go in, and their records come out. Without a record no slot was filled.
fn turn<E: Engine>(
    run: Run,
    octets: &[u8],
    pool: &mut [u8],
    descriptors: &mut [u16],
    records: &mut [u8],
    output: &mut [u8],
) -> Run {
    if run.last != 0 {
        lineview_board::hand_back_filled(run.link, &mut *pool, &mut *descriptors);
    }
    // a refused call takes nothing in
    let Ok(got) = input::receive_by::<E>(run.link, octets, pool, descriptors, &mut *records) else {
        return Run { last: 0, ..run };
    };
    let n = lineview_board::octets_of(got.count, records);
    Run {
        link: got.link,
        last: got.count,
        total: run.total.saturating_add(got.count),
        written: put(&records[..n], output, run.written),
    }
}

// A line through a new link of row 1 with 16 slots, in calls of these lengths in turn, of one octet at least: how many records came.
// Pool and descriptors are zero, 4,480 octets and 32 words; the record area has 48 octets for each octet of the longest call. The records
// of all calls and then the link stand one after the other in the output area, as long as they fit. The slots that the last call filled
// stay as they are. The areas come one by one, as the exported functions are lent them.
pub fn run_line<E: Engine>(
    switches: u64,
    lengths: &[u16],
    line: &[u8],
    pool: &mut [u8],
    descriptors: &mut [u16],
    records: &mut [u8],
    output: &mut [u8],
) -> usize {
    let link = lineview_board::open_booking(settings(switches), &mut *pool, &mut *descriptors);
    let mut run = Run {
        link,
        last: 0,
        total: 0,
        written: 0,
    };
    let mut calls = lengths.iter().cycle();
    let mut left = line;
    // a turn takes the octets of one call, whose number `lengths` gives
    while !left.is_empty() {
        let call = calls.next().map_or(1, |n| usize::from(*n).max(1));
        let (octets, rest) = left.split_at(call.min(left.len()));
        run = turn::<E>(
            run,
            octets,
            &mut *pool,
            &mut *descriptors,
            &mut *records,
            &mut *output,
        );
        left = rest;
    }
    put_link(&run.link, output, run.written);
    run.total
}
