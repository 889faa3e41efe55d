// The calls of a host, each made many times on one link of its own, for a program that times them: slices and numbers only.

#![tactic(auto)]

use board::Link;
use link::{Counted, Refusal};
use octet_reception::ByOctets;
use reception::{ByBits, Engine};

// The length of the unit that is read and handed back.
const UNIT: u16 = 5;

// The sum with one number more; only the low part of it matters.
fn add(sum: usize, n: usize) -> usize {
    sum % 65536 + n % 65536
}

// A call so many times: the sum of what it answers.
fn repeat<F: FnMut() -> usize>(times: u64, mut call: F) -> usize
    requires { F.IsAlwaysCallable call }
{
    let mut sum = 0;
    for _ in 0..times {
        sum = add(sum, call());
    }
    sum
}

// The number that a host gets: 0, with the link after the call, or that of the refusal, which leaves the link as it was.
fn number(link: &mut Link, answer: Result<Link, Refusal>) -> usize {
    match answer {
        Ok(after) => {
            *link = after;
            0
        }
        Err(refusal) => usize::from(u8::from(refusal)),
    }
}

// What a call counted, with the link after it; a refused call counts nothing and leaves the link as it was.
fn count(link: &mut Link, answer: Result<Counted, Refusal>) -> usize {
    match answer {
        Ok(counted) => {
            *link = counted.link;
            counted.count
        }
        Err(_) => 0,
    }
}

// Each call is a function, here and below; alike ones differ in the call that they name, and one for several would have to choose it in the time taken.

// The wipe between bookings, and the next booking.
fn book(times: u64, pool: &mut [u8], descriptors: &mut [u16]) -> usize {
    repeat(times, || {
        let mut closed = calls::wipe(&mut *pool, &mut *descriptors);
        let settings = lineview_board::settings();
        let answer = calls::open(closed, settings, &mut *pool, &mut *descriptors);
        number(&mut closed, answer)
    })
}

// Starting the failure monitor. Here and below the link hangs on the answer before, so that no call can be left out.
fn command(link: Link, times: u64) -> usize {
    let mut l = link;
    repeat(times, || {
        let answer = calls::command(l, 2);
        number(&mut l, answer)
    })
}

// Clearing an event bit.
fn clear(link: Link, times: u64) -> usize {
    let mut l = link;
    repeat(times, || {
        let answer = calls::clear(l, Link::EVENT_SUER);
        number(&mut l, answer)
    })
}

// Marks the first slot as that of a good unit.
fn mark_filled(descriptors: &mut [u16]) {
    if let [status, length, ..] = descriptors {
        *status = Link::STATUS_GOOD;
        *length = UNIT;
    }
}

// Reading a unit: its number, and the part of the pool.
fn read(link: Link, times: u64, pool: &[u8], descriptors: &mut [u16]) -> usize {
    mark_filled(descriptors);
    let mut l = link;
    repeat(times, || {
        let number = calls::read_number(l, pool, descriptors, 0);
        let part = calls::read(l, pool, descriptors, 0);
        l.opened = number == 0;
        part.len()
    })
}

// Handing the first slot back, which is filled again each time.
fn hand_back(link: Link, times: u64, pool: &mut [u8], descriptors: &mut [u16]) -> usize {
    let mut l = link;
    repeat(times, || {
        mark_filled(&mut *descriptors);
        let answer = calls::hand_back(l, &mut *pool, &mut *descriptors, 0);
        number(&mut l, answer)
    })
}

// The same line octets received each time, by one of the engines.
fn receive<E: Engine>(
    link: Link,
    times: u64,
    line: &[u8],
    pool: &mut [u8],
    descriptors: &mut [u16],
    records: &mut [u8],
) -> usize {
    let mut l = link;
    repeat(times, || {
        let got = input::receive_by::<E>(l, line, &mut *pool, &mut *descriptors, &mut *records);
        count(&mut l, got)
    })
}

// Sending one content: how many octets were put out.
fn send(link: Link, times: u64, content: &[u8], output: &mut [u8]) -> usize {
    let mut l = link;
    repeat(times, || {
        let answer = calls::send(l, content, &mut *output);
        count(&mut l, answer)
    })
}

// Fills after one content: how many octets were put out by the fills.
fn fill(link: Link, times: u64, content: &[u8], output: &mut [u8]) -> usize {
    let mut l = link;
    let first = calls::send(l, content, &mut *output);
    let _ = count(&mut l, first);
    repeat(times, || {
        let answer = calls::fill(l, &mut *output);
        count(&mut l, answer)
    })
}

// A call so many times on a new link of row 1 with 16 slots: 0 wipe and open, 1 command, 2 clear, 3 read_number and read, 4 hand back,
// 5 receive, 6 receive_octets, 7 send, 8 fill after a send. Any other is none. The sum of what the calls answered: numbers of 0, 1, 2 and
// 4, lengths of 3, counts of the others. The call is a number, and the areas come one by one, for the C interface. Pool and descriptors are zero, 4,480 octets and 32 words.
#[unsafe(no_mangle)]
pub extern "C" fn bench_calls(
    call: u64,
    times: u64,
    octets: &[u8],
    pool: &mut [u8],
    descriptors: &mut [u16],
    records: &mut [u8],
    output: &mut [u8],
) -> usize {
    let link = lineview_board::open_board(&mut *pool, &mut *descriptors);
    match call {
        0 => book(times, pool, descriptors),
        1 => command(link, times),
        2 => clear(link, times),
        3 => read(link, times, pool, descriptors),
        4 => hand_back(link, times, pool, descriptors),
        5 => receive::<ByBits>(link, times, octets, pool, descriptors, records),
        6 => receive::<ByOctets>(link, times, octets, pool, descriptors, records),
        7 => send(link, times, octets, output),
        8 => fill(link, times, octets, output),
        _ => 0,
    }
}
