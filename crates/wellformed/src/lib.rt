// The tests for a malformed link and for settings out of range, which nearly every call makes first.

#![tactic(auto)]

ghost use Rattle.std.specs.Prelude.{◌≡◌, false};
ghost use Rattle.bits.specs.Format.{basic};
ghost use Rattle.board.specs.Malformed.{zero_past, within, in_range, line_out, counter_out, count_out, monitor_out, transmitter_out, open_malformed, is_new, malformed};

use board::{Counting, Link, Settings, Transmitter};
use framing::Line;
use monitor::{Mode, Monitor};

// Whether octets are zero past their first bits.
fn zero_past(octets: &[u8], bits: u16) -> bool
    ensures { result ≡ zero_past bits octets.now }
{
    let at = usize::from(bits / 8);
    if at >= octets.len() {
        return true;
    }
    ((octets[at] >> (bits % 8)) | memory::or_from(octets, at + 1)) == 0
}

// Whether a number is one of a range.
fn within(least: u16, most: u16, n: u16) -> bool
    ensures { result ≡ within least most n }
{
    (least..=most).contains(&n)
}

// Whether every setting is in range.
#[tactic(auto, unfolding(board::specs::Malformed::in_range))]
pub fn in_range(s: Settings) -> bool
    ensures { result ≡ in_range basic s }
{
    within(1, Link::MOST_SLOTS, s.k)
        & within(Link::LEAST_LONGEST, Link::MOST_LONGEST, s.m)
        & within(1, Link::MOST_COUNT, s.n)
        & within(1, Link::MOST_COUNT, s.t)
        & within(1, Link::MOST_COUNT, s.d)
        & within(1, Link::MOST_COUNT, s.a)
}

// Whether the receiver's numbers are out of range.
#[tactic(auto, unfolding(board::specs::Malformed::line_out))]
fn line_out(m: u16, line: Line) -> bool
    ensures { result ≡ line_out m line }
{
    let most = 8 * u32::from(m) + 7;
    (7 < line.run) | (most < u32::from(line.bits)) | (line.hunting & (0 < line.bits))
}

// Whether N's counter is out of range.
#[tactic(auto, unfolding(board::specs::Malformed::counter_out))]
fn counter_out(n: u16, counting: Counting) -> bool
    ensures { result ≡ counter_out n counting }
{
    (counting.left < 1) | (n < counting.left)
}

// Whether the monitor's numbers are out of range.
#[tactic(auto, unfolding(board::specs::Malformed::monitor_out))]
fn monitor_out(s: Settings, m: Monitor) -> bool
    ensures { result ≡ monitor_out s m }
{
    (s.d <= m.number) | count_out(m.mode, s, m.count)
}

// Whether the monitor's count is out of range for its mode.
fn count_out(mode: Mode, s: Settings, count: u16) -> bool
    ensures { result ≡ count_out mode s count }
{
    match mode {
        Mode::Failure => s.t <= count,
        Mode::Alignment => s.a <= count,
        Mode::Idle | Mode::Off => Link::MOST_COUNT < count,
    }
}

// Whether the sender's numbers are out of range.
#[tactic(auto, unfolding(board::specs::Malformed::transmitter_out))]
fn transmitter_out(t: Transmitter) -> bool
    ensures { result ≡ transmitter_out t }
{
    (7 < t.count) | (!t.flagged & (0 < t.count)) | !zero_past(&[t.wait], u16::from(t.count))
}

// Whether an open link is out of order.
#[tactic(auto, unfolding(board::specs::Malformed::open_malformed))]
fn open_malformed(link: &Link) -> bool
    ensures { result ≡ open_malformed link.now }
{
    let s = link.settings;
    !zero_past(&link.line.area, link.line.state.bits)
        | !in_range(s)
        | line_out(s.m, link.line.state)
        | counter_out(s.n, link.units.counting)
        | monitor_out(s, link.supervision.monitor)
        | (s.k <= link.units.slots.next)
        | transmitter_out(link.transmitter)
}

// Whether a link is the new link, open or not. It comes by value, since that tells the proof the lengths of its arrays.
fn is_new(link: Link) -> bool
    ensures { result ≡ is_new link }
{
    let closed = Link {
        opened: false,
        ..link
    };
    closed == Link::new()
}

// Whether a link is malformed.
pub fn is_malformed(link: &Link) -> bool
    ensures { result ≡ malformed link.now }
{
    if link.opened {
        open_malformed(link)
    } else {
        !is_new(*link)
    }
}
