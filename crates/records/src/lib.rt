// What happens on a link, what the monitor makes of it, and its record of sixteen octets.

#![tactic(auto)]

ghost use Rattle.std.specs.Prelude.{◌≡◌, ◌+◌, ◌*◌, ◌≤◌, ◌<◌, length};
ghost use Rattle.board.specs.Limits.{record_octets};
ghost use Rattle.std.proofs.lemmas.List.Edits.{sets};
ghost use Rattle.records.specs.Happening.{alarm_bit, noted};
ghost use Rattle.records.specs.Kinds.{kind_number};
ghost use Rattle.records.specs.Record.{low-high, record_of};

use board::{Link, Supervision};
use monitor::{Alarm, Limits};

// What a record tells of.
#[derive(Clone, Copy, PartialEq, Eq)]
pub enum RecordKind {
    HandedOver,
    Dropped,
    Lost,
    CheckWrong,
    NotWhole,
    Short,
    Long,
    Abort,
    Tick,
}

// One thing that happens: its record's kind, whether a unit was lost for want of a slot, the unit's length and first five octets, the
// good count then, whether the monitors take it as an event and as an errored one, and the event bits that it sets by itself.
// `event` and `errored` are no Option<bool>, which is no plainer: Some(true) and Some(false) say less than the two names, and the definitions of
// the alarm over lists of calls (promises/specs) read each by its name.
#[derive(Clone, Copy, PartialEq, Eq)]
pub struct Happening {
    pub kind: RecordKind,
    pub lost: bool,
    pub length: u16,
    pub first: [u8; 5],
    pub good: u16,
    pub event: bool,
    pub errored: bool,
    pub bits: u16,
}

// What a happening leaves: monitor and event bits, and whether it raised SUER or AERM.
#[derive(Clone, Copy, PartialEq, Eq)]
pub struct Noted {
    pub supervision: Supervision,
    pub raised: bool,
}

// The event bit that an alarm sets. A match, since no alarm sets none; a From would serve this place alone.
fn alarm_bit(alarm: Option<Alarm>) -> u16
    ensures { result ≡ alarm_bit alarm }
{
    match alarm {
        None => 0,
        Some(Alarm::Suer) => Link::EVENT_SUER,
        Some(Alarm::Aerm) => Link::EVENT_AERM,
    }
}

// One happening: the monitor takes it if it is an event; the event bits are kept and those of the happening and of an alarm are set.
#[tactic(auto, unfolding(crate::specs::Happening::noted))]
pub fn note(limits: Limits, supervision: Supervision, h: Happening) -> Noted
    requires { (supervision.monitor.count < 65535) × (supervision.monitor.number < 65535) }
    ensures { result ≡ noted limits supervision h }
{
    let own = supervision.events | h.bits;
    if h.event {
        let stepped = supervision.monitor.step(limits, h.errored);
        return Noted {
            supervision: Supervision {
                monitor: stepped.monitor,
                events: own | alarm_bit(stepped.alarm),
            },
            raised: stepped.alarm.is_some(),
        };
    }
    Noted {
        supervision: Supervision {
            events: own,
            ..supervision
        },
        raised: false,
    }
}

// A kind's number in a record.
impl From<RecordKind> for u8 {
    fn from(kind: RecordKind) -> u8
        ensures { result ≡ kind_number kind }
    {
        kind as u8
    }
}

// A word's octets, low octet first.
fn low_high(word: u16) -> [u8; 2]
    ensures { result ≡ low-high word }
{
    word.to_le_bytes()
}

// The octets of a record.
fn record(h: Happening, count: u16, raised: bool) -> [u8; 16]
    ensures { result ≡ record_of h count raised }
{
    let [length_low, length_high] = low_high(h.length);
    let [count_low, count_high] = low_high(count);
    let [good_low, good_high] = low_high(h.good);
    let [a, b, c, d, e] = h.first;
    [
        u8::from(h.kind),
        u8::from(h.lost),
        length_low,
        length_high,
        count_low,
        count_high,
        good_low,
        good_high,
        a,
        b,
        c,
        d,
        e,
        u8::from(raised),
        0,
        0,
    ]
}

// Writes the record of a happening at place n of the record area.
pub fn write_record(records: &mut [u8], n: usize, h: Happening, count: u16, raised: bool)
    requires { record_octets * n + record_octets ≤ length records.old }
    ensures { records.new ≡ sets records.old (record_octets * n) (record_of h count raised) }
{
    let at = Link::RECORD * n;
    records[at..at + Link::RECORD].copy_from_slice(&record(h, count, raised));
}
