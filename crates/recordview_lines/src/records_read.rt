// What the sixteen octets of a record say.

ghost use Rattle.std.specs.Prelude.{◌≡◌, ◌<◌, ◌∷◌, [], length, IfSome, IfNone, MatchOption};
ghost use Rattle.bits.specs.Octets.{worth};
ghost use Rattle.records.specs.Kinds.{kind_number};
ghost use Rattle.records.specs.Record.{low-high};
ghost use Rattle.recordview_lines.specs.Reading.{octets_of, word, kind_in, switch_in, record_in};

use records::RecordKind;

// What a record holds: its kind, whether a unit was lost for want of a slot, the unit's length and first five octets, the monitor's count
// and the good count then, and whether it raised an alarm.
#[derive(Clone, Copy, PartialEq, Eq)]
pub struct Record {
    pub kind: RecordKind,
    pub lost: bool,
    pub length: u16,
    pub count: u16,
    pub good: u16,
    pub first: [u8; 5],
    pub alarm: bool,
}

// The kind that has this number.
fn kind(number: u8) -> Option<RecordKind>
    ensures value { result ≡ kind_in number }
    ensures cases { MatchOption result (8 < number) (λ k. kind_number k ≡ number) }
{
    match number {
        0 => Some(RecordKind::HandedOver),
        1 => Some(RecordKind::Dropped),
        2 => Some(RecordKind::Lost),
        3 => Some(RecordKind::CheckWrong),
        4 => Some(RecordKind::NotWhole),
        5 => Some(RecordKind::Short),
        6 => Some(RecordKind::Long),
        7 => Some(RecordKind::Abort),
        8 => Some(RecordKind::Tick),
        _ => None,
    }
}

// A switch, 0 or 1.
fn switch(octet: u8) -> Option<bool>
    ensures value { result ≡ switch_in octet }
    ensures cases { MatchOption result (1 < octet) (λ is_on. worth is_on ≡ octet) }
{
    match octet {
        0 => Some(false),
        1 => Some(true),
        _ => None,
    }
}

// A number of sixteen bits.
fn word(low: u8, high: u8) -> u16
    ensures value { result ≡ word low high }
    ensures octets { low-high result ≡ low ∷ high ∷ [] }
{
    u16::from(high) * 256 + u16::from(low)
}

impl Record {
    // The record of which receive writes these octets; none if there is no such record.
    #[tactic(auto, unfolding(crate::specs::Reading::record_in))]
    pub fn read(octets: [u8; 16]) -> Option<Record>
        ensures value { result ≡ record_in octets }
        ensures some { IfSome result (λ r. octets_of r ≡ octets) }
        ensures none { IfNone result ((r : Record) → length r.first ≡ 5 → octets_of r ≡ octets → ⊥) }
    {
        let [
            kind_number,
            lost,
            length_low,
            length_high,
            count_low,
            count_high,
            good_low,
            good_high,
            a,
            b,
            c,
            d,
            e,
            alarm,
            spare_low,
            spare_high,
        ] = octets;
        // nothing stands in the last two octets
        if word(spare_low, spare_high) != 0 {
            return None;
        }
        Some(Record {
            kind: kind(kind_number)?,
            lost: switch(lost)?,
            length: word(length_low, length_high),
            count: word(count_low, count_high),
            good: word(good_low, good_high),
            first: [a, b, c, d, e],
            alarm: switch(alarm)?,
        })
    }
}
