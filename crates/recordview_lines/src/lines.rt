// The line of a record.

ghost use Rattle.std.specs.Prelude.{◌≡◌, Some};
ghost use Rattle.recordview_lines.specs.Lines.{mark_text, has_unit, unit_text, record_text, octets_text, times_text, run_text, torn_text};

use crate::headers::{HeaderText, header_in};
use crate::names::KindText;
use crate::records_read::Record;
use records::RecordKind;
use std::fmt;
use text::Hex;

// Words that stand where something holds.
fn mark(is_on: bool, words: &'static str) -> &'static str
    ensures { result.now ≡ mark_text is_on words.now }
{
    if is_on { words } else { "" }
}

// Whether a record of this kind tells of a unit.
fn has_unit(kind: RecordKind) -> bool
    ensures { result ≡ has_unit kind }
{
    !matches!(
        kind,
        RecordKind::Long | RecordKind::Abort | RecordKind::Tick
    )
}

// A unit's length and its first octets, two spaces before them; nothing where the record tells of no unit.
#[derive(Clone, Copy)]
struct UnitText(Record);

impl fmt::Display for UnitText {
    ghost output = { λ unit. Some (unit_text unit.0) };

    fn fmt<W: fmt::Write>(&self, f: &mut fmt::Formatter<W>) -> fmt::Result {
        if !has_unit(self.0.kind) {
            return Ok(());
        }
        let length = self.0.length;
        let shown = usize::from(length).min(5);
        let first = Hex(&self.0.first[..shown]);
        write!(f, "  {length} octets {first}")
    }
}

impl fmt::Display for Record {
    ghost output = { λ r. Some (record_text r) };

    #[tactic(auto, unfolding(crate::specs::Lines::record_text))]
    fn fmt<W: fmt::Write>(&self, f: &mut fmt::Formatter<W>) -> fmt::Result {
        let kind = KindText {
            kind: self.kind,
            length: self.length,
        };
        let lost = mark(self.lost, "  no slot");
        let unit = UnitText(*self);
        let header = HeaderText(header_in(*self));
        let count = self.count;
        let good = self.good;
        let alarm = mark(self.alarm, "  ALARM");
        write!(
            f,
            "{kind}{lost}{unit}{header}  monitor {count}  good {good}{alarm}"
        )
    }
}

// Sixteen octets as they are shown: the record that they are, or the octets where they are none.
#[derive(Clone, Copy)]
struct OctetsText([u8; 16]);

impl fmt::Display for OctetsText {
    ghost output = { λ octets. Some (octets_text octets.0) };

    #[tactic(auto, unfolding(crate::specs::Lines::octets_text))]
    fn fmt<W: fmt::Write>(&self, f: &mut fmt::Formatter<W>) -> fmt::Result {
        match Record::read(self.0) {
            Some(record) => write!(f, "{record}"),
            None => {
                let octets = Hex(&self.0);
                write!(f, "no record  {octets}")
            }
        }
    }
}

// Records in a row that are the same but for the two counts, and share a line: the last of them, and how many they are.
#[derive(Clone, Copy)]
pub struct Run {
    pub octets: [u8; 16],
    pub times: u64,
}

// How many there are, where there are more than one.
#[derive(Clone, Copy)]
struct TimesText(u64);

impl fmt::Display for TimesText {
    ghost output = { λ times. Some (times_text times.0) };

    fn fmt<W: fmt::Write>(&self, f: &mut fmt::Formatter<W>) -> fmt::Result {
        let times = self.0;
        if times <= 1 {
            return Ok(());
        }
        write!(f, "  x {times}")
    }
}

impl fmt::Display for Run {
    ghost output = { λ run. Some (run_text run) };

    #[tactic(auto, unfolding(crate::specs::Lines::run_text))]
    fn fmt<W: fmt::Write>(&self, f: &mut fmt::Formatter<W>) -> fmt::Result {
        let shown = OctetsText(self.octets);
        let times = TimesText(self.times);
        writeln!(f, "{shown}{times}")
    }
}

// What is left at the end of the records, fewer than sixteen octets: a record that was torn off. Nothing where nothing is left.
#[derive(Clone, Copy)]
pub struct TornEnd<'a>(pub &'a [u8]);

impl fmt::Display for TornEnd<'_> {
    ghost output = { λ torn. Some (torn_text torn.0.now) };

    #[tactic(auto, unfolding(crate::specs::Lines::torn_text))]
    fn fmt<W: fmt::Write>(&self, f: &mut fmt::Formatter<W>) -> fmt::Result {
        if self.0.is_empty() {
            return Ok(());
        }
        let count = self.0.len();
        let octets = Hex(self.0);
        writeln!(f, "torn end  {count} octets {octets}")
    }
}
