// How many records there were, by kind, and how many alarms.

ghost use Rattle.std.specs.Prelude.{◌≡◌, Some};
ghost use Rattle.recordview_lines.specs.Totals.{no_totals, more, of_kind, with_record, total_text, good_text, bad_text, other_text, totals_text};

use crate::records_read::Record;
use records::RecordKind;
use std::fmt;

#[derive(Clone, Copy, PartialEq, Eq)]
pub struct Totals {
    pub handed_over: u64,
    pub dropped: u64,
    pub lost: u64,
    pub check_wrong: u64,
    pub not_whole: u64,
    pub short: u64,
    pub long: u64,
    pub abort: u64,
    pub tick: u64,
    pub unreadable: u64,
    pub alarms: u64,
}

// One more; the largest number stays.
pub fn more(total: u64) -> u64
    ensures { result ≡ more total }
{
    total.saturating_add(1)
}

impl Totals {
    pub fn new() -> Totals
        ensures { result ≡ no_totals }
    {
        Totals {
            handed_over: 0,
            dropped: 0,
            lost: 0,
            check_wrong: 0,
            not_whole: 0,
            short: 0,
            long: 0,
            abort: 0,
            tick: 0,
            unreadable: 0,
            alarms: 0,
        }
    }

    // One record of this kind more.
    fn of_kind(self, kind: RecordKind) -> Totals
        ensures { result ≡ of_kind self kind }
    {
        match kind {
            RecordKind::HandedOver => Totals {
                handed_over: more(self.handed_over),
                ..self
            },
            RecordKind::Dropped => Totals {
                dropped: more(self.dropped),
                ..self
            },
            RecordKind::Lost => Totals {
                lost: more(self.lost),
                ..self
            },
            RecordKind::CheckWrong => Totals {
                check_wrong: more(self.check_wrong),
                ..self
            },
            RecordKind::NotWhole => Totals {
                not_whole: more(self.not_whole),
                ..self
            },
            RecordKind::Short => Totals {
                short: more(self.short),
                ..self
            },
            RecordKind::Long => Totals {
                long: more(self.long),
                ..self
            },
            RecordKind::Abort => Totals {
                abort: more(self.abort),
                ..self
            },
            RecordKind::Tick => Totals {
                tick: more(self.tick),
                ..self
            },
        }
    }

    // What was read of sixteen octets more.
    pub fn with_record(self, seen: Option<Record>) -> Totals
        ensures { result ≡ with_record self seen }
    {
        match seen {
            None => Totals {
                unreadable: more(self.unreadable),
                ..self
            },
            Some(record) => {
                let totals = self.of_kind(record.kind);
                if record.alarm {
                    Totals {
                        alarms: more(totals.alarms),
                        ..totals
                    }
                } else {
                    totals
                }
            }
        }
    }
}

// A total, a line.
#[derive(Clone, Copy)]
struct TotalText {
    name: &'static str,
    total: u64,
}

impl fmt::Display for TotalText {
    ghost output = { λ t. Some (total_text t.name.now t.total) };

    fn fmt<W: fmt::Write>(&self, f: &mut fmt::Formatter<W>) -> fmt::Result {
        let name = self.name;
        let total = self.total;
        writeln!(f, "total {name}  {total}")
    }
}

// The totals of good units.
#[derive(Clone, Copy)]
struct GoodText(Totals);

impl fmt::Display for GoodText {
    ghost output = { λ t. Some (good_text t.0) };

    fn fmt<W: fmt::Write>(&self, f: &mut fmt::Formatter<W>) -> fmt::Result {
        let handed_over = TotalText {
            name: "handed over",
            total: self.0.handed_over,
        };
        let dropped = TotalText {
            name: "dropped",
            total: self.0.dropped,
        };
        let lost = TotalText {
            name: "lost",
            total: self.0.lost,
        };
        write!(f, "{handed_over}{dropped}{lost}")
    }
}

// The totals of units that are not good.
#[derive(Clone, Copy)]
struct BadText(Totals);

impl fmt::Display for BadText {
    ghost output = { λ t. Some (bad_text t.0) };

    fn fmt<W: fmt::Write>(&self, f: &mut fmt::Formatter<W>) -> fmt::Result {
        let check_wrong = TotalText {
            name: "check bits wrong",
            total: self.0.check_wrong,
        };
        let not_whole = TotalText {
            name: "not whole octets",
            total: self.0.not_whole,
        };
        let short = TotalText {
            name: "short",
            total: self.0.short,
        };
        let long = TotalText {
            name: "long",
            total: self.0.long,
        };
        write!(f, "{check_wrong}{not_whole}{short}{long}")
    }
}

// The totals of what is no unit, and the alarms.
#[derive(Clone, Copy)]
struct OtherText(Totals);

impl fmt::Display for OtherText {
    ghost output = { λ t. Some (other_text t.0) };

    fn fmt<W: fmt::Write>(&self, f: &mut fmt::Formatter<W>) -> fmt::Result {
        let abort = TotalText {
            name: "abort",
            total: self.0.abort,
        };
        let tick = TotalText {
            name: "octet counting",
            total: self.0.tick,
        };
        let unreadable = TotalText {
            name: "no record",
            total: self.0.unreadable,
        };
        let alarms = TotalText {
            name: "alarms",
            total: self.0.alarms,
        };
        write!(f, "{abort}{tick}{unreadable}{alarms}")
    }
}

impl fmt::Display for Totals {
    ghost output = { λ t. Some (totals_text t) };

    #[tactic(auto, unfolding(crate::specs::Totals::totals_text))]
    fn fmt<W: fmt::Write>(&self, f: &mut fmt::Formatter<W>) -> fmt::Result {
        let good = GoodText(*self);
        let bad = BadText(*self);
        let other = OtherText(*self);
        write!(f, "{good}{bad}{other}")
    }
}
