// One record after the other: lines, and totals.

ghost use Rattle.std.specs.Prelude.{◌≡◌};
ghost use Rattle.recordview_lines.specs.Viewer.{is_same_but_counts, is_alike, run_after, run_ended, nothing_seen, taken};

use crate::lines::Run;
use crate::records_read::Record;
use crate::totals::{Totals, more};

// The line that is not written yet, since the next record may be like its own, and the totals so far.
#[derive(Clone, Copy)]
pub struct Viewer {
    pub run: Option<Run>,
    pub totals: Totals,
}

// A viewer after one record more, and the line that this record ended.
#[derive(Clone, Copy)]
pub struct Taken {
    pub viewer: Viewer,
    pub ended: Option<Run>,
}

// Whether two times sixteen octets are the same but for octets 4 to 7, where a record has its two counts.
fn is_same_but_counts(a: [u8; 16], b: [u8; 16]) -> bool
    ensures { result ≡ is_same_but_counts a b }
{
    a[..4] == b[..4] && a[8..] == b[8..]
}

// Whether they share a line: two records that are the same but for the two counts, or the same octets that are no record.
#[tactic(auto, unfolding(crate::specs::Viewer::is_alike))]
fn is_alike(a: [u8; 16], b: [u8; 16]) -> bool
    ensures { result ≡ is_alike a b }
{
    if Record::read(a).is_none() {
        return a == b;
    }
    is_same_but_counts(a, b)
}

impl Viewer {
    pub fn new() -> Viewer
        ensures { result ≡ nothing_seen }
    {
        Viewer {
            run: None,
            totals: Totals::new(),
        }
    }

    // Sixteen octets more.
    #[tactic(auto, unfolding(crate::specs::Viewer::taken))]
    pub fn take(self, octets: [u8; 16]) -> Taken
        ensures { result ≡ taken self octets }
    {
        let totals = self.totals.with_record(Record::read(octets));
        let one = Run { octets, times: 1 };
        let (run, ended) = match self.run {
            None => (one, None),
            Some(before) => {
                if is_alike(before.octets, octets) {
                    let times = more(before.times);
                    (Run { octets, times }, None)
                } else {
                    (one, Some(before))
                }
            }
        };
        let viewer = Viewer {
            run: Some(run),
            totals,
        };
        Taken { viewer, ended }
    }
}
