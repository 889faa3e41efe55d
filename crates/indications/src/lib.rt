// One indication of the line, a finding or an octet's end: to the unit state, the monitor and the records.

#![tactic(auto)]

ghost use Rattle.std.specs.Prelude.{◌≡◌, List, [], ◌∷◌, map, ℕ, ◌≤◌};
ghost use Rattle.framing.specs.Delimitation.{Finding};
ghost use Rattle.units.specs.Indications.{Indication, octet_end, found as found-indication};
ghost use Rattle.indications.specs.InnerWriting.{NotedAndRecorded, CounterMoved, CanRecord, Able, StandsIn, Shown, area_after, holding, indications_done};

use board::{Counting, Link, Settings, Supervision, UnitState};
use framing::Found;
use monitor::Limits;
use records::RecordKind;
use units::Taken;

// Unit state, monitor and event bits, and how many records are written.
#[derive(Clone, Copy)]
pub struct Progress {
    pub units: UnitState,
    pub supervision: Supervision,
    pub count: usize,
}

// `CanRecord` is each function's `requires`: it ties settings and progress to the lent record area, which no one type holds.

// What happened is noted by the monitor and recorded. The monitor's limits are three of the settings; a From would serve this place alone.
pub fn note_and_record(s: Settings, p: Progress, taken: Taken, out: &mut [u8]) -> Progress
    requires { CanRecord s p out.old }
    ensures { NotedAndRecorded s taken p.supervision p.count out.old result out.new }
{
    let limits = Limits {
        t: s.t,
        d: s.d,
        a: s.a,
    };
    let noted = records::note(limits, p.supervision, taken.happening);
    let supervision = noted.supervision;
    let count = supervision.monitor.count;
    records::write_record(out, p.count, taken.happening, count, noted.raised);
    Progress {
        units: taken.units,
        supervision,
        count: p.count + 1,
    }
}

// What one finding does, if there is one. A closed unit stands in the area, which is clear afterwards.
pub fn take_found(
    s: Settings,
    p: Progress,
    found: Option<Found>,
    area: &mut [u8; 279],
    pool: &mut [u8],
    descriptors: &mut [u16],
    out: &mut [u8],
) -> Progress
    requires able { Able s p pool.old descriptors.old out.old }
    requires stands_in { StandsIn found area.old }
    ensures out_after { (fs : List Finding) → Shown fs found area.old → holding result pool.new descriptors.new out.new ≡ indications_done s (holding p pool.old descriptors.old out.old) (map found-indication fs) }
    ensures area_after { area.new ≡ area_after found area.old }
{
    let Some(found) = found else {
        return p;
    };
    let taken = match found {
        Found::Closed(bits) => {
            let taken = units::closed_unit(s, p.units, area, bits, pool, descriptors);
            framing::area::clear(area, bits + 7);
            taken
        }
        Found::Abort => units::break_off(s, p.units, RecordKind::Abort, Link::EVENT_ABORT),
        Found::Long => units::break_off(s, p.units, RecordKind::Long, Link::EVENT_LONG),
    };
    note_and_record(s, p, taken, out)
}

// Octets of the line have ended: N's counter is at `left` now, and octet counting ticks, or nothing happens.
pub fn move_counter(s: Settings, p: Progress, left: u16, ticks: bool, out: &mut [u8]) -> Progress
    requires { CanRecord s p out.old }
    ensures { CounterMoved s p left ticks out.old result out.new }
{
    let units = UnitState {
        counting: Counting {
            left,
            ..p.units.counting
        },
        ..p.units
    };
    if ticks {
        let happening = units::tick(units.counts.good);
        return note_and_record(s, p, Taken { units, happening }, out);
    }
    Progress { units, ..p }
}

// The end of a line octet: N's counter runs, and in octet counting it may tick.
pub fn end_octet(s: Settings, p: Progress, out: &mut [u8]) -> Progress
    requires { CanRecord s p out.old × (1 ≤ p.units.counting.left) }
    ensures { (pool descriptors : List ℕ) → holding result pool descriptors out.new ≡ indications_done s (holding p pool descriptors out.old) (octet_end ∷ []) }
{
    let counting = p.units.counting;
    let left = units::count_down(s.n, counting.left);
    let ticks = counting.left == 1 && counting.on;
    move_counter(s, p, left, ticks, out)
}
