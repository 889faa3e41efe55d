// The receiver's path through one call: line octets in; units to slots, events to the monitor, records out.

#![tactic(auto)]

ghost use Rattle.std.specs.Prelude.{[], ◌∷◌, ◌+◌, ◌*◌, ◌≤◌, length};
ghost use Rattle.board.specs.InnerRanges.{SettingsInRange};
ghost use Rattle.board.specs.Limits.{record_octets, record_room};
ghost use Rattle.framing.specs.InnerReading.{IsWellFormed};
ghost use Rattle.indications.specs.InnerWriting.{Able, holding};
ghost use Rattle.reception.specs.InnerWriting.{StateInRange, LineTaken};

use board::Settings;
use framing::{Fed, Line, Step, delimit};
use indications::Progress;

// How far a line is taken: the receiver's small state, and unit state, monitor and records written.
#[derive(Clone, Copy)]
pub struct Passed {
    pub line: Line,
    pub progress: Progress,
}

// One line octet: its bits up to each finding, what that does, and the octet's end.
pub fn take_octet(
    s: Settings,
    before: Passed,
    octet: u8,
    area: &mut [u8; 279],
    pool: &mut [u8],
    descriptors: &mut [u16],
    out: &mut [u8],
) -> Passed
    requires able { Able s before.progress pool.old descriptors.old out.old }
    requires well_formed { IsWellFormed s.m before.line area.old × (record_octets * before.progress.count + record_room ≤ length out.old) }
    ensures { LineTaken s before.line area.old (octet ∷ []) (holding before.progress pool.old descriptors.old out.old) result area.new (holding result.progress pool.new descriptors.new out.new) }
{
    let mut p = before.progress;
    let mut fed = Fed {
        step: Step {
            line: before.line,
            found: None,
        },
        octet,
        left: 8,
    };
    // a turn takes the bits up to a finding, which no `for` knows before
    while fed.left > 0 {
        fed = delimit::feed(s.m, fed.step.line, area, fed.octet, fed.left);
        p = indications::take_found(s, p, fed.step.found, area, pool, descriptors, out);
    }
    let progress = indications::end_octet(s, p, out);
    Passed {
        line: fed.step.line,
        progress,
    }
}

// What takes line octets, in their order. The room of the record area is a bound of the function: it ties octets to an area that a host lends. The lent areas are parameters of their own: as a struct of `&mut` parts, which was tried, each
// function of the layers below needs a clause on the ghost name of each part.
pub trait Engine {
    fn take_line(
        s: Settings,
        before: Passed,
        octets: &[u8],
        area: &mut [u8; 279],
        pool: &mut [u8],
        descriptors: &mut [u16],
        out: &mut [u8],
    ) -> Passed
        requires settings_in_range { SettingsInRange s × StateInRange s (holding before.progress pool.old descriptors.old out.old) }
        requires well_formed { IsWellFormed s.m before.line area.old × (record_octets * before.progress.count + record_room * length octets.now ≤ length out.old) × (length octets.now ≤ 1024) }
        ensures { LineTaken s before.line area.old octets.now (holding before.progress pool.old descriptors.old out.old) result area.new (holding result.progress pool.new descriptors.new out.new) };
}

// Each octet by its bits.
pub struct ByBits;

impl Engine for ByBits {
    fn take_line(
        s: Settings,
        before: Passed,
        octets: &[u8],
        area: &mut [u8; 279],
        pool: &mut [u8],
        descriptors: &mut [u16],
        out: &mut [u8],
    ) -> Passed {
        let mut passed = before;
        for octet in octets {
            passed = take_octet(s, passed, *octet, area, pool, descriptors, out);
        }
        passed
    }
}
