// The receiver's path through one call by whole octets: those in which nothing is found are taken together, the others one by one.

#![tactic(auto)]

ghost use Rattle.std.specs.Prelude.{◌≡◌, true, List, ℕ, ◌+◌, ◌≤◌, replicate};
ghost use Rattle.units.specs.Indications.{octet_end};
ghost use Rattle.indications.specs.InnerWriting.{CanRecord, holding, indications_done};
ghost use Rattle.octet_reception.specs.Counter.{wound_by};

use board::{Counting, Settings};
use indications::Progress;
use reception::{Engine, Passed};

// N's counter after `gone` octets: it runs down to its end, and from N again. N and the counter are fields of the C link, where they may be 0,
// so that they are 1 or more is each function's `requires`. The casts lose nothing: `gone` is below the counter, and what is left over below N.
fn wound(n: u16, left: u16, gone: usize) -> u16
    requires { (1 ≤ n) × (1 ≤ left) }
    ensures { result ≡ wound_by n left gone }
{
    let first = usize::from(left);
    if gone < first {
        return left - gone as u16;
    }
    let since = (gone - first) % usize::from(n);
    n - since as u16
}

// The ends of `gone` octets in which nothing was found; no plainer as one function with `indications::end_octet`, whose octet may also find
// something, and which asks nothing of `on`. In octet counting at most so many as the counter has left.
pub fn end_octets(s: Settings, p: Progress, gone: usize, out: &mut [u8]) -> Progress
    requires settings_in_range { CanRecord s p out.old }
    requires le_left { (1 ≤ p.units.counting.left) × (p.units.counting.on ≡ true → gone ≤ p.units.counting.left) }
    ensures { (pool descriptors : List ℕ) → holding result pool descriptors out.new ≡ indications_done s (holding p pool descriptors out.old) (replicate gone octet_end) }
{
    let counting = p.units.counting;
    let left = wound(s.n, counting.left, gone);
    let ticks = counting.on && gone == usize::from(counting.left);
    indications::move_counter(s, p, left, ticks, out)
}

// How many of so many octets may be taken together: all, or in octet counting those up to the end of the counter.
fn together(counting: Counting, octets: usize) -> usize
    requires { (1 ≤ counting.left) × (1 ≤ octets) }
    ensures { (1 ≤ result) × (result ≤ octets) × (counting.on ≡ true → result ≤ counting.left) }
{
    if counting.on {
        octets.min(usize::from(counting.left))
    } else {
        octets
    }
}

// Octets in which nothing is found together, each other one by its bits.
pub struct ByOctets;

impl Engine for ByOctets {
    fn take_line(
        s: Settings,
        before: Passed,
        octets: &[u8],
        area: &mut [u8; 279],
        pool: &mut [u8],
        descriptors: &mut [u16],
        out: &mut [u8],
    ) -> Passed {
        let mut passed = before;
        let mut rest = octets;
        // a turn takes a run of octets, as long as nothing is found in it
        while !rest.is_empty() {
            let p = passed.progress;
            let run = &rest[..together(p.units.counting, rest.len())];
            let scan = octets::plain_octets(s.m, passed.line, run, area);
            passed = Passed {
                line: scan.line,
                progress: end_octets(s, p, scan.taken, out),
            };
            rest = &rest[scan.taken..];
            if scan.taken < run.len() {
                passed = reception::take_octet(s, passed, rest[0], area, pool, descriptors, out);
                rest = &rest[1..];
            }
        }
        passed
    }
}
