// Input: receive, the call that takes line octets in.

#![tactic(auto)]

ghost use Rattle.std.specs.Prelude.{◌≡◌};
ghost use Rattle.link.specs.Answer.{number_of};
ghost use Rattle.input.specs.Refusals.{receive_number};
ghost use Rattle.input.specs.Receive.{outcome_of, receive_answer};

use board::{Gathering, Link};
use indications::Progress;
use link::{Counted, Refusal};
use reception::{ByBits, Engine, Passed};

// The faults that receive finds on a link, line octets, memory and a record area, which a host lends one by one, as C hands them in.
#[tactic(auto, unfolding(crate::specs::Refusals::receive_number, link::specs::Refusals::clear_number, link::specs::Refusals::first))]
fn check_receiving(
    link: &Link,
    octets: &[u8],
    pool: &[u8],
    descriptors: &[u16],
    records: &[u8],
) -> Result<(), Refusal>
    ensures { number_of result ≡ receive_number link.now octets.now pool.now descriptors.now records.now }
{
    link::check_open(link)?;
    if !link::fits_memory(link.settings.k, pool, descriptors) {
        return Err(Refusal::WrongMemory);
    }
    if Link::MOST_LINE < octets.len() {
        return Err(Refusal::LineTooLong);
    }
    if records.len() < Link::RECORDS * octets.len() {
        return Err(Refusal::FewRecords);
    }
    Ok(())
}

// Takes line octets in by an engine, fills slots, and writes a record for each thing that happened.
#[tactic(auto, unfolding(crate::specs::Receive::receive_answer))]
pub fn receive_by<E: Engine>(
    link: Link,
    octets: &[u8],
    pool: &mut [u8],
    descriptors: &mut [u16],
    records: &mut [u8],
) -> Result<Counted, Refusal>
    ensures { outcome_of link result pool.new descriptors.new records.new ≡ receive_answer link octets.now pool.old descriptors.old records.old }
{
    check_receiving(&link, octets, pool, descriptors, records)?;
    // the link goes in whole; an engine takes these of its parts
    let before = Passed {
        line: link.line.state,
        progress: Progress {
            units: link.units,
            supervision: link.supervision,
            count: 0,
        },
    };
    let mut area = link.line.area;
    let passed = E::take_line(
        link.settings,
        before,
        octets,
        &mut area,
        pool,
        descriptors,
        records,
    );
    let Progress {
        units,
        supervision,
        count,
    } = passed.progress;
    let line = Gathering {
        state: passed.line,
        area,
    };
    Ok(Counted {
        link: Link {
            line,
            units,
            supervision,
            ..link
        },
        count,
    })
}

// Takes line octets in, each by its bits.
pub fn receive(
    link: Link,
    octets: &[u8],
    pool: &mut [u8],
    descriptors: &mut [u16],
    records: &mut [u8],
) -> Result<Counted, Refusal>
    ensures { outcome_of link result pool.new descriptors.new records.new ≡ receive_answer link octets.now pool.old descriptors.old records.old }
{
    receive_by::<ByBits>(link, octets, pool, descriptors, records)
}
