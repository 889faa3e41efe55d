// Opening a booking, and the wipe between bookings.

#![tactic(auto)]

ghost use Rattle.std.specs.Prelude.{◌≡◌};
ghost use Rattle.link.specs.Answer.{number_of};
ghost use Rattle.link.specs.Refusals.{open_number};
ghost use Rattle.link.specs.Calls.{outcome_of, opened_link, open_answer, wipe_answer};

use board::{Counting, Link, Settings, UnitState};
use link::Refusal;

// The faults that open finds on a link, settings and memory. Pool and descriptors are lent by the host one by one, as C hands them in.
#[tactic(auto, unfolding(link::specs::Refusals::open_number, link::specs::Refusals::first))]
fn check_opening(
    link: &Link,
    settings: Settings,
    pool: &[u8],
    descriptors: &[u16],
) -> Result<(), Refusal>
    ensures { number_of result ≡ open_number link.now settings pool.now descriptors.now }
{
    if wellformed::is_malformed(link) {
        return Err(Refusal::Malformed);
    }
    if link.opened {
        return Err(Refusal::AlreadyOpen);
    }
    if !wellformed::in_range(settings) {
        return Err(Refusal::SettingOutOfRange);
    }
    if !link::fits_memory(settings.k, pool, descriptors) {
        return Err(Refusal::WrongMemory);
    }
    if !memory::no_octet(pool) || !memory::no_word(descriptors) {
        return Err(Refusal::NotZero);
    }
    Ok(())
}

// The link of a new booking.
fn opened_link(settings: Settings) -> Link
    ensures { result ≡ opened_link settings }
{
    let new = Link::new();
    let counting = Counting {
        on: false,
        left: settings.n,
    };
    Link {
        opened: true,
        settings,
        units: UnitState {
            counting,
            ..new.units
        },
        ..new
    }
}

// Opens a booking over memory that is wiped.
#[tactic(auto, unfolding(link::specs::Calls::open_answer, link::specs::Refusals::open_number, link::specs::Refusals::first), using(link::proofs::Answers::open_words))]
pub fn open(
    link: Link,
    settings: Settings,
    pool: &mut [u8],
    descriptors: &mut [u16],
) -> Result<Link, Refusal>
    ensures { outcome_of link result pool.new descriptors.new ≡ open_answer link settings pool.old descriptors.old }
{
    check_opening(&link, settings, pool, descriptors)?;
    memory::mark_empty(descriptors, settings.k);
    Ok(opened_link(settings))
}

// Zeroes all of both areas, whatever they are, and gives the new link. It is never refused.
pub fn wipe(octets: &mut [u8], words: &mut [u16]) -> Link
    ensures { record { link = result; octets = octets.new; words = words.new } ≡ wipe_answer octets.old words.old }
{
    memory::wipe_octets(octets);
    memory::wipe_words(words);
    Link::new()
}
