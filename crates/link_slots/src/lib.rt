// Reading a slot and handing it back.

#![tactic(auto)]

ghost use Rattle.std.specs.Prelude.{◌≡◌};
ghost use Rattle.bits.specs.Format.{basic};
ghost use Rattle.link.specs.Answer.{number_of};
ghost use Rattle.link.specs.Refusals.{unreadable, read_number};
ghost use Rattle.link.specs.Calls.{outcome_of, read_part, hand_answer};

use board::Link;
use link::Refusal;

// Whether a slot with this status and length holds no unit.
fn unreadable(status: u16, count: u16) -> bool
    ensures { result ≡ unreadable basic status count }
{
    !matches!(
        status,
        Link::STATUS_GOOD | Link::STATUS_CHECK_WRONG | Link::STATUS_NOT_WHOLE
    ) || Link::MOST_LONGEST < count
}

// The faults that read and hand back find on a link, its memory and a slot. Pool and descriptors are lent by the host one by one, as C hands
// them in.
#[tactic(auto, unfolding(link::specs::Refusals::read_number, link::specs::Refusals::clear_number, link::specs::Refusals::first), using(link::proofs::Answers::fit_memory))]
fn check_slot(link: &Link, pool: &[u8], descriptors: &[u16], slot: u16) -> Result<(), Refusal>
    ensures { number_of result ≡ read_number link.now pool.now descriptors.now slot }
{
    link::check_open(link)?;
    if !link::fits_memory(link.settings.k, pool, descriptors) {
        return Err(Refusal::WrongMemory);
    }
    if link.settings.k <= slot {
        return Err(Refusal::NoSuchSlot);
    }
    let at = 2 * usize::from(slot);
    if unreadable(descriptors[at], descriptors[at + 1]) {
        return Err(Refusal::Unreadable);
    }
    Ok(())
}

// Read's companion: the number that read and hand back answer. A number and no Result, since it never fails: that a read is refused is its answer,
// which the C export pj_read_number_value gives as it is.
pub fn read_number(link: Link, pool: &[u8], descriptors: &[u16], slot: u16) -> u8
    ensures { result ≡ read_number link pool.now descriptors.now slot }
{
    match check_slot(&link, pool, descriptors, slot) {
        Ok(()) => 0,
        Err(refusal) => u8::from(refusal),
    }
}

// The unit in a slot, as a part of the pool; an empty part, and no Result, where the call is refused, as its promise (read_part) says.
#[tactic(auto, unfolding(link::specs::Calls::read_part), using(link::proofs::Answers::slot_bounds, link::proofs::Answers::read_done))]
pub fn read<'a, 'b>(link: Link, pool: &'a [u8], descriptors: &'b [u16], slot: u16) -> &'a [u8]
    ensures { result.now ≡ read_part link pool.now descriptors.now slot }
{
    if check_slot(&link, pool, descriptors, slot).is_err() {
        return &[];
    }
    let from = Link::SLOT * usize::from(slot);
    let count = usize::from(descriptors[2 * usize::from(slot) + 1]);
    &pool[from..from + count]
}

// Gives a slot back, zeroed and marked empty.
#[tactic(auto, unfolding(link::specs::Calls::hand_answer), using(link::proofs::Answers::slot_bounds))]
pub fn hand_back(
    link: Link,
    pool: &mut [u8],
    descriptors: &mut [u16],
    slot: u16,
) -> Result<Link, Refusal>
    ensures { outcome_of link result pool.new descriptors.new ≡ hand_answer link pool.old descriptors.old slot }
{
    check_slot(&link, pool, descriptors, slot)?;
    memory::release(pool, descriptors, slot);
    Ok(link)
}
