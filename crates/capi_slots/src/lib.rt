// Exported for C: reading a slot and handing it back.

#![tactic(auto)]

ghost use Rattle.std.specs.Prelude.{◌≡◌, [], ◌∷◌};
ghost use Rattle.link.specs.Refusals.{read_number};
ghost use Rattle.link.specs.Calls.{read_part};
ghost use Rattle.calls.specs.Call.{reads_number, hand_back};
ghost use Rattle.host_calls.specs.Answers.{host_answer, offset_of, host_part};

use board::Link;
use host_link::HostLink;
use host_link::answers::{HostAnswer, HostPart};

// Where in the pool a slot begins; 0 where the call is refused. By its number, as the C interface and the definition offset_of have it.
fn offset_of(number: u8, slot: u16) -> usize
    ensures { result ≡ offset_of number slot }
{
    if number == 0 {
        Link::SLOT * usize::from(slot)
    } else {
        0
    }
}

// Read's companion: the number that read and hand back answer.
#[unsafe(no_mangle)]
pub extern "C" fn pj_read_number_value(
    link: HostLink,
    pool: &[u8],
    descriptors: &[u16],
    slot: u16,
) -> u8
    ensures { result ≡ (host_answer link (reads_number pool.now descriptors.now slot)).number }
{
    calls::read_number(Link::from(link), pool, descriptors, slot)
}

// The number of a read that gives this part: one that has octets is of a read that is not refused, and its faults are not looked for again. A function
// of its own, since the proof loses what the part says where the two ways meet.
#[tactic(auto, unfolding(link::specs::Calls::read_part))]
fn number_after_read(link: Link, pool: &[u8], descriptors: &[u16], slot: u16, part: &[u8]) -> u8
    requires { part.now ≡ read_part link pool.now descriptors.now slot }
    ensures { result ≡ read_number link pool.now descriptors.now slot }
{
    if part.is_empty() {
        calls::read_number(link, pool, descriptors, slot)
    } else {
        0
    }
}

// The unit in a slot, as the place and the length of a part of the pool; both 0 where the call is refused.
#[unsafe(no_mangle)]
pub extern "C" fn pj_read_value(
    link: HostLink,
    pool: &[u8],
    descriptors: &[u16],
    slot: u16,
) -> HostPart
    ensures { result ≡ host_part link pool.now descriptors.now slot }
{
    let l = Link::from(link);
    let part = calls::read(l, pool, descriptors, slot);
    let number = number_after_read(l, pool, descriptors, slot, part);
    HostPart {
        offset: offset_of(number, slot),
        length: part.len(),
        number,
    }
}

// Gives a slot back, zeroed and marked empty.
#[tactic(auto, unfolding(host_link::specs::Crossing::given_back))]
#[unsafe(no_mangle)]
pub extern "C" fn pj_hand_back_value(
    link: HostLink,
    pool: &mut [u8],
    descriptors: &mut [u16],
    slot: u16,
) -> HostAnswer
    ensures { record { number = result.number; link = result.link; count = 0; part = []; lent = pool.new ∷ descriptors.new ∷ [] } ≡ host_answer link (hand_back pool.old descriptors.old slot) }
{
    let handed = calls::hand_back(Link::from(link), pool, descriptors, slot);
    HostAnswer::new(link, handed)
}
