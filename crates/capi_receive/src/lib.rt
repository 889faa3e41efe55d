// Exported for C: receive, which takes line octets in bit by bit. An archive and a C name of its own keep each engine as fast as it is alone.

#![tactic(auto)]

ghost use Rattle.std.specs.Prelude.{◌≡◌, [], ◌∷◌};
ghost use Rattle.calls.specs.Call.{receive};
ghost use Rattle.host_calls.specs.Answers.{host_answer};

use board::Link;
use host_link::HostLink;
use host_link::answers::HostCounted;

// Takes line octets in, fills slots, and writes a record for each thing that happened.
#[tactic(auto, unfolding(host_link::specs::Crossing::given_back))]
#[unsafe(no_mangle)]
pub extern "C" fn pj_receive_value(
    link: HostLink,
    octets: &[u8],
    pool: &mut [u8],
    descriptors: &mut [u16],
    records: &mut [u8],
) -> HostCounted
    ensures { record { number = result.number; link = result.link; count = result.count; part = []; lent = octets.now ∷ pool.new ∷ descriptors.new ∷ records.new ∷ [] } ≡ host_answer link (receive octets.now pool.old descriptors.old records.old) }
{
    let received = calls::receive(Link::from(link), octets, pool, descriptors, records);
    HostCounted::new(link, received)
}
