// Input by whole octets: receive_octets, a second engine behind the answer of receive.

#![tactic(auto)]

ghost use Rattle.std.specs.Prelude.{◌≡◌};
ghost use Rattle.input.specs.Receive.{outcome_of, receive_answer};

use board::Link;
use link::{Counted, Refusal};
use octet_reception::ByOctets;

pub mod alike;

// Takes line octets in as receive does, and answers the same on every link, line and memory; it is faster from some octets a call on.
pub fn receive_octets(
    link: Link,
    octets: &[u8],
    pool: &mut [u8],
    descriptors: &mut [u16],
    records: &mut [u8],
) -> Result<Counted, Refusal>
    ensures { outcome_of link result pool.new descriptors.new records.new ≡ receive_answer link octets.now pool.old descriptors.old records.old }
{
    input::receive_by::<ByOctets>(link, octets, pool, descriptors, records)
}
