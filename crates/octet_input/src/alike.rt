// That both engines are alike, as the contract of a function that calls both.
ghost use Rattle.std.specs.Prelude.{◌≡◌};
ghost use Rattle.input.specs.Receive.{outcome_of};

use board::Link;
use link::{Counted, Refusal};

// What receive and receive_octets answer.
#[derive(Clone, Copy, PartialEq, Eq)]
pub struct Both {
    pub bits: Result<Counted, Refusal>,
    pub octets: Result<Counted, Refusal>,
}

// The same link and line octets through both engines, each with memory of its own: from equal memory both give the same.
pub fn receive_by_both(
    link: Link,
    octets: &[u8],
    pool: &mut [u8],
    descriptors: &mut [u16],
    records: &mut [u8],
    pool_2: &mut [u8],
    descriptors_2: &mut [u16],
    records_2: &mut [u8],
) -> Both
    ensures { pool.old ≡ pool_2.old → descriptors.old ≡ descriptors_2.old → records.old ≡ records_2.old → outcome_of link result.bits pool.new descriptors.new records.new ≡ outcome_of link result.octets pool_2.new descriptors_2.new records_2.new }
{
    let bits = input::receive(link, octets, pool, descriptors, records);
    let octets = crate::receive_octets(link, octets, pool_2, descriptors_2, records_2);
    Both { bits, octets }
}
