// The board of the program console: how much of its memory each call is lent, and the calls on just that part of it.

#![tactic(auto)]

ghost use Rattle.std.specs.Prelude.{◌≡◌, ◌≤◌, length, take, slice_set};
ghost use Rattle.link.specs.Refusals.{read_number};
ghost use Rattle.link.specs.Calls.{outcome_of, read_part};
ghost use Rattle.output.specs.Output.{output_of};
ghost use Rattle.input.specs.Receive.{outcome_of as received_of};
ghost use Rattle.console_board.specs.Lent.{auto, lent_of, pool_lent, words_lent, all_lent};
ghost use Rattle.console_board.specs.Calls.{opened, handed, received, sent, filled};

use calls::{Counted, Link, Refusal, Settings};

// Octets of the pool, words of the descriptors, octets of the record area and of the output area: more than a call asks for, so that each size
// can be wrong.
pub const POOL: usize = 4608;

pub const DESCRIPTORS: usize = 40;

pub const RECORDS: usize = 49152;

pub const OUTPUT: usize = 512;

// How much of each area is lent, where that is fixed; else a call is lent what it asks for.
#[derive(Clone, Copy, PartialEq, Eq)]
pub struct Sizes {
    pub pool: Option<u16>,
    pub descriptors: Option<u16>,
    pub records: Option<u16>,
    pub output: Option<u16>,
}

impl Sizes {
    // None fixed, as at the start.
    pub fn auto() -> Self
        ensures { result ≡ auto }
    {
        Self {
            pool: None,
            descriptors: None,
            records: None,
            output: None,
        }
    }
}

// How much of an area is lent: the size that is fixed or what is asked for, and not more than there is.
#[tactic(auto, unfolding(crate::specs::Lent::lent_of))]
fn lent(size: Option<u16>, asked: usize, most: usize) -> usize
    ensures value { result ≡ lent_of size asked most }
    ensures upper_bound { result ≤ most }
{
    size.map_or(asked, usize::from).min(most)
}

// Octets of a pool that are lent for k slots.
fn pool_lent(sizes: Sizes, k: u16, pool: &[u8]) -> usize
    ensures value { result ≡ pool_lent sizes k pool.now }
    ensures upper_bound { result ≤ length pool.now }
{
    lent(sizes.pool, Link::SLOT * usize::from(k), pool.len())
}

// Words of descriptors.
fn words_lent(sizes: Sizes, k: u16, descriptors: &[u16]) -> usize
    ensures value { result ≡ words_lent sizes k descriptors.now }
    ensures upper_bound { result ≤ length descriptors.now }
{
    lent(sizes.descriptors, 2 * usize::from(k), descriptors.len())
}

// Octets of a record or an output area, which is asked for whole.
fn all_lent(size: Option<u16>, area: &[u8]) -> usize
    ensures value { result ≡ all_lent size area.now }
    ensures upper_bound { result ≤ length area.now }
{
    lent(size, area.len(), area.len())
}

// The part of the pool that is lent for the K held.
pub fn lent_pool(link: Link, sizes: Sizes, pool: &[u8]) -> &[u8]
    ensures { result.now ≡ take (pool_lent sizes link.settings.k pool.now) pool.now }
{
    &pool[..pool_lent(sizes, link.settings.k, pool)]
}

pub fn lent_words(link: Link, sizes: Sizes, descriptors: &[u16]) -> &[u16]
    ensures { result.now ≡ take (words_lent sizes link.settings.k descriptors.now) descriptors.now }
{
    &descriptors[..words_lent(sizes, link.settings.k, descriptors)]
}

// Open, on the memory for the K given.
pub fn open(
    link: Link,
    sizes: Sizes,
    settings: Settings,
    pool: &mut [u8],
    descriptors: &mut [u16],
) -> Result<Link, Refusal>
    ensures { outcome_of link result pool.new descriptors.new ≡ opened link sizes settings pool.old descriptors.old }
{
    let octets = pool_lent(sizes, settings.k, pool);
    let words = words_lent(sizes, settings.k, descriptors);
    calls::open(
        link,
        settings,
        &mut pool[..octets],
        &mut descriptors[..words],
    )
}

// Receive, on the memory for the K held.
pub fn receive(
    link: Link,
    sizes: Sizes,
    octets: &[u8],
    pool: &mut [u8],
    descriptors: &mut [u16],
    records: &mut [u8],
) -> Result<Counted, Refusal>
    ensures { received_of link result pool.new descriptors.new records.new ≡ received link sizes octets.now pool.old descriptors.old records.old }
{
    let slots = pool_lent(sizes, link.settings.k, pool);
    let words = words_lent(sizes, link.settings.k, descriptors);
    let room = all_lent(sizes.records, records);
    calls::receive(
        link,
        octets,
        &mut pool[..slots],
        &mut descriptors[..words],
        &mut records[..room],
    )
}

// The number of read, and what it reads.
pub fn read_number(link: Link, sizes: Sizes, pool: &[u8], descriptors: &[u16], slot: u16) -> u8
    ensures { result ≡ read_number link (take (pool_lent sizes link.settings.k pool.now) pool.now) (take (words_lent sizes link.settings.k descriptors.now) descriptors.now) slot }
{
    let octets = lent_pool(link, sizes, pool);
    let words = lent_words(link, sizes, descriptors);
    calls::read_number(link, octets, words, slot)
}

pub fn read<'a, 'b>(
    link: Link,
    sizes: Sizes,
    pool: &'a [u8],
    descriptors: &'b [u16],
    slot: u16,
) -> &'a [u8]
    ensures { result.now ≡ read_part link (take (pool_lent sizes link.settings.k pool.now) pool.now) (take (words_lent sizes link.settings.k descriptors.now) descriptors.now) slot }
{
    let octets = lent_pool(link, sizes, pool);
    let words = lent_words(link, sizes, descriptors);
    calls::read(link, octets, words, slot)
}

// Hand back, on the memory for the K held.
pub fn hand_back(
    link: Link,
    sizes: Sizes,
    pool: &mut [u8],
    descriptors: &mut [u16],
    slot: u16,
) -> Result<Link, Refusal>
    ensures { outcome_of link result pool.new descriptors.new ≡ handed link sizes pool.old descriptors.old slot }
{
    let octets = pool_lent(sizes, link.settings.k, pool);
    let words = words_lent(sizes, link.settings.k, descriptors);
    calls::hand_back(link, &mut pool[..octets], &mut descriptors[..words], slot)
}

// Send and fill.
pub fn send(link: Link, sizes: Sizes, content: &[u8], output: &mut [u8]) -> Result<Counted, Refusal>
    ensures { output_of link result output.new ≡ sent link sizes content.now output.old }
{
    let room = all_lent(sizes.output, output);
    calls::send(link, content, &mut output[..room])
}

pub fn fill(link: Link, sizes: Sizes, output: &mut [u8]) -> Result<Counted, Refusal>
    ensures { output_of link result output.new ≡ filled link sizes output.old }
{
    let room = all_lent(sizes.output, output);
    calls::fill(link, &mut output[..room])
}

// Writes an octet of the pool; one behind its end is passed over.
pub fn poke_octet(pool: &mut [u8], i: usize, octet: u8)
    ensures { pool.new ≡ slice_set pool.old i octet }
{
    if i < pool.len() {
        pool[i] = octet;
    }
}

// Writes a word of the descriptors.
pub fn poke_word(descriptors: &mut [u16], i: usize, word: u16)
    ensures { descriptors.new ≡ slice_set descriptors.old i word }
{
    if i < descriptors.len() {
        descriptors[i] = word;
    }
}
