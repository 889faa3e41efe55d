// The areas of memory: how much of each is lent, and what is written into it.
ghost use Rattle.std.specs.Prelude.{◌≡◌};
ghost use Rattle.console_requests.specs.Areas.{name_of, area_of, most_of, number_at, size_of, poke_of};

use crate::{Area, Request};
use console_numbers::decimal;
use console_words::word;

const AREAS: [Area; 4] = [Area::Pool, Area::Descriptors, Area::Records, Area::Output];

fn name(area: Area) -> &'static [u8]
    ensures { result.now ≡ name_of area }
{
    match area {
        Area::Pool => b"pool",
        Area::Descriptors => b"desc",
        Area::Records => b"records",
        Area::Output => b"output",
    }
}

// The area that a word names.
fn area_named(word: &[u8]) -> Option<Area>
    ensures { result ≡ area_of word.now }
{
    AREAS.iter().find(|area| name(**area) == word).copied()
}

// How many octets or words of an area there are.
fn most(area: Area) -> u16
    ensures { result ≡ most_of area }
{
    match area {
        Area::Pool => 4608,
        Area::Descriptors => 40,
        Area::Records => 49152,
        Area::Output => 512,
    }
}

// Word i of a line as a number.
#[tactic(auto, unfolding(crate::specs::Areas::number_at))]
pub fn number(line: &[u8], i: usize) -> Option<u16>
    ensures { result ≡ number_at line.now i }
{
    decimal(word(line, i)?)
}

// size AREA N
#[tactic(auto, unfolding(crate::specs::Areas::size_of))]
pub fn size(line: &[u8]) -> Option<Request>
    ensures { result ≡ size_of line.now }
{
    let area = area_named(word(line, 1)?)?;
    let size = number(line, 2)?;
    (size <= most(area)).then_some(Request::Size(area, size))
}

// poke AREA I V. The record and the output area are not written.
#[tactic(auto, unfolding(crate::specs::Areas::poke_of))]
pub fn poke(line: &[u8]) -> Option<Request>
    ensures { result ≡ poke_of line.now }
{
    let area = area_named(word(line, 1)?)?;
    let place = number(line, 2)?;
    let value = number(line, 3)?;
    if place >= most(area) {
        return None;
    }
    match area {
        Area::Pool => Some(Request::PokePool(place, u8::try_from(value).ok()?)),
        Area::Descriptors => Some(Request::PokeDescriptor(place, value)),
        Area::Records | Area::Output => None,
    }
}
