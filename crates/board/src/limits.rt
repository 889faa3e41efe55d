// The sizes and limits of a link, as one value.
ghost use Rattle.std.specs.Prelude.{◌≡◌};
ghost use Rattle.bits.specs.Format.{basic};
ghost use Rattle.memory.specs.Lent.{status_word};
ghost use Rattle.board.specs.Sizes.{sizes_of};

use crate::Link;
use memory::Status;

#[repr(C)]
#[derive(Clone, Copy, PartialEq, Eq)]
pub struct Range {
    pub least: usize,
    pub most: usize,
}

// Octets of a slot; slots; longest unit M; N, T, D and A; line octets of a receive; octets of a record, and of the records for one line
// octet; octets of an output area; octets of content.
#[repr(C)]
#[derive(Clone, Copy, PartialEq, Eq)]
pub struct Sizes {
    pub slot: usize,
    pub slots: Range,
    pub longest: Range,
    pub counts: Range,
    pub line: usize,
    pub record: usize,
    pub records: usize,
    pub output: usize,
    pub content: Range,
}

// The limits by name, which are those of the definitions.
#[tactic(auto, unfolding(crate::specs::Sizes::sizes_of))]
pub fn link_sizes() -> Sizes
    ensures { result ≡ sizes_of basic }
{
    Sizes {
        slot: Link::SLOT,
        slots: Range {
            least: 1,
            most: usize::from(Link::MOST_SLOTS),
        },
        longest: Range {
            least: usize::from(Link::LEAST_LONGEST),
            most: usize::from(Link::MOST_LONGEST),
        },
        counts: Range {
            least: 1,
            most: usize::from(Link::MOST_COUNT),
        },
        line: Link::MOST_LINE,
        record: Link::RECORD,
        records: Link::RECORDS,
        output: Link::OUTPUT,
        content: Range {
            least: Link::LEAST_CONTENT,
            most: Link::MOST_CONTENT,
        },
    }
}

// The status words by name, which are those of the definitions. A function here and no From beside Status: it holds the constants of Link
// to the definition, as the edit empty_is_good asks.
pub fn status_word(status: Status) -> u16
    ensures { result ≡ status_word status }
{
    match status {
        Status::Empty => Link::STATUS_EMPTY,
        Status::Good => Link::STATUS_GOOD,
        Status::CheckWrong => Link::STATUS_CHECK_WRONG,
        Status::NotWhole => Link::STATUS_NOT_WHOLE,
    }
}
