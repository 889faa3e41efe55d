// Bookings: settings in full or by the row of the table, a mask, and the names of the switches that are on.
ghost use Rattle.std.specs.Prelude.{◌≡◌, ◌≤◌};
ghost use Rattle.console_requests.specs.Bookings.{switched, switches_at, booking_at, open_of, row_of};

use crate::areas::number;
use board::Settings;
use board::rows::{Row, numbers};
use console_numbers::mask;
use console_words::{word, word_count};

// The settings with the switch on that a word names, if it was off.
#[tactic(auto, unfolding(crate::specs::Bookings::switched))]
fn switched(settings: Settings, word: &[u8]) -> Option<Settings>
    ensures { result ≡ switched settings word.now }
{
    if word == b"filter".as_slice() && !settings.filter {
        Some(Settings {
            filter: true,
            ..settings
        })
    } else if word == b"itu".as_slice() && !settings.itu {
        Some(Settings {
            itu: true,
            ..settings
        })
    } else if word == b"orn".as_slice() && !settings.orn {
        Some(Settings {
            orn: true,
            ..settings
        })
    } else {
        None
    }
}

// The settings with the switches on that the words from word i on name, in any order, each once.
fn switches(line: &[u8], i: usize, settings: Settings) -> Option<Settings>
    ensures { result ≡ switches_at line.now i settings }
{
    let mut on = settings;
    for at in i..word_count(line) {
        on = switched(on, word(line, at)?)?;
    }
    Some(on)
}

// K slots and the numbers of a row, with the mask at word i and the switches behind it.
#[tactic(auto, unfolding(crate::specs::Bookings::booking_at))]
fn booking(line: &[u8], i: usize, k: u16, row: Row) -> Option<Settings>
    requires { i ≤ 7 }
    ensures { result ≡ booking_at line.now i k row }
{
    let settings = Settings {
        k,
        m: row.m,
        n: row.n,
        t: row.t,
        d: row.d,
        a: row.a,
        mask: mask(word(line, i)?)?,
        filter: false,
        itu: false,
        orn: false,
    };
    switches(line, i + 1, settings)
}

// open K M N T D A MASK [filter] [itu] [orn]
#[tactic(auto, unfolding(crate::specs::Bookings::open_of))]
pub fn open(line: &[u8]) -> Option<Settings>
    ensures { result ≡ open_of line.now }
{
    let k = number(line, 1)?;
    let row = Row {
        m: number(line, 2)?,
        n: number(line, 3)?,
        t: number(line, 4)?,
        d: number(line, 5)?,
        a: number(line, 6)?,
    };
    booking(line, 7, k, row)
}

// row R K MASK [filter] [itu] [orn]
#[tactic(auto, unfolding(crate::specs::Bookings::row_of))]
pub fn row(line: &[u8]) -> Option<Settings>
    ensures { result ≡ row_of line.now }
{
    let number_of_row = number(line, 1)?;
    let k = number(line, 2)?;
    booking(line, 3, k, numbers(number_of_row))
}
