// What a line of a console script asks for, by the grammar that `help` prints. Total on every line.

#![tactic(auto)]

mod areas;
mod bookings;
pub mod grammar;

use board::Settings;

// Most octets of a receive and of a send: more than those calls take, so that they can be refused.
pub const MOST_RECEIVE: usize = 1100;

pub const MOST_SEND: usize = 300;

// An area of memory whose size can be fixed.
#[derive(Clone, Copy, PartialEq, Eq)]
pub enum Area {
    Pool,
    Descriptors,
    Records,
    Output,
}

// What is asked for, with its numbers in the order of the grammar. The octets of Receive and of Send are word 1 of the line, in hex.
#[derive(Clone, Copy, PartialEq, Eq)]
pub enum Request {
    Nothing,
    Open(Settings),
    Row(Settings),
    Receive,
    Command(u16),
    Clear(u16),
    Send,
    Fill,
    Read(u16),
    Hand(u16),
    Wipe,
    Size(Area, u16),
    SizeAuto,
    PokePool(u16, u8),
    PokeDescriptor(u16, u16),
    Show,
    Slots,
    Help,
}
