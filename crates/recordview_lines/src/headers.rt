// The header of a signal unit: its first three octets.

ghost use Rattle.std.specs.Prelude.{◌≡◌, Some};
ghost use Rattle.recordview_lines.specs.Header.{header_of, header_in, header_text};

use crate::records_read::Record;
use records::RecordKind;
use std::fmt;

// Backward and forward sequence number, each with its indicator bit, and the length indicator.
#[derive(Clone, Copy, PartialEq, Eq)]
pub struct Header {
    pub bsn: u8,
    pub bib: u8,
    pub fsn: u8,
    pub fib: u8,
    pub li: u8,
}

impl Header {
    // The header that three octets are.
    fn of(backward: u8, forward: u8, indicator: u8) -> Header
        ensures { result ≡ header_of backward forward indicator }
    {
        Header {
            bsn: backward % 128,
            bib: backward / 128,
            fsn: forward % 128,
            fib: forward / 128,
            li: indicator % 64,
        }
    }
}

// The header that a record shows: that of a good unit, since octets with a wrong check are not to be trusted.
pub fn header_in(r: Record) -> Option<Header>
    ensures { result ≡ header_in r }
{
    let [backward, forward, indicator, ..] = r.first;
    match r.kind {
        RecordKind::HandedOver | RecordKind::Dropped | RecordKind::Lost if r.length >= 3 => {
            Some(Header::of(backward, forward, indicator))
        }
        _ => None,
    }
}

// A header where there is one, two spaces before it.
#[derive(Clone, Copy)]
pub struct HeaderText(pub Option<Header>);

impl fmt::Display for HeaderText {
    ghost output = { λ shown. Some (header_text shown.0) };

    fn fmt<W: fmt::Write>(&self, f: &mut fmt::Formatter<W>) -> fmt::Result {
        match self.0 {
            None => Ok(()),
            Some(header) => {
                let Header {
                    bsn,
                    bib,
                    fsn,
                    fib,
                    li,
                } = header;
                write!(f, "  BSN {bsn} BIB {bib} FSN {fsn} FIB {fib} LI {li}")
            }
        }
    }
}
