// What a call answers to a host.
ghost use Rattle.std.specs.Prelude.{◌≡◌};
ghost use Rattle.host_link.specs.Answers.{host_answered, host_counted};

use crate::HostLink;
use board::Link;
use link::{Counted, Refusal};

// A call's number, 0 or that of its refusal, and the link: a number, as here and below, for the C interface.
#[repr(C)]
#[derive(Clone, Copy)]
pub struct HostAnswer {
    pub link: HostLink,
    pub number: u8,
}

impl HostAnswer {
    // The link that a call left, or its refusal's number and the link as the host gave it.
    pub fn new(given: HostLink, answer: Result<Link, Refusal>) -> HostAnswer
        ensures { result ≡ host_answered given answer }
    {
        match answer {
            Ok(link) => HostAnswer {
                link: HostLink::from(link),
                number: 0,
            },
            Err(refusal) => HostAnswer {
                link: given,
                number: u8::from(refusal),
            },
        }
    }
}

// The same, and how many records were written or octets put out.
#[repr(C)]
#[derive(Clone, Copy)]
pub struct HostCounted {
    pub count: usize,
    pub link: HostLink,
    pub number: u8,
}

impl HostCounted {
    // The link that a call left and what it counted, or its refusal's number and the link as the host gave it.
    pub fn new(given: HostLink, answer: Result<Counted, Refusal>) -> HostCounted
        ensures { result ≡ host_counted given answer }
    {
        match answer {
            Ok(counted) => HostCounted {
                count: counted.count,
                link: HostLink::from(counted.link),
                number: 0,
            },
            Err(refusal) => HostCounted {
                count: 0,
                link: given,
                number: u8::from(refusal),
            },
        }
    }
}

// Read's number, and where in the pool the unit begins and how many octets it has.
#[repr(C)]
#[derive(Clone, Copy)]
pub struct HostPart {
    pub offset: usize,
    pub length: usize,
    pub number: u8,
}
