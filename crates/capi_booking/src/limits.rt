// The limits by name, with the status words and event bits, and the rows of settings.
ghost use Rattle.std.specs.Prelude.{◌≡◌};
ghost use Rattle.board.specs.Rows.{row_of};
ghost use Rattle.capi_booking.specs.Limits.{host_limits};

use board::Link;
use board::limits::Sizes;
use board::rows::Row;

// The four status words of a descriptor.
#[repr(C)]
#[derive(Clone, Copy)]
pub struct Statuses {
    pub empty: u16,
    pub good: u16,
    pub check_wrong: u16,
    pub not_whole: u16,
}

// The nine event bits, as words with that bit alone.
#[repr(C)]
#[derive(Clone, Copy)]
pub struct Events {
    pub over: u16,
    pub busy: u16,
    pub suer: u16,
    pub aerm: u16,
    pub octet: u16,
    pub abort: u16,
    pub long: u16,
    pub sent: u16,
    pub fill: u16,
}

// Sizes, status words and event bits.
#[repr(C)]
#[derive(Clone, Copy)]
pub struct HostLimits {
    pub sizes: Sizes,
    pub statuses: Statuses,
    pub events: Events,
}

// The limits of a link.
#[unsafe(no_mangle)]
pub extern "C" fn pj_limits_value() -> HostLimits
    ensures { result ≡ host_limits }
{
    HostLimits {
        sizes: calls::link_sizes(),
        statuses: Statuses {
            empty: Link::STATUS_EMPTY,
            good: Link::STATUS_GOOD,
            check_wrong: Link::STATUS_CHECK_WRONG,
            not_whole: Link::STATUS_NOT_WHOLE,
        },
        events: Events {
            over: Link::EVENT_OVER,
            busy: Link::EVENT_BUSY,
            suer: Link::EVENT_SUER,
            aerm: Link::EVENT_AERM,
            octet: Link::EVENT_OCTET,
            abort: Link::EVENT_ABORT,
            long: Link::EVENT_LONG,
            sent: Link::EVENT_SENT,
            fill: Link::EVENT_FILL,
        },
    }
}

// The numbers of a row of settings, 1 to 4; zeros, which open refuses, for any other.
#[unsafe(no_mangle)]
pub extern "C" fn pj_row_value(number: u16) -> Row
    ensures { result ≡ row_of number }
{
    calls::numbers(number)
}
