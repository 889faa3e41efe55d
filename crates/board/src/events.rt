// Event bits.
ghost use Rattle.std.specs.Prelude.{◌≡◌};
ghost use Rattle.board.specs.Events.{event_bit};

use crate::Link;

// What sets an event bit, in the order of the bits.
#[derive(Clone, Copy, PartialEq, Eq)]
pub enum Event {
    HandedOver,
    Busy,
    Suer,
    Aerm,
    OctetTick,
    Abort,
    Long,
    Sent,
    FillSent,
}

// The word with the event's bit alone: this ties the bits by name to the order of the events. Code elsewhere works with the words, since
// a link's events are one word with a bit for each.
impl From<Event> for u16 {
    fn from(event: Event) -> u16
        ensures { result ≡ event_bit event }
    {
        match event {
            Event::HandedOver => Link::EVENT_OVER,
            Event::Busy => Link::EVENT_BUSY,
            Event::Suer => Link::EVENT_SUER,
            Event::Aerm => Link::EVENT_AERM,
            Event::OctetTick => Link::EVENT_OCTET,
            Event::Abort => Link::EVENT_ABORT,
            Event::Long => Link::EVENT_LONG,
            Event::Sent => Link::EVENT_SENT,
            Event::FillSent => Link::EVENT_FILL,
        }
    }
}
