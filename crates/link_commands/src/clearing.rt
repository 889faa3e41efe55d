// Clearing event bits.
ghost use Rattle.std.specs.Prelude.{◌≡◌};
ghost use Rattle.link.specs.Answer.{answered};
ghost use Rattle.link.specs.Calls.{without_bits, clear_answer};

use board::{Link, Supervision};
use link::Refusal;

// The event bits without the chosen ones.
fn without_bits(events: u16, chosen: u16) -> u16
    ensures { result ≡ without_bits events chosen }
{
    events ^ (events & chosen)
}

// Clears the chosen event bits. Bits that are not set are no fault.
#[tactic(auto, unfolding(link::specs::Calls::clear_answer, link::specs::Refusals::clear_number, link::specs::Refusals::first))]
pub fn clear(link: Link, chosen: u16) -> Result<Link, Refusal>
    ensures { answered link result ≡ clear_answer link chosen }
{
    link::check_open(&link)?;
    let events = without_bits(link.supervision.events, chosen);
    Ok(Link {
        supervision: Supervision {
            events,
            ..link.supervision
        },
        ..link
    })
}
