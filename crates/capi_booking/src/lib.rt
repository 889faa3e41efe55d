// Exported for C: the new link, opening a booking, the wipe between bookings; the limits and the rows of settings.

#![tactic(auto)]

use board::{Link, Settings};
use host_link::answers::HostAnswer;
use host_link::{HostLink, HostSettings};

pub mod limits;

ghost use Rattle.std.specs.Prelude.{◌≡◌, [], ◌∷◌};
ghost use Rattle.board.specs.Link.{new_link};
ghost use Rattle.calls.specs.Call.{opens, wipe};
ghost use Rattle.host_link.specs.Crossing.{to_host, given_settings};
ghost use Rattle.host_calls.specs.Answers.{host_answer};

// The new link, which is closed.
#[unsafe(no_mangle)]
pub extern "C" fn pj_new_value() -> HostLink
    ensures { result ≡ to_host new_link }
{
    HostLink::from(Link::new())
}

// Opens a booking over memory that is wiped.
#[tactic(auto, unfolding(host_link::specs::Crossing::given_back))]
#[unsafe(no_mangle)]
pub extern "C" fn pj_open_value(
    link: HostLink,
    settings: HostSettings,
    pool: &mut [u8],
    descriptors: &mut [u16],
) -> HostAnswer
    ensures { record { number = result.number; link = result.link; count = 0; part = []; lent = pool.new ∷ descriptors.new ∷ [] } ≡ host_answer link (opens (given_settings settings) pool.old descriptors.old) }
{
    let opened = calls::open(
        Link::from(link),
        Settings::from(settings),
        pool,
        descriptors,
    );
    HostAnswer::new(link, opened)
}

// Zeroes all of both areas, whatever they are, and gives the new link. It is never refused, so it asks for no link.
#[tactic(auto, unfolding(host_link::specs::Crossing::given_back))]
#[unsafe(no_mangle)]
pub extern "C" fn pj_wipe_value(octets: &mut [u8], words: &mut [u16]) -> HostLink
    ensures { record { number = 0; link = result; count = 0; part = []; lent = octets.new ∷ words.new ∷ [] } ≡ host_answer (to_host new_link) (wipe octets.old words.old) }
{
    HostLink::from(calls::wipe(octets, words))
}
