// Exported for C: commands, and clearing event bits.

#![tactic(auto)]

ghost use Rattle.std.specs.Prelude.{◌≡◌, []};
ghost use Rattle.calls.specs.Call as calls;
ghost use Rattle.host_calls.specs.Answers.{host_answer};

use board::Link;
use host_link::HostLink;
use host_link::answers::HostAnswer;

// 1 monitor off, 2 start failure monitor, 3 start alignment monitor, 4 next unit must be handed over, 5 enter octet counting.
#[tactic(auto, unfolding(host_link::specs::Crossing::given_back))]
#[unsafe(no_mangle)]
pub extern "C" fn pj_command_value(link: HostLink, command: u16) -> HostAnswer
    ensures { record { number = result.number; link = result.link; count = 0; part = []; lent = [] } ≡ host_answer link (calls.command command) }
{
    HostAnswer::new(link, calls::command(Link::from(link), command))
}

// Clears the chosen event bits.
#[tactic(auto, unfolding(host_link::specs::Crossing::given_back))]
#[unsafe(no_mangle)]
pub extern "C" fn pj_clear_value(link: HostLink, chosen: u16) -> HostAnswer
    ensures { record { number = result.number; link = result.link; count = 0; part = []; lent = [] } ≡ host_answer link (calls.clear chosen) }
{
    HostAnswer::new(link, calls::clear(Link::from(link), chosen))
}
