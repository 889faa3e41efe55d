// Exported for C: the calls that put units on the line, each under a C name of its own.

#![tactic(auto)]

ghost use Rattle.std.specs.Prelude.{◌≡◌, [], ◌∷◌};
ghost use Rattle.calls.specs.Call.{send, fill};
ghost use Rattle.host_calls.specs.Answers.{host_answer};

use board::Link;
use host_link::HostLink;
use host_link::answers::HostCounted;

// Sends content as a unit.
#[tactic(auto, unfolding(host_link::specs::Crossing::given_back))]
#[unsafe(no_mangle)]
pub extern "C" fn pj_send_value(link: HostLink, content: &[u8], output: &mut [u8]) -> HostCounted
    ensures { record { number = result.number; link = result.link; count = result.count; part = []; lent = content.now ∷ output.new ∷ [] } ≡ host_answer link (send content.now output.old) }
{
    let sent = calls::send(Link::from(link), content, output);
    HostCounted::new(link, sent)
}

// Sends the fill-in unit of the last content; before any content, a flag.
#[tactic(auto, unfolding(host_link::specs::Crossing::given_back))]
#[unsafe(no_mangle)]
pub extern "C" fn pj_fill_value(link: HostLink, output: &mut [u8]) -> HostCounted
    ensures { record { number = result.number; link = result.link; count = result.count; part = []; lent = output.new ∷ [] } ≡ host_answer link (fill output.old) }
{
    let filled = calls::fill(Link::from(link), output);
    HostCounted::new(link, filled)
}
