// Output: send and fill, the calls that put units on the line.

#![tactic(auto)]

ghost use Rattle.std.specs.Prelude.{◌≡◌};
ghost use Rattle.link.specs.Answer.{number_of};
ghost use Rattle.sending.specs.Sender.{TxInRange};
ghost use Rattle.sending.specs.InnerPutting.{Puts, Room};
ghost use Rattle.output.specs.Refusals.{send_number, fill_number};
ghost use Rattle.output.specs.Output.{sender, unit_out, fill_out, fill_event, link_sent, output_of, send_answer, fill_answer};

use board::{Link, Supervision, Transmitter};
use link::{Counted, Refusal};
use sending::Tx;

// The faults of fill, which send has too.
#[tactic(auto, unfolding(crate::specs::Refusals::fill_number, link::specs::Refusals::clear_number, link::specs::Refusals::first))]
fn check_output(link: &Link, output: &[u8]) -> Result<(), Refusal>
    ensures { number_of result ≡ fill_number link.now output.now }
{
    link::check_open(link)?;
    if output.len() < Link::OUTPUT {
        return Err(Refusal::ShortOutput);
    }
    Ok(())
}

// The faults of send.
#[tactic(auto, unfolding(crate::specs::Refusals::send_number, crate::specs::Refusals::fill_number, link::specs::Refusals::first))]
fn check_content(link: &Link, content: &[u8], output: &[u8]) -> Result<(), Refusal>
    ensures { number_of result ≡ send_number link.now content.now output.now }
{
    check_output(link, output)?;
    if !(Link::LEAST_CONTENT..=Link::MOST_CONTENT).contains(&content.len()) {
        return Err(Refusal::ContentLength);
    }
    Ok(())
}

// The sender at the start of an output area, with the bits that wait. Neither type is this crate's, so that no From can stand here.
fn sender_of(t: Transmitter) -> Tx
    requires { TxInRange (sender t) }
    ensures { result ≡ sender t }
{
    Tx {
        at: 0,
        count: t.count,
        wait: t.wait,
        ones: 0,
    }
}

// A unit behind what waits. The first output of a booking begins with a flag; later the flag before it opens the unit.
fn put_out(output: &mut [u8], s: Tx, t: Transmitter, content: &[u8]) -> Tx
    requires { Room s (unit_out t content.now) output.old }
    ensures { Puts output.old s (unit_out t content.now) 0 result output.new }
{
    if t.flagged {
        return sending::put_unit(output, s, content);
    }
    let f = sending::put_flag(output, s);
    sending::put_unit(output, f, content)
}

// The fill-in unit of the last content behind what waits; before any content, a flag.
fn put_fill(output: &mut [u8], s: Tx, t: Transmitter) -> Tx
    requires { Room s (fill_out t) output.old }
    ensures { Puts output.old s (fill_out t) 0 result output.new }
{
    if !t.sent {
        return sending::put_flag(output, s);
    }
    let last = t.last;
    let content = [last[0], last[1], 0];
    put_out(output, s, t, &content)
}

// The event bit of a fill: none for a flag alone.
fn fill_event(sent: bool) -> u16
    ensures { result ≡ fill_event sent }
{
    if sent { Link::EVENT_FILL } else { 0 }
}

// What a call gives once the sender has come this far.
fn after_output(link: Link, s: Tx, sent: bool, last: [u8; 2], event: u16) -> Counted
    ensures { result ≡ record { link = link_sent link s.count s.wait sent last event; count = s.at } }
{
    let transmitter = Transmitter {
        flagged: true,
        count: s.count,
        wait: s.wait,
        sent,
        last,
    };
    let supervision = Supervision {
        events: link.supervision.events | event,
        ..link.supervision
    };
    Counted {
        link: Link {
            supervision,
            transmitter,
            ..link
        },
        count: s.at,
    }
}

// Sends content as a unit.
#[tactic(auto, unfolding(crate::specs::Output::send_answer), using(crate::proofs::Outputs::two_octets))]
pub fn send(link: Link, content: &[u8], output: &mut [u8]) -> Result<Counted, Refusal>
    ensures { output_of link result output.new ≡ send_answer link content.now output.old }
{
    check_content(&link, content, output)?;
    let t = link.transmitter;
    let s = put_out(output, sender_of(t), t, content);
    let last = [content[0], content[1]];
    Ok(after_output(link, s, true, last, Link::EVENT_SENT))
}

// Sends the fill-in unit of the last content; before any content, a flag.
#[tactic(auto, unfolding(crate::specs::Output::fill_answer))]
pub fn fill(link: Link, output: &mut [u8]) -> Result<Counted, Refusal>
    ensures { output_of link result output.new ≡ fill_answer link output.old }
{
    check_output(&link, output)?;
    let t = link.transmitter;
    let s = put_fill(output, sender_of(t), t);
    Ok(after_output(link, s, t.sent, t.last, fill_event(t.sent)))
}
