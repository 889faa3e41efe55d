// The link's fields, `name value` a line, and `end`.
ghost use Rattle.std.specs.Prelude.{◌≡◌, ◌++◌, OnOk, string_bytes, take};
ghost use Rattle.console_print.specs.Fields.{link_lines, reception_lines, settings_lines, receiver_lines, unit_lines, memory_lines, count_lines, monitor_lines, sender_lines, mode_name, octets_of_bits};

use board::{Counts, Gathering, Link, Settings, Supervision, Transmitter, UnitState};
use filter::Memory;
use monitor::Mode;
use std::alloc::{AllocError, Allocator};
use text::Hex;

// All fields, in the order of the link's parts.
#[tactic(auto, unfolding(crate::specs::Fields::link_lines))]
pub fn put_link<A: Allocator>(text: &mut String<A>, link: &Link) -> Result<(), AllocError>
    ensures { OnOk result (string_bytes text.new ≡ string_bytes text.old ++ link_lines link.now) }
{
    writeln!(text, "opened {}", u8::from(link.opened))?;
    put_settings(&mut *text, &link.settings)?;
    put_reception(&mut *text, link)?;
    put_sender(&mut *text, &link.transmitter)?;
    writeln!(text, "end")
}

// What line octets change.
#[tactic(auto, unfolding(crate::specs::Fields::reception_lines))]
fn put_reception<A: Allocator>(text: &mut String<A>, link: &Link) -> Result<(), AllocError>
    ensures { OnOk result (string_bytes text.new ≡ string_bytes text.old ++ reception_lines link.now) }
{
    put_receiver(&mut *text, &link.line)?;
    put_units(&mut *text, &link.units)?;
    put_supervision(text, &link.supervision)
}

#[tactic(auto, unfolding(crate::specs::Fields::settings_lines))]
fn put_settings<A: Allocator>(text: &mut String<A>, s: &Settings) -> Result<(), AllocError>
    ensures { OnOk result (string_bytes text.new ≡ string_bytes text.old ++ settings_lines s.now) }
{
    writeln!(
        text,
        "k {}\nm {}\nn {}\nt {}\nd {}\na {}\nmask {}\nfilter {}\nitu {}\norn {}",
        s.k,
        s.m,
        s.n,
        s.t,
        s.d,
        s.a,
        Hex(&s.mask),
        u8::from(s.filter),
        u8::from(s.itu),
        u8::from(s.orn)
    )
}

// The octets of an area that hold its first bits.
fn octets_of_bits(area: &[u8], bits: u16) -> &[u8]
    ensures { result.now ≡ octets_of_bits area.now bits }
{
    &area[..usize::from(bits).div_ceil(8).min(area.len())]
}

#[tactic(auto, unfolding(crate::specs::Fields::receiver_lines))]
fn put_receiver<A: Allocator>(text: &mut String<A>, line: &Gathering) -> Result<(), AllocError>
    ensures { OnOk result (string_bytes text.new ≡ string_bytes text.old ++ receiver_lines line.now) }
{
    writeln!(
        text,
        "run {}\nhunting {}\nbits {}\narea {}",
        line.state.run,
        u8::from(line.state.hunting),
        line.state.bits,
        Hex(octets_of_bits(&line.area, line.state.bits))
    )
}

#[tactic(auto, unfolding(crate::specs::Fields::unit_lines))]
fn put_units<A: Allocator>(text: &mut String<A>, units: &UnitState) -> Result<(), AllocError>
    ensures { OnOk result (string_bytes text.new ≡ string_bytes text.old ++ unit_lines units.now) }
{
    writeln!(
        text,
        "counting {}\nleft {}",
        u8::from(units.counting.on),
        units.counting.left
    )?;
    put_memory(&mut *text, &units.memory)?;
    writeln!(text, "next {}", units.slots.next)?;
    put_counts(text, &units.counts)
}

#[tactic(auto, unfolding(crate::specs::Fields::memory_lines))]
fn put_memory<A: Allocator>(text: &mut String<A>, memory: &Memory) -> Result<(), AllocError>
    ensures { OnOk result (string_bytes text.new ≡ string_bytes text.old ++ memory_lines memory.now) }
{
    writeln!(
        text,
        "memory-length {}\nmemory-octets {}\nmemory-alike {}",
        memory.length,
        Hex(&memory.octets),
        u8::from(memory.alike)
    )
}

#[tactic(auto, unfolding(crate::specs::Fields::count_lines))]
fn put_counts<A: Allocator>(text: &mut String<A>, counts: &Counts) -> Result<(), AllocError>
    ensures { OnOk result (string_bytes text.new ≡ string_bytes text.old ++ count_lines counts.now) }
{
    writeln!(
        text,
        "good {}\nover {}\ndropped {}\nlost {}",
        counts.good, counts.over, counts.dropped, counts.lost
    )
}

fn mode_name(mode: Mode) -> &'static str
    ensures { result.now ≡ mode_name mode }
{
    match mode {
        Mode::Off => "off",
        Mode::Failure => "failure",
        Mode::Alignment => "alignment",
        Mode::Idle => "idle",
    }
}

#[tactic(auto, unfolding(crate::specs::Fields::monitor_lines))]
fn put_supervision<A: Allocator>(
    text: &mut String<A>,
    supervision: &Supervision,
) -> Result<(), AllocError>
    ensures { OnOk result (string_bytes text.new ≡ string_bytes text.old ++ monitor_lines supervision.now) }
{
    writeln!(
        text,
        "mode {}\nmonitor-count {}\nevent-number {}\nevents {}",
        mode_name(supervision.monitor.mode),
        supervision.monitor.count,
        supervision.monitor.number,
        supervision.events
    )
}

#[tactic(auto, unfolding(crate::specs::Fields::sender_lines))]
fn put_sender<A: Allocator>(text: &mut String<A>, sender: &Transmitter) -> Result<(), AllocError>
    ensures { OnOk result (string_bytes text.new ≡ string_bytes text.old ++ sender_lines sender.now) }
{
    writeln!(
        text,
        "flagged {}\nwaiting {}\nwaiting-octet {}\nsent {}\nlast {}",
        u8::from(sender.flagged),
        sender.count,
        Hex(&[sender.wait]),
        u8::from(sender.sent),
        Hex(&sender.last)
    )
}
