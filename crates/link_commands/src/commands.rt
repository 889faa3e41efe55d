// Commands: the monitors, the filter, octet counting.
ghost use Rattle.std.specs.Prelude.{◌≡◌};
ghost use Rattle.board.specs.With.{with_monitor};
ghost use Rattle.link.specs.Answer.{answered};
ghost use Rattle.link.specs.Commands.{obeyed};
ghost use Rattle.link.specs.Calls.{command_answer};

use board::{Counting, Link, Supervision, UnitState};
use filter::Memory;
use link::{Command, Refusal};
use monitor::{Mode, Monitor};

// The link with another monitor.
fn with_monitor(link: Link, monitor: Monitor) -> Link
    ensures { result ≡ with_monitor link monitor }
{
    Link {
        supervision: Supervision {
            monitor,
            ..link.supervision
        },
        ..link
    }
}

// What a command makes of a link.
#[tactic(auto, unfolding(link::specs::Commands::obeyed))]
fn obey(link: Link, command: Command) -> Link
    ensures { result ≡ obeyed command link }
{
    let monitor = link.supervision.monitor;
    let units = link.units;
    match command {
        Command::MonitorOff => with_monitor(link, monitor.stop()),
        Command::StartFailure => with_monitor(link, Monitor::started(Mode::Failure)),
        Command::StartAlignment => with_monitor(link, Monitor::started(Mode::Alignment)),
        Command::MustHandOver => Link {
            units: UnitState {
                memory: Memory::empty(),
                ..units
            },
            ..link
        },
        Command::CountOctets => Link {
            units: UnitState {
                counting: Counting {
                    on: true,
                    ..units.counting
                },
                ..units
            },
            ..link
        },
    }
}

// 1 monitor off, 2 start failure monitor, 3 start alignment monitor, 4 next unit must be handed over, 5 enter octet counting.
#[tactic(auto, unfolding(link::specs::Calls::command_answer, link::specs::Refusals::command_number, link::specs::Refusals::clear_number, link::specs::Refusals::first))]
pub fn command(link: Link, command: u16) -> Result<Link, Refusal>
    ensures { answered link result ≡ command_answer link command }
{
    // the command is a number, as C hands it in
    link::check_open(&link)?;
    let known = Command::try_from(command)?;
    Ok(obey(link, known))
}
