// What the calls on one link share: the refusals, the commands, the faults that most calls ask first, the sizes of the lent memory. specs/ says what each call answers.

#![tactic(auto)]

ghost use Rattle.std.specs.Prelude.{◌≡◌, true, false, IfOk};
ghost use Rattle.bits.specs.Format.{basic};
ghost use Rattle.board.specs.Malformed.{malformed};
ghost use Rattle.link.specs.Answer.{refusal_number, number_of};
ghost use Rattle.link.specs.Commands.{command_of, known};
ghost use Rattle.link.specs.Refusals.{clear_number, fits_memory};

use board::Link;

// Why a call is refused, by the numbers that a host gets; a call that is not refused answers 0.
#[derive(Clone, Copy, PartialEq, Eq)]
pub enum Refusal {
    Malformed = 1,
    Closed = 2,
    AlreadyOpen = 3,
    SettingOutOfRange = 4,
    WrongMemory = 5,
    NotZero = 6,
    LineTooLong = 7,
    FewRecords = 8,
    ShortOutput = 9,
    ContentLength = 10,
    UnknownCommand = 11,
    NoSuchSlot = 12,
    Unreadable = 13,
}

impl From<Refusal> for u8 {
    ghost from_gives = { λ refusal number. number ≡ refusal_number refusal };

    fn from(refusal: Refusal) -> u8 {
        refusal as u8
    }
}

// The link after a call that counts, and how many records it wrote or octets it put out.
#[derive(Clone, Copy, PartialEq, Eq)]
pub struct Counted {
    pub link: Link,
    pub count: usize,
}

// 1 monitor off, 2 start failure monitor, 3 start alignment monitor, 4 next unit must be handed over, 5 enter octet counting.
#[derive(Clone, Copy, PartialEq, Eq)]
pub enum Command {
    MonitorOff,
    StartFailure,
    StartAlignment,
    MustHandOver,
    CountOctets,
}

impl TryFrom<u16> for Command {
    type Error = Refusal;

    ghost try_from_gives = { λ number result. result ≡ known (command_of number) };

    #[tactic(auto, unfolding(crate::specs::Commands::command_of))]
    fn try_from(number: u16) -> Result<Command, Refusal> {
        match number {
            1 => Ok(Command::MonitorOff),
            2 => Ok(Command::StartFailure),
            3 => Ok(Command::StartAlignment),
            4 => Ok(Command::MustHandOver),
            5 => Ok(Command::CountOctets),
            _ => Err(Refusal::UnknownCommand),
        }
    }
}

// The faults that most calls ask first: a malformed link, then a closed one.
#[tactic(auto, unfolding(crate::specs::Refusals::clear_number, crate::specs::Refusals::first))]
pub fn check_open(link: &Link) -> Result<(), Refusal>
    ensures number { number_of result ≡ clear_number link.now }
    ensures open { IfOk result (λ _. (malformed link.now ≡ false) × (link.now.opened ≡ true)) }
{
    if wellformed::is_malformed(link) {
        return Err(Refusal::Malformed);
    }
    if !link.opened {
        return Err(Refusal::Closed);
    }
    Ok(())
}

// Whether pool and descriptors are exactly those of k slots.
#[tactic(auto, unfolding(crate::specs::Refusals::fits_memory))]
pub fn fits_memory(k: u16, pool: &[u8], descriptors: &[u16]) -> bool
    ensures { result ≡ fits_memory basic k pool.now descriptors.now }
{
    let slots = usize::from(k);
    (pool.len() == Link::SLOT * slots) & (descriptors.len() == 2 * slots)
}
