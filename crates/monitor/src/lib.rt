// The error monitors: SUERM in failure mode, AERM in alignment mode. State goes in by value and comes back by value.

#![tactic(auto)]

ghost use Rattle.std.specs.Prelude.{◌≡◌, ◌+◌, ◌<◌, Some, None};
ghost use Rattle.bits.specs.Octets.{worth};
ghost use Rattle.monitor.specs.Monitor.{monitor_of, started, stopped, gives, failing, aligning, step};

// Idle is where an alarm leaves a monitor; off is where it is before any start and after command 1.
#[derive(Clone, Copy, PartialEq, Eq)]
pub enum Mode {
    Off,
    Failure,
    Alignment,
    Idle,
}

// The count of errored events, lowered at decay points, and the event number, which is 0 again at each decay point.
#[derive(Clone, Copy, PartialEq, Eq)]
pub struct Monitor {
    pub mode: Mode,
    pub count: u16,
    pub number: u16,
}

// The settings T, D and A: threshold and decay of the failure monitor, threshold of the alignment monitor.
#[repr(C)]
#[derive(Clone, Copy, PartialEq, Eq)]
pub struct Limits {
    pub t: u16,
    pub d: u16,
    pub a: u16,
}

#[derive(Clone, Copy, PartialEq, Eq)]
pub enum Alarm {
    Suer,
    Aerm,
}

#[derive(Clone, Copy, PartialEq, Eq)]
pub struct Stepped {
    pub monitor: Monitor,
    pub alarm: Option<Alarm>,
}

impl Monitor {
    // Both counts zero: a new monitor is off, and commands 2 and 3 start the two others.
    pub fn started(mode: Mode) -> Self
        ensures { result ≡ started mode }
    {
        Monitor {
            mode,
            count: 0,
            number: 0,
        }
    }

    // Command 1: the counts stay.
    pub fn stop(self) -> Self
        ensures { result ≡ stopped self }
    {
        Monitor {
            mode: Mode::Off,
            ..self
        }
    }

    // One event, errored or not. The counts of a link that is not malformed are far below the bound, here and below; they are bounds of
    // functions and no type's invariant, since the C link holds these numbers, and a host may give any.
    #[tactic(auto, unfolding(crate::specs::Monitor::step))]
    pub fn step(self, limits: Limits, errored: bool) -> Stepped
        requires { (self.count < 65535) × (self.number < 65535) }
        ensures { result ≡ step limits self errored }
    {
        match self.mode {
            Mode::Failure => self.raised(errored).fail_step(limits),
            Mode::Alignment => self.raised(errored).align_step(limits),
            Mode::Off | Mode::Idle => self.goes_on(),
        }
    }

    // An event's 1 or 0 added to the count.
    fn raised(self, errored: bool) -> Self
        requires { self.count < 65535 }
        ensures { result ≡ monitor_of self.mode (self.count + worth errored) self.number }
    {
        Monitor {
            count: self.count + u16::from(errored),
            ..self
        }
    }

    // One event in failure mode. The count has the event added; the threshold is tested before the count is lowered.
    fn fail_step(self, limits: Limits) -> Stepped
        requires mode { self.mode ≡ Mode.Failure }
        requires number { self.number < 65535 }
        ensures { result ≡ failing limits.t limits.d self.count self.number }
    {
        if limits.t <= self.count {
            return self.gives(Alarm::Suer);
        }
        let number = self.number + 1;
        if number == limits.d {
            let count = self.count.saturating_sub(1);
            return Monitor {
                count,
                number: 0,
                ..self
            }
            .goes_on();
        }
        Monitor { number, ..self }.goes_on()
    }

    // One event in alignment mode. The count has the event added; it is never lowered.
    fn align_step(self, limits: Limits) -> Stepped
        requires { self.mode ≡ Mode.Alignment }
        ensures { result ≡ aligning limits.a self.count self.number }
    {
        if limits.a <= self.count {
            return self.gives(Alarm::Aerm);
        }
        self.goes_on()
    }

    // An alarm leaves the monitor idle, and both counts stay.
    fn gives(self, alarm: Alarm) -> Stepped
        ensures { result ≡ gives (monitor_of Mode.Idle self.count self.number) (Some alarm) }
    {
        Stepped {
            monitor: Monitor {
                mode: Mode::Idle,
                ..self
            },
            alarm: Some(alarm),
        }
    }

    // An event without an alarm.
    fn goes_on(self) -> Stepped
        ensures { result ≡ gives self None }
    {
        Stepped {
            monitor: self,
            alarm: None,
        }
    }
}
