// The machine of one process: what it has open, and what it does with the marks of an event.
ghost use Rattle.std.specs.Prelude.{◌≡◌};
ghost use Rattle.verdict.specs.Machine.{after, matching};

// A process has nothing open, or one delay since one event. A machine's states, and no `Option`, since they have methods.
#[derive(Clone, Copy, PartialEq, Eq, Debug)]
pub enum Wait {
    Idle,
    Open(Match),
}

// A delay that began at an event.
#[derive(Clone, Copy, PartialEq, Eq, Debug)]
pub struct Match {
    pub delay: u8,
    pub since: u16,
}

impl Wait {
    // The begin that an end at this event matches, if any: the end is taken before the begin.
    pub fn ends(self, end: Option<u8>) -> Option<Match>
        ensures { result ≡ matching self end }
    {
        match (self, end) {
            (Wait::Open(open), Some(delay)) if open.delay == delay => Some(open),
            _ => None,
        }
    }

    // What the process has open after an event with these marks of its own.
    pub fn then(self, end: Option<u8>, begin: Option<u8>, event: u16) -> Wait
        ensures { result ≡ after self end begin event }
    {
        match (self, end, begin) {
            (_, _, Some(delay)) => Wait::Open(Match {
                delay,
                since: event,
            }),
            (_, Some(_), None) => Wait::Idle,
            (wait, None, None) => wait,
        }
    }
}
