// What a trace is made of.
ghost use Rattle.std.specs.Prelude.{◌≡◌};
ghost use Rattle.trace.specs.Plain.{code};

// A trace has at most so many delays and events.
pub const MOST_DELAYS: usize = 64;

pub const MOST_EVENTS: usize = 512;

// A limit as it is given: two numbers, which the kind turns into a weight.
#[derive(Clone, Copy, PartialEq, Eq, Debug, Default)]
pub struct Pair {
    pub first: u32,
    pub second: u32,
}

// A delay as it is given: a wait of one process that lasts from `lower` to `upper`, or has no upper limit.
#[derive(Clone, Copy, PartialEq, Eq, Debug, Default)]
pub struct Declared {
    pub process: u8,
    pub lower: Pair,
    pub upper: Option<Pair>,
}

// A delay as it lies in a table: as given, and its limits as rows of weights.
#[derive(Clone, Copy, PartialEq, Eq, Debug, Default)]
pub struct Delay<R> {
    pub given: Declared,
    pub least: R,
    pub most: Option<R>,
}

// A mark begins or ends the delay of that number.
#[derive(Clone, Copy, PartialEq, Eq, Debug)]
pub enum Mark {
    Begin(u8),
    End(u8),
}

// An event: the delays begun and those ended at it, bit D for delay D.
#[derive(Clone, Copy, PartialEq, Eq, Debug, Default)]
pub struct Event {
    pub begins: u64,
    pub ends: u64,
}

// Why a call on a trace was refused, each with its number.
#[derive(Clone, Copy, PartialEq, Eq, Debug)]
pub enum Refusal {
    DelaysFull = 10,
    NoProcess = 11,
    NoLimit = 12,
    Crossed = 13,
    EventsFull = 20,
    NoDelay = 21,
    SecondBegin = 22,
    SecondEnd = 23,
}

impl Refusal {
    // (Written for each enum of refusals: `as` takes no type parameter.)
    pub fn number(self) -> u8
        ensures { result ≡ code self }
    {
        self as u8
    }
}
