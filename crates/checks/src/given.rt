// What the tests of verdicts share.
use kinds::whole::WholeRow;
use trace::parts::{Declared, Delay, Pair};

// What the rows of a delay table hold before a trace is opened.
pub(crate) fn no_delay() -> Delay<WholeRow> {
    Delay {
        given: wait(0, 0, 0),
        ..Delay::default()
    }
}

fn ticks(first: u32) -> Pair {
    Pair { first, second: 0 }
}

// A wait of so many ticks.
pub(crate) fn wait(process: u8, lower: u32, upper: u32) -> Declared {
    Declared {
        process,
        lower: ticks(lower),
        upper: Some(ticks(upper)),
    }
}
