// What a full trace and everything lent with it occupy.
ghost use Rattle.std.specs.Prelude.{◌≡◌, ◌+◌, ◌*◌, ◌<◌};

use kinds::fine::FineRow;
use kinds::twin::TwinRow;
use kinds::whole::WholeRow;
use std::mem::size_of;
use trace::parts::{Delay, Event, MOST_DELAYS, MOST_EVENTS};
use verdict::link::{Kept, Link};

// The memory of the board.
const BOARD: usize = 32_768;

// For each event: itself, its row of the chain table and its row of the scratch table.
const EVENT: usize = size_of::<Event>() + size_of::<Link>() + size_of::<Kept>();

// What the rows of a kind occupy: that of a delay, and that of a time. They are given as numbers, since `size_of` of a type
// parameter gets no proof.
#[derive(Clone, Copy)]
struct Rows {
    delay: usize,
    time: usize,
}

const WHOLE: Rows = Rows {
    delay: size_of::<Delay<WholeRow>>(),
    time: size_of::<WholeRow>(),
};

const FINE: Rows = Rows {
    delay: size_of::<Delay<FineRow>>(),
    time: size_of::<FineRow>(),
};

const TWIN: Rows = Rows {
    delay: size_of::<Delay<TwinRow>>(),
    time: size_of::<TwinRow>(),
};

impl Rows {
    // 64 delays with a byte each, and 512 events with a time each.
    fn all(self) -> usize
        requires { self.delay + self.time < 1024 }
        ensures { result ≡ 64 * (self.delay + 1) + 512 * (EVENT + self.time) }
    {
        MOST_DELAYS * (self.delay + 1) + MOST_EVENTS * (EVENT + self.time)
    }
}

fn print_rows(rt: &HostRuntime, kind: &str, rows: Rows) -> anyhow::Result<()>
    requires { rows.delay + rows.time < 1024 }
{
    println!(rt;
        "{kind}: delay {} time {} all {} of {BOARD}",
        rows.delay,
        rows.time,
        rows.all()
    )?;
    Ok(())
}

pub(crate) fn print_sizes(rt: &HostRuntime) -> anyhow::Result<()> {
    println!(rt;
        "event {} link {} kept {}",
        size_of::<Event>(),
        size_of::<Link>(),
        size_of::<Kept>()
    )?;
    print_rows(rt, "whole", WHOLE)?;
    print_rows(rt, "fine", FINE)?;
    print_rows(rt, "twin", TWIN)
}

#[cfg(test)]
mod tests {
    use super::*;

    #[test]
    fn all_fits_the_board(rt: HostRuntime) {
        assert!(rt; WHOLE.all() <= BOARD);
        assert!(rt; FINE.all() <= BOARD);
        assert!(rt; TWIN.all() <= BOARD);
    }
}
