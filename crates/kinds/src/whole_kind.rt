// Whole ticks are a kind.
ghost use Rattle.std.specs.Prelude.{◌≡◌, ◌≤◌, ℤ, refl};
ghost use Rattle.kinds.specs.Whole.{integers, whole_place, whole_size, whole_zero, whole_added, whole_opposed, whole_gap, whole_limit, whole_weight, whole_row};
ghost use Rattle.kinds.specs.Wholes.{whole_keeps};

use super::kind::{Kind, LARGEST, Steady, is_ticks};
use super::whole::{Whole, WholeRow};

impl Whole {
    fn size(self) -> u64
        ensures { result ≡ whole_size self }
    {
        self.ticks.unsigned_abs()
    }
}

impl Kind for Whole {
    ghost Time = { ℤ };

    ghost group = { integers };

    ghost place = { whole_place };

    ghost size = { whole_size };

    ghost nought = { whole_zero };

    ghost added = { whole_added };

    ghost opposed = { whole_opposed };

    ghost spacing = { whole_gap };

    ghost limited = { whole_limit };

    ghost coded = { 0 };

    type Row = WholeRow;

    ghost weighed = { whole_weight };

    ghost rowed = { whole_row };

    ghost rules = { whole_keeps };

    fn zero() -> Whole {
        Whole { ticks: 0 }
    }

    fn gap() -> Whole {
        Whole { ticks: 1 }
    }

    fn number() -> u8 {
        0
    }

    fn add(self, other: Whole) -> Option<Whole> {
        if self.size() + other.size() > LARGEST {
            return None;
        }
        Some(Whole {
            ticks: self.ticks + other.ticks,
        })
    }

    fn opposite(self) -> Whole {
        Whole { ticks: -self.ticks }
    }

    fn at_most(self, other: Whole) -> bool {
        self <= other
    }

    fn limit(first: u32, second: u32) -> Option<Whole> {
        if !is_ticks(first, second) {
            return None;
        }
        Some(Whole {
            ticks: i64::from(first),
        })
    }

    fn from_row(row: WholeRow) -> Whole {
        if row.ticks.unsigned_abs() > LARGEST {
            return Whole::zero();
        }
        Whole { ticks: row.ticks }
    }

    fn to_row(self) -> WholeRow {
        WholeRow { ticks: self.ticks }
    }
}

impl Steady for Whole {
    fn overtakes() {}
}
