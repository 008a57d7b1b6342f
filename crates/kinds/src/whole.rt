ghost use Rattle.std.specs.Prelude.{◌^◌, ◌≤◌, Some, unsigned_abs};
ghost use Rattle.std.specs.Fmt.{signed_decimal};

use std::fmt;

// A weight of the whole kind: a number of ticks.
#[derive(Clone, Copy, Debug, PartialEq, Eq, PartialOrd, Ord)]
pub struct Whole {
    pub ticks: i64,
    ghost small: { unsigned_abs ticks ≤ 2 ^ 60 },
}

// A whole weight as it lies in a table.
#[derive(Clone, Copy, Debug, Default, PartialEq, Eq)]
pub struct WholeRow {
    pub ticks: i64,
}

impl fmt::Display for Whole {
    ghost output = { λ w. Some (signed_decimal w.ticks) };

    fn fmt<W: fmt::Write>(&self, f: &mut fmt::Formatter<W>) -> fmt::Result {
        write!(f, "{}", self.ticks)
    }
}
