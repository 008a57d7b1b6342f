ghost use Rattle.std.specs.Prelude.{◌+◌, ◌^◌, ◌≤◌, ◌++◌, Some, codes, unsigned_abs};
ghost use Rattle.std.specs.Fmt.{signed_decimal};

use std::fmt;

// A weight of the fine kind: ticks, and hairs, of which no number makes a tick.
#[derive(Clone, Copy, Debug, PartialEq, Eq, PartialOrd, Ord)]
pub struct Fine {
    pub ticks: i64,
    pub hairs: i64,
    ghost small: { unsigned_abs ticks + unsigned_abs hairs ≤ 2 ^ 60 },
}

// A fine weight as it lies in a table.
#[derive(Clone, Copy, Debug, Default, PartialEq, Eq)]
pub struct FineRow {
    pub ticks: i64,
    pub hairs: i64,
}

impl fmt::Display for Fine {
    ghost output = { λ w. Some (signed_decimal w.ticks ++ codes " " ++ signed_decimal w.hairs) };

    fn fmt<W: fmt::Write>(&self, f: &mut fmt::Formatter<W>) -> fmt::Result {
        write!(f, "{} {}", self.ticks, self.hairs)
    }
}
