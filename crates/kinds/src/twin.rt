ghost use Rattle.std.specs.Prelude.{◌^◌, ◌≤◌, ◌++◌, Some, codes, decimal, unsigned_abs};
ghost use Rattle.kinds.specs.Worth.{worth};
ghost use Rattle.std.specs.Fmt.{signed_decimal};

use std::fmt;

// A weight of the twin kind: ticks of a crystal and cycles of a core. 32 crystal ticks last as long as 46,875 core
// cycles, so fewer than 32 crystal ticks are kept. No order is derived, since that of the kind goes by the worth.
#[derive(Clone, Copy, Debug, PartialEq, Eq)]
pub struct Twin {
    pub crystal: u8,
    pub core: i64,
    ghost normal: { crystal ≤ 31 },
    ghost small: { unsigned_abs (worth 46875 32 crystal core) ≤ 2 ^ 60 },
}

// A twin weight as it lies in a table.
#[derive(Clone, Copy, Debug, Default, PartialEq, Eq)]
pub struct TwinRow {
    pub crystal: u8,
    pub core: i64,
}

impl fmt::Display for Twin {
    ghost output = { λ w. Some (decimal w.crystal ++ codes " " ++ signed_decimal w.core) };

    fn fmt<W: fmt::Write>(&self, f: &mut fmt::Formatter<W>) -> fmt::Result {
        write!(f, "{} {}", self.crystal, self.core)
    }
}
