// Ticks with hairs are a kind. It is not steady: hairs never add up to a tick.
ghost use Rattle.std.specs.Prelude.{◌≡◌, ◌+◌, ◌≤◌, ℤ, refl};
ghost use Rattle.kinds.specs.Fine.{instants, fine_place, fine_size, fine_zero, fine_added, fine_opposed, fine_gap, fine_limit, fine_weight, fine_row};
ghost use Rattle.kinds.specs.Fines.{fine_keeps};

use super::fine::{Fine, FineRow};
use super::kind::{Kind, LARGEST, is_ticks};

impl Fine {
    // Ticks and hairs together, without their signs.
    fn size(self) -> u64
        ensures { result ≡ fine_size self }
    {
        self.ticks.unsigned_abs() + self.hairs.unsigned_abs()
    }
}

impl Kind for Fine {
    ghost Time = { ℤ × ℤ };

    ghost group = { instants };

    ghost place = { fine_place };

    ghost size = { fine_size };

    ghost nought = { fine_zero };

    ghost added = { fine_added };

    ghost opposed = { fine_opposed };

    ghost spacing = { fine_gap };

    ghost limited = { fine_limit };

    ghost coded = { 1 };

    type Row = FineRow;

    ghost weighed = { fine_weight };

    ghost rowed = { fine_row };

    ghost rules = { fine_keeps };

    fn zero() -> Fine {
        Fine { ticks: 0, hairs: 0 }
    }

    fn gap() -> Fine {
        Fine { ticks: 0, hairs: 1 }
    }

    fn number() -> u8 {
        1
    }

    fn add(self, other: Fine) -> Option<Fine> {
        if self.size() + other.size() > LARGEST {
            return None;
        }
        Some(Fine {
            ticks: self.ticks + other.ticks,
            hairs: self.hairs + other.hairs,
        })
    }

    fn opposite(self) -> Fine {
        Fine {
            ticks: -self.ticks,
            hairs: -self.hairs,
        }
    }

    fn at_most(self, other: Fine) -> bool {
        self <= other
    }

    fn limit(first: u32, second: u32) -> Option<Fine> {
        if !is_ticks(first, second) {
            return None;
        }
        Some(Fine {
            ticks: i64::from(first),
            hairs: 0,
        })
    }

    fn from_row(row: FineRow) -> Fine {
        let size = row
            .ticks
            .unsigned_abs()
            .saturating_add(row.hairs.unsigned_abs());
        if size > LARGEST {
            return Fine::zero();
        }
        Fine {
            ticks: row.ticks,
            hairs: row.hairs,
        }
    }

    fn to_row(self) -> FineRow {
        FineRow {
            ticks: self.ticks,
            hairs: self.hairs,
        }
    }
}
