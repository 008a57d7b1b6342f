// Crystal ticks with core cycles are a steady kind.
ghost use Rattle.std.specs.Prelude.{◌≡◌, ◌^◌, ◌<◌, ◌≤◌, ℤ, pos, unsigned_abs, refl};
ghost use Rattle.kinds.specs.Twin.{Carried, twin_worth, twin_place, twin_size, twin_zero, twin_added, twin_opposed, twin_gap, twin_limit, twin_weight, twin_row, twin_turned};
ghost use Rattle.kinds.specs.Whole.{integers};
ghost use Rattle.kinds.specs.Twins.{twin_keeps};

use super::kind::{Kind, LARGEST, LARGEST_GIVEN, Steady};
use super::twin::{Twin, TwinRow};

// 32 crystal ticks last as long as 46,875 core cycles.
const CRYSTAL: u8 = 32;

const CORE: i64 = 46_875;

// No weight has more core cycles, so that a worth fits.
const MOST_CYCLES: u64 = 1 << 56;

// The units that crystal ticks and core cycles are worth.
fn worth(crystal: u8, core: i64) -> i64
    requires { unsigned_abs core ≤ 2 ^ 56 }
    ensures { result ≡ twin_worth crystal core }
{
    CORE * i64::from(crystal) + i64::from(CRYSTAL) * core
}

// As much time with fewer than 32 crystal ticks.
fn carried(crystal: u8, core: i64) -> (u8, i64)
    requires { (crystal < 64) × (unsigned_abs core ≤ 2 ^ 57) }
    ensures { Carried crystal core result.0 result.1 }
{
    if crystal < CRYSTAL {
        (crystal, core)
    } else {
        (crystal - CRYSTAL, core + CORE)
    }
}

impl Twin {
    fn worth(self) -> i64
        ensures { result ≡ twin_place self }
    {
        worth(self.crystal, self.core)
    }

    fn size(self) -> u64
        ensures { result ≡ twin_size self }
    {
        self.worth().unsigned_abs()
    }
}

impl Kind for Twin {
    ghost Time = { ℤ };

    ghost group = { integers };

    ghost place = { twin_place };

    ghost size = { twin_size };

    ghost nought = { twin_zero };

    ghost added = { twin_added };

    ghost opposed = { twin_opposed };

    ghost spacing = { twin_gap };

    ghost limited = { twin_limit };

    ghost coded = { 2 };

    type Row = TwinRow;

    ghost weighed = { twin_weight };

    ghost rowed = { twin_row };

    ghost rules = { twin_keeps };

    fn zero() -> Twin {
        Twin {
            crystal: 0,
            core: 0,
        }
    }

    fn gap() -> Twin {
        Twin {
            crystal: 0,
            core: 1,
        }
    }

    fn number() -> u8 {
        2
    }

    fn add(self, other: Twin) -> Option<Twin> {
        if self.size() + other.size() > LARGEST {
            return None;
        }
        let (crystal, core) = carried(self.crystal + other.crystal, self.core + other.core);
        Some(Twin { crystal, core })
    }

    fn opposite(self) -> Twin {
        // Not by `carried`, which took about half as long again.
        if self.crystal == 0 {
            return Twin {
                crystal: 0,
                core: -self.core,
            };
        }
        Twin {
            crystal: CRYSTAL - self.crystal,
            core: -self.core - CORE,
        }
    }

    fn at_most(self, other: Twin) -> bool {
        self.worth() <= other.worth()
    }

    fn limit(first: u32, second: u32) -> Option<Twin> {
        if first > LARGEST_GIVEN || second > LARGEST_GIVEN {
            return None;
        }
        Some(Twin {
            crystal: (first % u32::from(CRYSTAL)) as u8,
            core: i64::from(second) + i64::from(first / u32::from(CRYSTAL)) * CORE,
        })
    }

    fn from_row(row: TwinRow) -> Twin {
        if row.crystal >= CRYSTAL
            || row.core.unsigned_abs() > MOST_CYCLES
            || worth(row.crystal, row.core).unsigned_abs() > LARGEST
        {
            return Twin::zero();
        }
        Twin {
            crystal: row.crystal,
            core: row.core,
        }
    }

    fn to_row(self) -> TwinRow {
        TwinRow {
            crystal: self.crystal,
            core: self.core,
        }
    }
}

impl Steady for Twin {
    fn overtakes() {}
}
