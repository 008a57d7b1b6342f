ghost use Rattle.std.specs.Prelude.{◌≡◌, ◌+◌, ◌≤◌, false, length, map, take, slice_set};
ghost use Rattle.trace.specs.Plain.{full};
ghost use Rattle.trace.specs.Sound.{Few, Processes};
ghost use Rattle.trace.specs.Tally.{Settles};
ghost use Rattle.trace.specs.Spells.{AllSpell, all_spell_prop};

use super::parts::{Delay, Event, MOST_DELAYS, MOST_EVENTS};
use kinds::kind::Kind;

// A lent table of which at most so many rows may be in use. Those in use come first, and the others may hold anything.
// A slice with a count, and no `Vec`, since there is no heap.
#[derive(Drop)]
pub(crate) struct Table<'a, T, const MOST: usize> {
    pub(crate) rows: &'a mut [T],
    pub(crate) used: usize,
    ghost few: { Few used (length rows.now) MOST },
}

impl<'a, T: Copy, const MOST: usize> Table<'a, T, MOST> {
    // A table with no row in use.
    pub(crate) fn open(rows: &'a mut [T]) -> Table<'a, T, MOST>
        ensures rows { result.rows.now ≡ rows.old }
        ensures used { result.used ≡ 0 }
    {
        Table { rows, used: 0 }
    }

    pub(crate) fn is_full(&self) -> bool
        ensures { result ≡ full self.now.used (length self.now.rows.now) MOST }
    {
        self.rows.len() <= self.used || MOST <= self.used
    }

    // One row more in use.
    pub(crate) fn push(&mut self, row: T)
        requires { full self.old.used (length self.old.rows.now) MOST ≡ false }
        ensures rows { self.new.rows.now ≡ slice_set self.old.rows.now self.old.used row }
        ensures used { self.new.used ≡ self.old.used + 1 }
    {
        self.rows[self.used] = row;
        self.used += 1;
    }

    // The rows in use.
    pub(crate) fn as_slice(&self) -> &[T]
        ensures { result.now ≡ take self.now.used self.now.rows.now }
    {
        &self.rows[..self.used]
    }
}

// A trace of one kind, in two tables that it holds from its opening on.
#[derive(Drop)]
pub struct Trace<'a, K: Kind> {
    pub(crate) delays: Table<'a, Delay<K::Row>, MOST_DELAYS>,
    pub(crate) events: Table<'a, Event, MOST_EVENTS>,
    ghost owned: { Processes delays.used delays.rows.now },
    ghost settled: { Settles (map (λ x. x.given) (take delays.used delays.rows.now)) (take events.used events.rows.now) },
    ghost spelled: { AllSpell K.limited K.rowed (take delays.used delays.rows.now) } by { all_spell_prop K.Row.code K.limited K.rowed (take delays.used delays.rows.now) },
}
