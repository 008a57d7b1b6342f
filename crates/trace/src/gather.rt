// The event of a list of marks: they are taken one after the other, and the first offender decides.
ghost use Rattle.std.specs.Prelude.{ℕ, List};
ghost use Rattle.trace.specs.State.{plain_of};
ghost use Rattle.trace.specs.Tally.{Tallies, Takes, Gathers};

use super::parts::{Event, Mark, Refusal};
use super::side::{EMPTY, Side};
use super::table::Trace;
use kinds::kind::Kind;

impl<K: Kind> Trace<'_, K> {
    // One mark of one side, or its refusal: `second` where its process has one there.
    fn take(&self, side: &mut Side, number: u8, second: Refusal) -> Result<(), Refusal>
        ensures { (ns : List ℕ) → Tallies (plain_of self.now).delays ns side.old → Takes second (plain_of self.now).delays ns number result side.new }
    {
        let delay = self.delays().get(number as usize).ok_or(Refusal::NoDelay)?;
        if !side.add(delay.given.process, number) {
            return Err(second);
        }
        Ok(())
    }

    // The event of the marks, or the first refusal.
    pub(crate) fn gather(&self, marks: &[Mark]) -> Result<Event, Refusal>
        ensures { Gathers (plain_of self.now).delays marks.now result }
    {
        let mut begun = EMPTY;
        let mut ended = EMPTY;
        for mark in marks {
            match *mark {
                Mark::Begin(number) => self.take(&mut begun, number, Refusal::SecondBegin)?,
                Mark::End(number) => self.take(&mut ended, number, Refusal::SecondEnd)?,
            }
        }
        Ok(Event {
            begins: begun.word,
            ends: ended.word,
        })
    }
}
