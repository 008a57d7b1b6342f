// Opening a trace, declaring delays and noting events.
ghost use Rattle.std.specs.Prelude.{◌≡◌, ◌≤◌, length, Some, None, MatchResult};
ghost use Rattle.trace.specs.Plain.{Steps, at_most, opened, declare_refusal, limits_refusal, note_refusal, weight_of, with_delay, with_event, event_of};
ghost use Rattle.trace.specs.Sound.{Processes};
ghost use Rattle.trace.specs.Spells.{Spells};
ghost use Rattle.trace.specs.State.{plain_of, delay_rows_of, event_rows_of, Declares, Notes};
ghost use Rattle.trace.specs.Tally.{Settles};
ghost use Rattle.trace.specs.declared.parts.Refusal.TheVariants.{NoLimit};

use super::parts::{Declared, Delay, Event, Mark, Pair, Refusal};
use super::table::{Table, Trace};
use kinds::kind::Kind;

// The processes of a trace are numbered from 0 to the last.
const LAST_PROCESS: u8 = 15;

// The plain trace takes what it uses of a kind, its limits and the order of weights, and so the clauses spell both.
impl<'a, K: Kind> Trace<'a, K> {
    // A trace with no delay and no event, over tables whose rows may hold anything.
    pub fn open(delays: &'a mut [Delay<K::Row>], events: &'a mut [Event]) -> Trace<'a, K>
        ensures plainly { plain_of result ≡ opened (length delays.old) (length events.old) }
        ensures tables { (result.delays.rows.now ≡ delays.old) × (result.events.rows.now ≡ events.old) }
    {
        Trace {
            delays: Table::open(delays),
            events: Table::open(events),
        }
    }

    // One delay more, or the first refusal that applies.
    pub fn declare(&mut self, given: Declared) -> Result<(), Refusal>
        ensures plainly { Steps (declare_refusal K.limited (at_most K.group K.place) (plain_of self.old) given) (plain_of self.old) (with_delay (plain_of self.old) given) result (plain_of self.new) }
        ensures tables { Declares self.old given result self.new }
    {
        if self.delays.is_full() {
            return Err(Refusal::DelaysFull);
        }
        if given.process > LAST_PROCESS {
            return Err(Refusal::NoProcess);
        }
        let row = weigh::<K>(given)?;
        self.delays.push(row);
        Ok(())
    }

    // One event more, with these marks, or the first refusal that applies.
    pub fn note(&mut self, marks: &[Mark]) -> Result<(), Refusal>
        ensures plainly { Steps (note_refusal (plain_of self.old) marks.now) (plain_of self.old) (with_event (plain_of self.old) (event_of marks.now)) result (plain_of self.new) }
        ensures tables { Notes self.old marks.now result self.new }
    {
        let event = self.gather(marks)?;
        if self.events.is_full() {
            return Err(Refusal::EventsFull);
        }
        self.events.push(event);
        Ok(())
    }

    // The rows of the delays declared.
    pub fn delays(&self) -> &[Delay<K::Row>]
        ensures rows { result.now ≡ delay_rows_of self.now }
        ensures few { length result.now ≤ 64 }
        ensures owned { Processes (length result.now) result.now }
    {
        self.delays.as_slice()
    }

    // The events noted.
    pub fn events(&self) -> &[Event]
        ensures rows { result.now ≡ event_rows_of self.now }
        ensures few { length result.now ≤ 512 }
        ensures settled { Settles (plain_of self.now).delays (event_rows_of self.now) }
    {
        self.events.as_slice()
    }
}

// The weight of a limit, if the kind accepts it.
fn weight<K: Kind>(limit: Pair) -> Result<K, Refusal>
    ensures { MatchResult result (λ w. weight_of K.limited limit ≡ Some w) (λ f. (weight_of K.limited limit ≡ None) × (f ≡ NoLimit)) }
{
    K::limit(limit.first, limit.second).ok_or(Refusal::NoLimit)
}

// The row of a delay: its limits as weights, or the refusal of its limits.
fn weigh<K: Kind>(given: Declared) -> Result<Delay<K::Row>, Refusal>
    ensures { MatchResult result (λ row. (limits_refusal K.limited (at_most K.group K.place) given ≡ None) × (row.given ≡ given) × Spells K.limited K.rowed row) (λ f. limits_refusal K.limited (at_most K.group K.place) given ≡ Some f) }
{
    let least = weight::<K>(given.lower)?;
    let most = match given.upper {
        Some(upper) => {
            let most = weight::<K>(upper)?;
            if !least.at_most(most) {
                return Err(Refusal::Crossed);
            }
            Some(most.to_row())
        }
        None => None,
    };
    Ok(Delay {
        given,
        least: least.to_row(),
        most,
    })
}
