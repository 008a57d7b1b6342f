// The verdict call.
ghost use Rattle.std.specs.Prelude.{◌≡◌, ℕ, Bool, length, IfOk, IfErr, MatchOption};
ghost use Rattle.trace.specs.State.{plain_of, delay_rows_of};
ghost use Rattle.verdict.specs.Answer.{Decides, Examines};
ghost use Rattle.verdict.specs.Code.{code};
ghost use Rattle.verdict.specs.Cost.{cost_of};
ghost use Rattle.verdict.specs.Frame.{Lent};
ghost use Rattle.verdict.specs.Right.{Comes, Finds, Right, Times};
ghost use Rattle.verdict.specs.Schedule.{switched, Edge};

use super::found::Found;
use super::link::Bound;
use super::links::TraceLinks;
use super::search::{clear, search};
use super::tables::Tables;
use super::verdict::{Refusal, Verdict};
use kinds::kind::Kind;
use trace::table::Trace;

// The verdict on a trace, with each delay switched off whose byte is 0. (`lent` stands in each call that is lent the tables: a
// type says nothing of what a value was before.)
pub fn decide<K: Kind>(
    trace: &Trace<K>,
    on: &[u8],
    tables: &mut Tables<K>,
) -> Result<Verdict, Refusal>
    ensures lent { Lent tables.old tables.new }
    ensures rows { Decides trace.now on.now tables.old tables.new result }
    ensures right { let p = plain_of trace.now in IfOk result (λ v. Right K.Kind p.delays p.events (switched on.now) tables.new v) }
    ensures times { let p = plain_of trace.now in IfOk result (λ v. Times K.Kind p.delays p.events (switched on.now) tables.new v) }
    ensures number { IfErr result (λ f. code f ≡ 31) }
{
    let found = examine(trace, on, tables)?;
    match found.chain {
        None => Ok(Verdict::Consistent),
        Some(length) => {
            clear::<K>(tables.times, trace.events().len());
            Ok(Verdict::Conflict(length))
        }
    }
}

// The search of a verdict, and how many rounds it took. Beside a chain the times of the events may be anything.
pub fn examine<K: Kind>(
    trace: &Trace<K>,
    on: &[u8],
    tables: &mut Tables<K>,
) -> Result<Found, Refusal>
    ensures lent { Lent tables.old tables.new }
    ensures rows { Examines trace.now on.now tables.old tables.new result }
    ensures right { let p = plain_of trace.now in IfOk result (λ f. Finds K.Kind p.delays p.events (switched on.now) tables.new f.chain) }
    ensures number { IfErr result (λ f. code f ≡ 31) }
{
    let delays = trace.delays();
    let events = trace.events();
    let count = events.len();
    if tables.times.len() < count
        || tables.chain.len() < count
        || tables.scratch.len() < count
        || on.len() < delays.len()
    {
        return Err(Refusal::Short);
    }
    let links = TraceLinks { delays, events, on };
    Ok(search(&links, tables))
}

// The cost of a link of the trace, if it has such a delay and limit.
pub fn cost<K: Kind>(trace: &Trace<K>, by: Bound) -> Option<K>
    ensures value { result ≡ cost_of K.Kind (delay_rows_of trace.now) by }
    ensures priced { let p = plain_of trace.now in (on : ℕ → Bool) (l : Edge K.Time) → Comes K.Kind p.delays p.events on by l → MatchOption result ⊥ (λ w. K.place w ≡ l.cost) }
{
    let delays = trace.delays();
    match by {
        Bound::Gap => Some(K::gap().opposite()),
        Bound::Lower(number) => {
            let delay = delays.get(number as usize)?;
            Some(K::from_row(delay.least).opposite())
        }
        Bound::Upper(number) => {
            let delay = delays.get(number as usize)?;
            Some(K::from_row(delay.most?))
        }
    }
}
