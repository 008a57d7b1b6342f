// What is printed of a book.
ghost use Rattle.std.specs.Prelude.{◌≡◌, Err, length, replicate, IfOk};
ghost use Rattle.trace.specs.State.{plain_of};
ghost use Rattle.verdict.specs.Frame.{Lent};
ghost use Rattle.verdict.specs.Right.{Right, Times};
ghost use Rattle.verdict.specs.Schedule.{switched};
ghost use Rattle.report.specs.Judges.{Judges, JudgesIn, Says};
ghost use Rattle.report.specs.Told.{Told};

use book::fault::Refused;
use book::kind::{BookKind, kind_of};
use book::read::read;
use kinds::fine::Fine;
use kinds::kind::Kind;
use kinds::twin::Twin;
use kinds::whole::Whole;
use std::alloc::{AllocError, Global};
use std::fmt;
use trace::parts::{Declared, Delay, Event, MOST_DELAYS, MOST_EVENTS};
use trace::table::Trace;
use verdict::call::{cost, decide};
use verdict::link::{Kept, Link};
use verdict::tables::Tables;
use verdict::verdict::Verdict;

// Prints the verdict on a book of whatever kind, or its refusal, which it answers too.
pub fn print_book(rt: &HostRuntime, book: &[u8]) -> anyhow::Result<Option<Refused>>
    ensures { IfOk result (λ o. Told book.now o) }
{
    Ok(judge_book(rt, book)?.err())
}

// The same, and answers the verdict too.
pub fn judge_book(rt: &HostRuntime, book: &[u8]) -> anyhow::Result<Result<Verdict, Refused>>
    ensures { IfOk result (λ r. Judges book.now r) }
{
    match kind_of(book) {
        Err(why) => refused(rt, why),
        Ok(BookKind::Whole) => report::<Whole>(rt, book),
        Ok(BookKind::Fine) => report::<Fine>(rt, book),
        Ok(BookKind::Twin) => report::<Twin>(rt, book),
    }
}

// Prints a refusal, and answers it.
fn refused(rt: &HostRuntime, why: Refused) -> anyhow::Result<Result<Verdict, Refused>>
    ensures { IfOk result (λ r. r ≡ Err why) }
{
    println!(rt; "{why}")?;
    Ok(Err(why))
}

// A table of as many rows, each of them `row`.
fn table<T: Copy>(heap: Global, row: T, count: usize) -> Result<Vec<T>, AllocError>
    ensures long { IfOk result (λ v. length v.items ≡ count) }
    ensures rows { IfOk result (λ v. v.items ≡ replicate count row) }
{
    let mut rows = Vec::new(heap);
    rows.resize(count, row)?;
    Ok(rows)
}

// Prints the verdict on a book of the kind `K`, or its refusal, and answers either. (The clauses here spell what a schedule uses
// of a kind, so that a reader sees that it uses nothing else.)
fn report<K: Kind + fmt::Display>(
    rt: &HostRuntime,
    book: &[u8],
) -> anyhow::Result<Result<Verdict, Refused>>
    ensures { IfOk result (λ r. JudgesIn K.Kind.group K.Kind.place K.Kind.spacing K.Kind.limited K.Kind.coded book.now r) }
{
    let heap = rt.alloc();
    // A kind's row has no default.
    let unused = Delay {
        given: Declared::default(),
        least: K::zero().to_row(),
        most: None,
    };
    let mut delays = table(heap, unused, MOST_DELAYS)?;
    let mut events = table(heap, Event::default(), MOST_EVENTS)?;
    let mut trace = Trace::<K>::open(delays.as_mut_slice(), events.as_mut_slice());
    match read(&mut trace, book) {
        Err(why) => refused(rt, why),
        Ok(()) => Ok(Ok(judge(rt, &trace)?)),
    }
}

// Prints the verdict on a trace with every delay on, and answers it.
fn judge<K: Kind + fmt::Display>(rt: &HostRuntime, trace: &Trace<K>) -> anyhow::Result<Verdict>
    ensures { IfOk result (λ v. Says K.Kind.group K.Kind.place K.Kind.spacing K.Kind.limited (plain_of trace.now) v) }
{
    let heap = rt.alloc();
    let on = table(heap, 1u8, MOST_DELAYS)?;
    let mut times = table(heap, K::zero().to_row(), MOST_EVENTS)?;
    let mut chain = table(heap, Link::default(), MOST_EVENTS)?;
    let mut scratch = table(heap, Kept::default(), MOST_EVENTS)?;
    let mut tables = Tables {
        times: times.as_mut_slice(),
        chain: chain.as_mut_slice(),
        scratch: scratch.as_mut_slice(),
    };
    let verdict = decided(trace, on.as_slice(), &mut tables);
    let count = trace.events().len();
    println!(rt; "kind {}", K::number())?;
    println!(rt; "events {count}")?;
    match verdict {
        Verdict::Consistent => print_times::<K>(rt, times.as_slice(), count)?,
        Verdict::Conflict(length) => print_chain(rt, trace, chain.as_slice(), length)?,
    }
    Ok(verdict)
}

// The verdict with every delay on, in tables that have room for every trace.
fn decided<K: Kind>(trace: &Trace<K>, on: &[u8], tables: &mut Tables<K>) -> Verdict
    requires ones { on.now ≡ replicate 64 1 }
    requires room { (length tables.old.times.now ≡ 512) × ((length tables.old.chain.now ≡ 512) × (length tables.old.scratch.now ≡ 512)) }
    ensures lent { Lent tables.old tables.new }
    ensures says { Says K.group K.place K.spacing K.limited (plain_of trace.now) result }
    ensures right { let p = plain_of trace.now in Right K.Kind p.delays p.events (switched on.now) tables.new result }
    ensures times { let p = plain_of trace.now in Times K.Kind p.delays p.events (switched on.now) tables.new result }
{
    match decide(trace, on, tables) {
        Ok(verdict) => verdict,
        Err(_) => unreachable(),
    }
}

// (`take` and no cut slice, which would have to be shown to be long enough. The same of a chain.)
fn print_times<K: Kind + fmt::Display>(
    rt: &HostRuntime,
    times: &[K::Row],
    count: usize,
) -> anyhow::Result<()> {
    println!(rt; "consistent")?;
    for (event, row) in times.iter().enumerate().take(count) {
        println!(rt; "{event} {}", K::from_row(*row))?;
    }
    Ok(())
}

fn print_chain<K: Kind + fmt::Display>(
    rt: &HostRuntime,
    trace: &Trace<K>,
    chain: &[Link],
    length: usize,
) -> anyhow::Result<()> {
    println!(rt; "conflict")?;
    println!(rt; "chain {length}")?;
    for link in chain.iter().take(length) {
        if let Some(cost) = cost(trace, link.by) {
            println!(rt; "link {} {} {cost}", link.from, link.to)?;
        }
    }
    Ok(())
}
