// The search for the earliest times: Bellman-Ford over lent tables, one text for every kind.
ghost use Rattle.std.specs.Prelude.{◌≡◌, ℕ, ◌<◌, ◌≤◌, length, MatchOption};
ghost use Rattle.verdict.specs.Answer.{Zeros};
ghost use Rattle.verdict.specs.Edge.{Inside};
ghost use Rattle.verdict.specs.Frame.{Holds, Lent, Past, Searches};
ghost use Rattle.verdict.specs.Rows.{Same};
ghost use Rattle.verdict.specs.Scratch.{links_of};
ghost use Rattle.verdict.specs.Step.{Concludes, Fresh, Modest, Relaxes, Turns};

use super::found::Found;
use super::link::{Arc, Kept, Link, Origin};
use super::rows::Rows;
use super::source::Source;
use super::tables::Tables;
use kinds::kind::Kind;

// Zero for the times of the first events. (Not by `fill`: a kind doesn't promise that its rows' clone can't fail. The whole
// table and a count: of one cut slice that is lent on, no proof says that the other rows stay.)
pub(crate) fn clear<K: Kind>(times: &mut [K::Row], events: usize)
    requires { events ≤ length times.old }
    ensures rows { Past events times.old times.new }
    ensures zeros { Zeros (K.rowed K.nought) events times.new }
{
    let zero = K::zero().to_row();
    times[..events].fill_with(|| zero);
}

impl<'t, K: Kind> Rows<'t, K> {
    // The first labels: zero for every event, and no link kept.
    fn new(times: &'t mut [K::Row], chain: &'t mut [Link], kept: &'t mut [Kept]) -> Rows<'t, K>
        requires { (length kept.old ≤ 512) × ((length times.old ≡ length kept.old) × (length chain.old ≡ length kept.old)) }
        ensures times { result.times.ghost_name ≡ times.entry.ghost_name }
        ensures chain { result.chain.ghost_name ≡ chain.entry.ghost_name }
        ensures kept { result.kept.ghost_name ≡ kept.entry.ghost_name }
        ensures events { length result.kept.now ≡ length kept.old }
        ensures room { result.chain.now ≡ chain.old }
        ensures fresh { Fresh K.Kind (length result.kept.now) result.times.now (links_of result.kept.now) }
    {
        let events = kept.len();
        clear::<K>(times, events);
        kept.fill(Kept {
            link: None,
            stamp: 0,
        });
        Rows { times, chain, kept }
    }

    // Raises the label of the event that a link leads to, where the link is not met, and keeps the link there.
    fn relax(&mut self, arc: Arc<K>) -> bool
        requires { (arc.link.from < length self.old.kept.now) × (arc.link.to < length self.old.kept.now) }
        ensures same { Same self.old self.new }
        ensures chain { self.new.chain.now ≡ self.old.chain.now }
        ensures relaxes { Relaxes K.Kind arc self.old.times.now self.new.times.now (links_of self.old.kept.now) (links_of self.new.kept.now) result }
    {
        let from = K::from_row(self.times[arc.link.from as usize]);
        // Of a trace every sum is answered; of another list of links one may be too large.
        let Some(label) = from.add(arc.rise) else {
            return false;
        };
        let to = arc.link.to as usize;
        if label.at_most(K::from_row(self.times[to])) {
            return false;
        }
        self.times[to] = label.to_row();
        self.kept[to] = Kept {
            link: Some(Origin {
                from: arc.link.from,
                by: arc.link.by,
            }),
            stamp: 0,
        };
        true
    }
}

// One round: every link once, in the source's order. Answers whether a label was raised.
fn sweep<S: Source>(source: &S, rows: &mut Rows<S::Weight>) -> bool
    requires { Inside (length rows.old.kept.now) (S.all source.now) }
    ensures same { Same rows.old rows.new }
    ensures chain { rows.new.chain.now ≡ rows.old.chain.now }
    ensures round { Turns S.Weight.Kind (S.all source.now) (length rows.old.kept.now) rows.old.times.now rows.new.times.now (links_of rows.old.kept.now) (links_of rows.new.kept.now) result }
{
    let mut raised = false;
    for arc in source.links() {
        raised |= rows.relax(arc);
    }
    raised
}

// Rounds over the links until no label is raised, or the kept links close a cycle.
fn rounds<'t, S: Source>(
    source: &S,
    times: &'t mut [<S::Weight as Kind>::Row],
    chain: &'t mut [Link],
    kept: &'t mut [Kept],
) -> Found
    requires { (Inside (length kept.old) (S.all source.now)) × ((length kept.old ≤ 512) × ((length times.old ≡ length kept.old) × (length chain.old ≡ length kept.old))) }
    ensures rounds { result.rounds ≤ length kept.old }
    ensures chain { MatchOption result.chain (chain.new ≡ chain.old) (λ l. (l ≤ length kept.old) × Past l chain.old chain.new) }
    ensures concludes { Modest S.Weight.Kind (S.all source.now) (length kept.old) → Concludes S.Weight.Kind (S.all source.now) (length kept.old) times.new chain.new result.chain }
{
    let mut rows = Rows::new(times, chain, kept);
    let events = rows.kept.len();
    // The number of a round is what is answered.
    for round in 1..=events {
        if !sweep(source, &mut rows) {
            return Found {
                rounds: round,
                chain: None,
            };
        }
        if let Some(on) = rows.find() {
            let links = rows.write(on);
            return Found {
                rounds: round,
                chain: Some(links),
            };
        }
    }
    // Without events nothing is owed; with events one of the rounds has answered.
    Found {
        rounds: events,
        chain: None,
    }
}

// The search over the first rows of the tables, one for each event.
pub(crate) fn search<S: Source>(source: &S, tables: &mut Tables<S::Weight>) -> Found
    requires { Holds (S.count source.now) tables.old }
    ensures lent { Lent tables.old tables.new }
    ensures rows { Searches (S.count source.now) tables.old tables.new result }
    ensures concludes { Modest S.Weight.Kind (S.all source.now) (S.count source.now) → Concludes S.Weight.Kind (S.all source.now) (S.count source.now) tables.new.times.now tables.new.chain.now result.chain }
{
    let events = source.events();
    rounds(
        source,
        &mut tables.times[..events],
        &mut tables.chain[..events],
        &mut tables.scratch[..events],
    )
}
