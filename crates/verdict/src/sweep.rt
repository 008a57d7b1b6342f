// The links of a trace, found event by event with a machine for each process.
ghost use Rattle.std.specs.Prelude.{◌≡◌, ◌-◌, ◌<◌, ◌∷◌, Some, length, drop, map};
ghost use Rattle.std.specs.Iterator.{YieldsFirst, item_count};
ghost use Rattle.verdict.specs.Schedule.{switched as switched_on};
ghost use Rattle.verdict.specs.Sweep.{gap_arc, limit_arc, limits, left, arcs_from, arcs_of};

use super::link::{Arc, Bound, Link};
use super::links::{Limit, Links, TraceLinks};
use super::machine::{Match, Wait};
use super::marks::advance;
use super::source::Source;
use kinds::kind::Kind;

impl<K: Kind> TraceLinks<'_, '_, K> {
    fn switched(&self, number: u8) -> bool
        ensures { result ≡ switched_on self.now.on.now number }
    {
        self.on.get(number as usize).is_some_and(|byte| *byte != 0)
    }

    // The link of one limit of a wait that ends at an event, if one does, its delay is on and has such a limit.
    fn limit(&self, which: Limit, ended: Option<Match>, event: u16) -> Option<Arc<K>>
        ensures { result ≡ limit_arc K.Kind self.now.delays.now self.now.on.now which event ended }
    {
        let wait = ended?;
        if !self.switched(wait.delay) {
            return None;
        }
        let delay = self.delays.get(wait.delay as usize)?;
        match which {
            Limit::Least => Some(Arc {
                link: Link {
                    from: wait.since,
                    to: event,
                    by: Bound::Lower(wait.delay),
                },
                rise: K::from_row(delay.least),
            }),
            Limit::Most => Some(Arc {
                link: Link {
                    from: event,
                    to: wait.since,
                    by: Bound::Upper(wait.delay),
                },
                rise: K::from_row(delay.most?).opposite(),
            }),
        }
    }

    // The link of the next limit that is due, of the waits from `next` on, if any is. (By number, since the next call goes on
    // there.)
    fn next_limit(
        &self,
        which: Limit,
        ended: &[Match],
        next: &mut usize,
        event: u16,
    ) -> Option<Arc<K>>
        ensures { YieldsFirst (λ n. limits K.Kind self.now.delays.now self.now.on.now which event (map Some (drop n ended.now))) next.old result next.new }
    {
        for done in *next..ended.len() {
            if let Some(arc) = self.limit(which, Some(ended[done]), event) {
                *next = done + 1;
                return Some(arc);
            }
        }
        *next = ended.len();
        None
    }
}

// An event's number in a table; no trace has so many events that it does not fit. (That is a premise of the three functions
// below: a type for such numbers would be turned into a `usize` and back at each use.)
fn number(event: usize) -> u16
    ensures { event < 65536 → result ≡ event }
{
    u16::try_from(event).unwrap_or(u16::MAX)
}

// The event before this one.
fn before(event: usize) -> u16
    ensures { event < 65536 → result ≡ event - 1 }
{
    number(event.saturating_sub(1))
}

// The link from the event before this one.
fn gap<K: Kind>(event: usize) -> Arc<K>
    ensures { event < 65536 → result ≡ gap_arc K.Kind event }
{
    Arc {
        link: Link {
            from: before(event),
            to: number(event),
            by: Bound::Gap,
        },
        rise: K::gap(),
    }
}

impl<K: Kind> Links<'_, '_, K> {
    // Takes the marks of the next event: of its links all but the gap are then left.
    fn visit(&mut self)
        requires { self.old.event < length self.old.trace.events.now }
        ensures { gap_arc K.Kind self.old.event ∷ left K.Kind self.new ≡ arcs_from K.Kind self.old.trace.delays.now self.old.trace.on.now self.old.event self.old.waits (drop self.old.event self.old.trace.events.now) }
    {
        let events = self.trace.events;
        let marks = self.trace.marks(events[self.event]);
        self.count = advance(&mut self.waits, &mut self.ended, &marks, self.event as u16);
        self.lowers = 0;
        self.uppers = 0;
        self.event += 1;
    }
}

// All lower limits that are due at an event come before any upper limit, and then comes the next event.
impl<K: Kind> Iterator for Links<'_, '_, K> {
    type Item = Arc<K>;

    ghost next_gives = { YieldsFirst (left K.Kind) };

    ghost remaining = { item_count (left K.Kind) };

    fn next(&mut self) -> Option<Arc<K>> {
        let last = before(self.event);
        let trace = &self.trace;
        let ended = &self.ended[..self.count];
        if let Some(arc) = trace.next_limit(Limit::Least, ended, &mut self.lowers, last) {
            return Some(arc);
        }
        if let Some(arc) = trace.next_limit(Limit::Most, ended, &mut self.uppers, last) {
            return Some(arc);
        }
        if self.event >= self.trace.events.len() {
            return None;
        }
        let arc = gap(self.event);
        self.visit();
        Some(arc)
    }
}

impl<'t, 'b, K: Kind> Source for TraceLinks<'t, 'b, K> {
    type Weight = K;

    type Links = Links<'t, 'b, K>;

    ghost count = { λ s. length s.events.now };

    ghost all = { λ s. arcs_of K.Kind s.delays.now s.on.now s.events.now };

    fn events(&self) -> usize {
        self.events.len()
    }

    fn links(&self) -> Links<'t, 'b, K> {
        let mut links = Links {
            trace: TraceLinks {
                delays: self.delays,
                events: self.events,
                on: self.on,
            },
            ended: [Match { delay: 0, since: 0 }; 16],
            count: 0,
            lowers: 0,
            uppers: 0,
            event: 0,
            waits: [Wait::Idle; 16],
        };
        if self.events.is_empty() {
            return links;
        }
        links.visit();
        links
    }

    fn neighbour(&self, event: usize) -> Arc<K> {
        gap(event)
    }
}
