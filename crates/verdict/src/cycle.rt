// Cycles among the kept links: each event's kept link leads back to the event that raised it.
ghost use Rattle.std.specs.Prelude.{◌≡◌, ℕ, suc, ◌<◌, ◌≤◌, true, length, take, Some, MatchOption};
ghost use Rattle.verdict.specs.Frame.{Past};
ghost use Rattle.verdict.specs.Kept.{held_at, kept_at, Checked, First, Grounded, Round, Written};
ghost use Rattle.verdict.specs.Rows.{Same, Stamped};
ghost use Rattle.verdict.specs.Scratch.{links_of, stamp_at};

use super::link::{Kept, Link, Origin};
use super::rows::Rows;
use kinds::kind::Kind;

// Takes the stamps off.
fn unstamp(kept: &mut [Kept])
    ensures links { links_of kept.new ≡ links_of kept.old }
    ensures cleared { (v : ℕ) → v < length kept.new → stamp_at kept.new v ≡ 0 }
{
    for row in kept.iter_mut() {
        row.stamp = 0;
    }
}

impl<K: Kind> Rows<'_, K> {
    // Goes back along the kept links from an event and stamps what it passes. Answers an event that it comes to again.
    fn walk(&mut self, start: usize) -> Option<usize>
        requires { (start < length self.old.kept.now) × (Checked (links_of self.old.kept.now) (length self.old.kept.now) start (stamp_at self.old.kept.now)) }
        ensures stamps { Stamped self.old self.new }
        ensures found { MatchOption result (Grounded (links_of self.old.kept.now) start × Checked (links_of self.old.kept.now) (length self.old.kept.now) (suc start) (stamp_at self.new.kept.now)) (λ e. Round (links_of self.old.kept.now) (length self.old.kept.now) e) }
    {
        let stamp = start as u16 + 1;
        let mut at = start;
        // From row to row by their links, and no more steps than there are events and one: no iterator goes that way.
        for _ in 0..=self.kept.len() {
            let kept = self.kept[at];
            if kept.stamp == stamp {
                return Some(at);
            }
            let link = kept.link?;
            if kept.stamp != 0 {
                return None;
            }
            self.kept[at].stamp = stamp;
            at = link.from as usize;
        }
        None
    }

    // An event on a cycle of the kept links, if there is one.
    pub(crate) fn find(&mut self) -> Option<usize>
        ensures stamps { Stamped self.old self.new }
        ensures found { MatchOption result ((v : ℕ) → v < length self.old.kept.now → Grounded (links_of self.old.kept.now) v) (λ e. Round (links_of self.old.kept.now) (length self.old.kept.now) e) }
    {
        unstamp(self.kept);
        // By number, since each walk stamps the rows that an iterator would hold.
        for start in 0..self.kept.len() {
            if let Some(at) = self.walk(start) {
                return Some(at);
            }
        }
        None
    }

    // The link that is kept for an event.
    fn back(&self, event: usize) -> Origin
        requires { (event < length self.now.kept.now) × (held_at (links_of self.now.kept.now) event ≡ true) }
        ensures { kept_at (links_of self.now.kept.now) event ≡ Some result }
    {
        self.kept[event].link.unwrap()
    }

    // How many links the cycle through an event has.
    fn around(&self, on: usize) -> usize
        requires { Round (links_of self.now.kept.now) (length self.now.kept.now) on }
        ensures bound { result ≤ length self.now.kept.now }
        ensures first { First (links_of self.now.kept.now) on result }
    {
        let events = self.kept.len();
        let mut at = self.back(on).from as usize;
        // The number of links so far, which is the answer.
        for links in 1..events {
            if at == on {
                return links;
            }
            at = self.back(at).from as usize;
        }
        events
    }

    // Writes the cycle through an event, each link starting where the one before it ends. Answers its length.
    pub(crate) fn write(&mut self, on: usize) -> usize
        requires { Round (links_of self.old.kept.now) (length self.old.kept.now) on }
        ensures bound { result ≤ length self.old.kept.now }
        ensures first { First (links_of self.old.kept.now) on result }
        ensures written { Written (links_of self.old.kept.now) on result (take result self.new.chain.now) }
        ensures rows { Past result self.old.chain.now self.new.chain.now }
        ensures same { Same self.old self.new }
        ensures times { self.new.times.now ≡ self.old.times.now }
        ensures kept { self.new.kept.now ≡ self.old.kept.now }
    {
        let links = self.around(on);
        let mut at = on;
        // By number, since an iterator over the chain's rows would hold them while `back` reads the kept links.
        for row in (0..links).rev() {
            let link = self.back(at);
            self.chain[row] = Link {
                from: link.from,
                to: at as u16,
                by: link.by,
            };
            at = link.from as usize;
        }
        links
    }
}
