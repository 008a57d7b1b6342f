// Where the search gets its links from.
ghost use Rattle.std.specs.Prelude.{◌≡◌, ℕ, ◌<◌, ◌≤◌, List};
ghost use Rattle.std.specs.Iterator.{IsFinite, AlwaysYields};
ghost use Rattle.verdict.specs.Edge.{Inside, Neighbour};
ghost use Rattle.verdict.specs.declared.link.Arc.{Arc};

use super::link::Arc;
use kinds::kind::Kind;

// A finite list of links between events, handed out one after the other, as often as a round asks for them.
pub trait Source {
    type Weight: Kind;

    type Links: Iterator<Item = Arc<Self::Weight>>;

    ghost count: { Self → ℕ };

    ghost all: { Self → List (Arc Self.Weight) };

    // How many events the links join.
    fn events(&self) -> usize
        ensures value { result ≡ count self.now }
        ensures few { result ≤ 512 }
        ensures inside { Inside (count self.now) (all self.now) };

    // The links, from the first to the last. They may be asked for a next one at any time, also after the last.
    fn links(&self) -> Self::Links
        ensures can { (at : Self.Links) → Self.Links.can_next at }
        ensures ends { IsFinite (Self.Links.remaining result) }
        ensures all { AlwaysYields Self.Links.next_gives (λ x. x) result (all self.now) };

    // The link from the event before this one.
    fn neighbour(&self, event: usize) -> Arc<Self::Weight>
        ensures { 0 < event → event < count self.now → Neighbour (all self.now) event result };
}
