// The rows of the lent tables that one search uses.
ghost use Rattle.std.specs.Prelude.{◌≡◌, ◌≤◌, length};
ghost use Rattle.verdict.specs.Kept.{Closed};
ghost use Rattle.verdict.specs.Scratch.{links_of};

use super::link::{Kept, Link};
use kinds::kind::Kind;

// A row for each event, in the three slices that were lent: its label, room for a link of a chain, and the link kept for it, which comes from one of them.
#[derive(Drop)]
pub(crate) struct Rows<'t, K: Kind> {
    pub(crate) times: &'t mut [K::Row],
    pub(crate) chain: &'t mut [Link],
    pub(crate) kept: &'t mut [Kept],
    ghost few: { length kept.now ≤ 512 },
    ghost labels: { length times.now ≡ length kept.now },
    ghost room: { length chain.now ≡ length kept.now },
    ghost closed: { Closed (links_of kept.now) (length kept.now) },
}
