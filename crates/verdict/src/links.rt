ghost use Rattle.std.specs.Prelude.{◌≤◌, length};
ghost use Rattle.trace.specs.Sound.{Processes};

use super::machine::{Match, Wait};
use kinds::kind::Kind;
use trace::parts::{Delay, Event};

// Which limit of a delay. An enum and no closure, since the contracts name it.
#[derive(Clone, Copy)]
pub(crate) enum Limit {
    Least,
    Most,
}

// The delays and events of a trace, with a byte for each delay that switches it off where it is 0. Bytes and no `bool`s, which
// would ask more of a caller; and a slice of their own, since they are lent apart from the trace.
#[derive(Drop)]
pub(crate) struct TraceLinks<'t, 'b, K: Kind> {
    pub(crate) delays: &'t [Delay<K::Row>],
    pub(crate) events: &'t [Event],
    pub(crate) on: &'b [u8],
    ghost few: { length delays.now ≤ 64 },
    ghost short: { length events.now ≤ 512 },
    ghost owned: { Processes (length delays.now) delays.now },
    ghost bytes: { length delays.now ≤ length on.now },
}

// The links of a trace that a round has still to take. `count` waits ended at the event before: of the first `lowers` the lower
// limit is taken, of the first `uppers` the upper one. Then come the links from `event` on, before which each process has its
// wait open. (Numbers and no iterators, since an array's own iterator copies each slot in and clears it again.)
#[derive(Drop)]
pub(crate) struct Links<'t, 'b, K: Kind> {
    pub(crate) trace: TraceLinks<'t, 'b, K>,
    pub(crate) ended: [Match; 16],
    pub(crate) count: usize,
    pub(crate) lowers: usize,
    pub(crate) uppers: usize,
    pub(crate) event: usize,
    pub(crate) waits: [Wait; 16],
    ghost few: { count ≤ 16 },
    ghost near: { event ≤ 512 },
}
