ghost use Rattle.std.specs.Prelude.{◌≡◌, ◌^◌, ◌<◌, true, false, not, if◌then◌else◌, bit_or, slice_index_or, slice_set};

// One side of an event, its begins or its ends: the delays, and their processes.
#[derive(Clone, Copy)]
pub(crate) struct Side {
    pub(crate) word: u64,
    pub(crate) processes: [bool; 16],
}

// A side with no marks.
pub(crate) const EMPTY: Side = Side {
    word: 0,
    processes: [false; 16],
};

impl Side {
    // A delay more, unless one of its process is there already. Answers whether it was added, as a set's `insert` does.
    pub(crate) fn add(&mut self, process: u8, delay: u8) -> bool
        requires { (process < 16) × (delay < 64) }
        ensures fresh { result ≡ not (slice_index_or self.old.processes process false) }
        ensures word { self.new.word ≡ (if result then bit_or self.old.word (2 ^ delay) else self.old.word) }
        ensures processes { self.new.processes ≡ (if result then slice_set self.old.processes process true else self.old.processes) }
    {
        let fresh = !self.processes[process as usize];
        if fresh {
            self.processes[process as usize] = true;
            self.word |= 1 << delay;
        }
        fresh
    }
}
