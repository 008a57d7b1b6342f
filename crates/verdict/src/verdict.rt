// What a verdict says, and why one is refused.
ghost use Rattle.std.specs.Prelude.{◌≡◌};
ghost use Rattle.verdict.specs.Code.{code};

// The times written are the earliest; or a chain of this length was written, which no schedule meets. Two answers with names,
// and no `Option`, since neither is an absence.
#[derive(Clone, Copy, PartialEq, Eq, Debug)]
pub enum Verdict {
    Consistent,
    Conflict(usize),
}

// A table or the bytes are too short.
#[derive(Clone, Copy, PartialEq, Eq, Debug)]
pub enum Refusal {
    Short = 31,
}

impl Refusal {
    pub fn number(self) -> u8
        ensures { result ≡ code self }
    {
        self as u8
    }
}
