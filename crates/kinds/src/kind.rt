// The trait of every kind of time.
ghost use Rattle.std.specs.Prelude.{◌≡◌, ◌↔◌, ℕ, ◌≤◌, IsTrue, Option};
ghost use Rattle.kinds.specs.Group.{Ordered};
ghost use Rattle.kinds.specs.Rules.{Rules, Archimedean};

// No weight is larger.
pub(crate) const LARGEST: u64 = 1 << 60;

// Neither number of a limit is larger.
pub(crate) const LARGEST_GIVEN: u32 = 1_048_576;

// Whether a limit in ticks alone is accepted: ticks, and no second number.
pub(crate) fn is_ticks(first: u32, second: u32) -> bool
    ensures { IsTrue result ↔ ((first ≤ 1048576) × (second ≤ 0)) }
{
    first <= LARGEST_GIVEN && second == 0
}

// A kind of time. A weight, a `Self`, is a stretch of time in one kind.
pub trait Kind: Copy {
    // All stretches of time, also those too large for a weight.
    ghost Time: { Type 0 };

    // How they add up, and which is not above which.
    ghost group: { Ordered Time };

    // The member of the group that a weight stands for.
    ghost place: { Self → Time };

    // How large a weight is, whatever its sign.
    ghost size: { Self → ℕ };

    // The weight zero.
    ghost nought: { Self };

    // The sum of two weights, unless it may be too large.
    ghost added: { Self → Self → Option Self };

    // The opposite of a weight.
    ghost opposed: { Self → Self };

    // The gap: what lies at least between one event and the next.
    ghost spacing: { Self };

    // The weight of a limit that is given as two numbers, if they are accepted.
    ghost limited: { ℕ → ℕ → Option Self };

    // The kind's number in a book.
    ghost coded: { ℕ };

    // A weight as it lies in a table: a plain record, without the weight's invariant, so that any table will do. `to_row` and
    // `from_row` are not std's `From`: as bounds, two more impls for each kind with members of their own, which a rule would have
    // to tie to `rowed` and `weighed`.
    type Row: Copy;

    // The weight that a table's row gives, whatever the row holds.
    ghost weighed: { Self.Row → Self };

    // A weight's row.
    ghost rowed: { Self → Self.Row };

    fn zero() -> Self
        ensures { result ≡ nought };

    fn gap() -> Self
        ensures { result ≡ spacing };

    // A number and no enum, since anyone may add a kind.
    fn number() -> u8
        ensures { result ≡ coded };

    // Each kind tests the two sizes itself: a body here would ask two more functions of whoever adds a kind.
    fn add(self, other: Self) -> Option<Self>
        ensures { result ≡ added self other };

    fn opposite(self) -> Self
        ensures { result ≡ opposed self };

    // No `Ord`, under which two weights of one place would have to be one.
    fn at_most(self, other: Self) -> bool
        ensures { result ≡ group.leq (place self) (place other) };

    fn limit(first: u32, second: u32) -> Option<Self>
        ensures { result ≡ limited first second };

    fn from_row(row: Self::Row) -> Self
        ensures { result ≡ weighed row };

    fn to_row(self) -> Self::Row
        ensures { result ≡ rowed self };

    ghost rules: { Rules group place size nought added opposed spacing limited weighed rowed };
}

// A steady kind: any weight above zero, added to itself often enough, passes any other.
pub trait Steady: Kind {
    // The promise is in the contract; the call does nothing.
    fn overtakes()
        ensures { Archimedean Self.Kind.group Self.Kind.place };
}
