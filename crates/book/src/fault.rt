// Why a book was refused, and where.
ghost use Rattle.std.specs.Prelude.{◌≡◌, Some};
ghost use Rattle.book.specs.Fault.{code, shown, Carries};
ghost use Rattle.book.specs.Trailer.{refused};

use std::fmt;
use trace::parts::Refusal;

// What is wrong: the book's own checks, or a refusal of the trace, carried whole.
#[derive(Clone, Copy, PartialEq, Eq, Debug)]
pub enum Fault {
    Size,
    Tag,
    Kind,
    Section,
    Shape,
    Trace(Refusal),
}

// A fault and the byte of the book at which it lies.
#[derive(Clone, Copy, PartialEq, Eq, Debug)]
pub struct Refused {
    pub fault: Fault,
    pub place: usize,
}

impl From<Refusal> for Fault {
    ghost from_gives = { Carries };

    fn from(refusal: Refusal) -> Fault {
        Fault::Trace(refusal)
    }
}

impl Fault {
    // The number that is printed. A match, since `as` takes no enum whose variants have fields.
    pub fn number(self) -> u8
        ensures { result ≡ code self }
    {
        match self {
            Fault::Size => 1,
            Fault::Tag => 2,
            Fault::Kind => 3,
            Fault::Section => 4,
            Fault::Shape => 5,
            Fault::Trace(why) => why.number(),
        }
    }

    // The refusal of a book for this fault at a byte.
    pub(crate) fn at(self, place: usize) -> Refused
        ensures { result ≡ refused self place }
    {
        Refused { fault: self, place }
    }
}

impl fmt::Display for Refused {
    ghost output = { λ r. Some (shown r) };

    fn fmt<W: fmt::Write>(&self, f: &mut fmt::Formatter<W>) -> fmt::Result {
        write!(f, "refused {} {}", self.fault.number(), self.place)
    }
}
