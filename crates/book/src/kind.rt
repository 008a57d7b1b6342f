// The kind of a book.
ghost use Rattle.std.specs.Prelude.{◌≡◌};
ghost use Rattle.book.specs.Kind.{number_of, Numbered, OfKind};

use super::fault::{Fault, Refused};

// The sizes of books, in bytes.
const SMALLEST: usize = 16;

const LARGEST: usize = 34_576;

// The kinds that a book can be of, by their numbers.
#[derive(Clone, Copy, PartialEq, Eq, Debug)]
pub enum BookKind {
    Whole = 0,
    Fine = 1,
    Twin = 2,
}

impl TryFrom<u8> for BookKind {
    type Error = Fault;

    ghost try_from_gives = { Numbered };

    fn try_from(number: u8) -> Result<BookKind, Fault> {
        match number {
            0 => Ok(BookKind::Whole),
            1 => Ok(BookKind::Fine),
            2 => Ok(BookKind::Twin),
            _ => Err(Fault::Kind),
        }
    }
}

impl BookKind {
    // As the refusals tell theirs, and no `From`: `number` says which of its numbers a `u8` is.
    pub fn number(self) -> u8
        ensures { result ≡ number_of self }
    {
        self as u8
    }
}

// The kind that a book is of, if its size, its last three bytes and its kind byte are right.
pub fn kind_of(book: &[u8]) -> Result<BookKind, Refused>
    ensures { OfKind book.now result }
{
    let size = book.len();
    if size < SMALLEST || size > LARGEST {
        return Err(Fault::Size.at(0));
    }
    if !book.ends_with(b"TCB") {
        return Err(Fault::Tag.at(size - 3));
    }
    BookKind::try_from(book[size - 4]).map_err(|fault| fault.at(size - 4))
}
