// The marks of an event.
ghost use Rattle.std.specs.Prelude.{◌≡◌, ◌/◌, ◌≤◌, List, length, take};
ghost use Rattle.trace.specs.declared.parts.Mark.{Mark};
ghost use Rattle.book.specs.Answer.{Answers};
ghost use Rattle.book.specs.Entries.{mark_misshapen, Marked};
ghost use Rattle.book.specs.Layout.{mark_spelled};

use super::fault::Fault;
use std::marker::Model;
use trace::parts::Mark;

// An event has no more marks.
const MOST_MARKS: usize = 32;

// A list of marks, in an array with room for the most: there is no heap. (The kit's `ArrayVec` has none either, but would be a
// dependency of the library, which has only `std`.)
#[derive(Drop)]
pub(crate) struct Marks {
    items: [Mark; MOST_MARKS],
    count: usize,
}

impl Model for Marks {
    ghost Value = { List Mark };

    ghost view = { λ ms. take ms.count ms.items };

    ghost invariant = { λ ms. ms.count ≤ 32 };
}

impl Marks {
    pub(crate) fn as_slice(&self) -> &[Mark]
        ensures { result.now ≡ self.now }
    {
        &self.items[..self.count]
    }

    // The marks that bytes spell, two bytes each.
    pub(crate) fn read(spelled: &[u8]) -> Result<Marks, Fault>
        ensures { Marked (length spelled.now / 2) spelled.now result }
    {
        let pairs = spelled.as_chunks::<2>().0;
        if pairs.len() > MOST_MARKS {
            return Err(Fault::Shape);
        }
        // For speed the count isn't kept in the struct while reading: each mark would wait for its store and load.
        let mut items = [Mark::Begin(0); MOST_MARKS];
        for (index, two) in pairs.iter().enumerate() {
            items[index] = mark(*two)?;
        }
        Ok(Marks {
            items,
            count: pairs.len(),
        })
    }
}

// The mark that two bytes spell.
fn mark(spelled: [u8; 2]) -> Result<Mark, Fault>
    ensures { Answers (mark_misshapen spelled 0) (mark_spelled spelled 0) result }
{
    match spelled {
        [0, number] => Ok(Mark::Begin(number)),
        [1, number] => Ok(Mark::End(number)),
        _ => Err(Fault::Shape),
    }
}
