// Reading a book into a trace.
ghost use Rattle.std.specs.Prelude.{◌≡◌, ◌+◌, ◌<◌, MatchResult, IfOk};
ghost use Rattle.trace.specs.Plain.{Plain, at_most};
ghost use Rattle.trace.specs.State.{plain_of};
ghost use Rattle.book.specs.Answer.{Answers};
ghost use Rattle.book.specs.Entries.{delay, event, entry_fault, with_entry, entry_count, delay_misshapen, Enters, Spelling, Accepted, Taken, Reads};
ghost use Rattle.book.specs.Kept.{Grown};
ghost use Rattle.book.specs.Layout.{pair_at, delay_at, event_next};
ghost use Rattle.book.specs.Trailer.{start_in, count_of_delays};

use super::bytes::bytes_at;
use super::fault::{Fault, Refused};
use super::marks::Marks;
use super::trailer::{DELAY_SIZE, Sections};
use kinds::kind::Kind;
use trace::parts::{Declared, Pair};
use trace::table::Trace;

// The pair that eight bytes spell.
fn pair(spelled: [u8; 8]) -> Pair
    ensures { result ≡ pair_at spelled 0 }
{
    let [a, b, c, d, e, f, g, h] = spelled;
    Pair {
        first: u32::from_be_bytes([a, b, c, d]),
        second: u32::from_be_bytes([e, f, g, h]),
    }
}

// The delay that an entry spells.
fn delay_entry(entry: &[u8; DELAY_SIZE]) -> Result<Declared, Fault>
    ensures { Answers (delay_misshapen entry.now 0) (delay_at entry.now 0) result }
{
    let [process, present, 0, 0, ..] = *entry else {
        return Err(Fault::Shape);
    };
    let upper = pair(bytes_at(entry, 12));
    let upper = match present {
        0 if upper.first == 0 && upper.second == 0 => None,
        1 => Some(upper),
        _ => return Err(Fault::Shape),
    };
    Ok(Declared {
        process,
        lower: pair(bytes_at(entry, 4)),
        upper,
    })
}

// Declares the delay that an entry spells.
fn read_delay<K: Kind>(trace: &mut Trace<K>, entry: &[u8; DELAY_SIZE]) -> Result<(), Fault>
    ensures { Enters (entry_fault K.limited (at_most K.group K.place) entry.now (plain_of trace.old) (delay 0)) (plain_of trace.old) (with_entry K.limited (at_most K.group K.place) entry.now (plain_of trace.old) (delay 0)) result (plain_of trace.new) }
{
    trace.declare(delay_entry(entry)?)?;
    Ok(())
}

impl Sections<'_> {
    // Declares the delays.
    fn read_delays<K: Kind>(&self, trace: &mut Trace<K>) -> Result<(), Refused>
        ensures { Taken K.limited (at_most K.group K.place) self.now.book.now (plain_of trace.old) (count_of_delays self.now.book.now) result (plain_of trace.new) }
    {
        for (index, entry) in self.delays.iter().enumerate() {
            if let Err(fault) = read_delay(trace, entry) {
                return Err(fault.at(self.delays_at + DELAY_SIZE * index));
            }
        }
        Ok(())
    }

    // The bytes of the marks of the event at a place. Entries end where the trailer begins.
    fn spelled_at(&self, place: usize) -> Result<&[u8], Fault>
        ensures { MatchResult result (λ spelled. Spelling spelled.now self.now.book.now place) (λ f. (f ≡ Fault.Section) × (start_in self.now.book.now < event_next self.now.book.now place)) }
    {
        let entries = &self.book[..self.start];
        let count = *entries.get(place).ok_or(Fault::Section)? as usize;
        let from = place + 1;
        let next = from + 2 * count;
        if next > entries.len() {
            return Err(Fault::Section);
        }
        Ok(&entries[from..next])
    }

    // Notes the event at a place, and answers where the next entry begins.
    fn read_event<K: Kind>(&self, trace: &mut Trace<K>, place: usize) -> Result<usize, Fault>
        ensures enters { Enters (entry_fault K.limited (at_most K.group K.place) self.now.book.now (plain_of trace.old) (event place)) (plain_of trace.old) (with_entry K.limited (at_most K.group K.place) self.now.book.now (plain_of trace.old) (event place)) result (plain_of trace.new) }
        ensures next { IfOk result (λ n. n ≡ event_next self.now.book.now place) }
    {
        let spelled = self.spelled_at(place)?;
        let marks = Marks::read(spelled)?;
        trace.note(marks.as_slice())?;
        Ok(place + 1 + spelled.len())
    }

    // Notes the events, once the delays are declared. Events differ in size, so each tells where the next begins.
    fn read_events<K: Kind>(&self, trace: &mut Trace<K>) -> Result<(), Refused>
        ensures { (p : Plain) → Accepted K.limited (at_most K.group K.place) self.now.book.now p (count_of_delays self.now.book.now) (plain_of trace.old) → Taken K.limited (at_most K.group K.place) self.now.book.now p (entry_count self.now.book.now) result (plain_of trace.new) }
    {
        let mut place = self.events_at;
        for _ in 0..self.event_count {
            match self.read_event(trace, place) {
                Ok(next) => place = next,
                Err(fault) => return Err(fault.at(place)),
            }
        }
        Ok(())
    }
}

// Declares the delays of a book and notes its events, delays first.
pub fn read<K: Kind>(trace: &mut Trace<K>, book: &[u8]) -> Result<(), Refused>
    ensures keeps { Grown (plain_of trace.old) (plain_of trace.new) }
    ensures reads { Reads K.limited (at_most K.group K.place) book.now K.coded (plain_of trace.old) result (plain_of trace.new) }
{
    let sections = Sections::find(book, K::number())?;
    sections.read_delays(trace)?;
    sections.read_events(trace)
}
