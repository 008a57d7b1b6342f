// The trailer: the last 16 bytes of a book.
ghost use Rattle.std.specs.Prelude.{◌≡◌, ◌+◌, Some, None, length, MatchResult};
ghost use Rattle.book.specs.Trailer.{start_in, delays_in, events_in, count_of_events, trailer_refusal, DelayEntries};

use super::bytes::bytes_at;
use super::fault::{Fault, Refused};
use super::kind::kind_of;
use trace::parts::{MOST_DELAYS, MOST_EVENTS};

// The size of a delay entry, in bytes.
pub(crate) const DELAY_SIZE: usize = 20;

// The sections of a book, as its trailer tells of them: where they begin, their entries, and where the trailer begins.
#[derive(Drop)]
pub(crate) struct Sections<'b> {
    pub(crate) book: &'b [u8],
    pub(crate) delays_at: usize,
    pub(crate) delays: &'b [[u8; DELAY_SIZE]],
    pub(crate) events_at: usize,
    pub(crate) event_count: usize,
    pub(crate) start: usize,
    ghost delays_begin: { delays_at ≡ delays_in book.now },
    ghost delays_are: { DelayEntries delays.now book.now },
    ghost events_begin: { events_at ≡ events_in book.now },
    ghost events_are: { event_count ≡ count_of_events book.now },
    ghost trailer: { start + 16 ≡ length book.now },
}

impl<'b> Sections<'b> {
    // The sections of a book, which must be of the kind of that number: a kind of time tells its number, and need not be one of a book's.
    pub(crate) fn find(book: &'b [u8], kind: u8) -> Result<Sections<'b>, Refused>
        ensures { MatchResult result (λ s. (trailer_refusal kind book.now ≡ None) × (s.book.now ≡ book.now)) (λ f. trailer_refusal kind book.now ≡ Some f) }
    {
        let size = book.len();
        if kind_of(book)?.number() != kind {
            return Err(Fault::Kind.at(size - 4));
        }
        let start = size - 16;
        let delays = u32::from_be_bytes(bytes_at(book, start)) as usize;
        let events = u32::from_be_bytes(bytes_at(book, start + 4)) as usize;
        let delay_count = u16::from_be_bytes(bytes_at(book, start + 8)) as usize;
        let event_count = u16::from_be_bytes(bytes_at(book, start + 10)) as usize;
        if delay_count > MOST_DELAYS
            || event_count > MOST_EVENTS
            || delays > start
            || events > start
            || DELAY_SIZE * delay_count > delays
        {
            return Err(Fault::Section.at(start));
        }
        let delays_at = start - delays;
        Ok(Sections {
            book,
            delays_at,
            delays: book[delays_at..delays_at + DELAY_SIZE * delay_count]
                .as_chunks()
                .0,
            events_at: start - events,
            event_count,
            start,
        })
    }
}
