// The marks of an event, and what the processes do with them. A trace has 16 processes, and nothing here is on a heap. What is
// open lasts from event to event and marks do not, so the two are arrays apart.
ghost use Rattle.std.specs.Prelude.{◌≡◌, ◌≤◌, take};
ghost use Rattle.verdict.specs.Sweep.{marks as marks_in, ended as ended_in, afters, present};

use super::links::TraceLinks;
use super::machine::{Match, Wait};
use kinds::kind::Kind;
use trace::parts::Event;

// The marks of one process at an event.
#[derive(Clone, Copy)]
pub(crate) struct Marks {
    pub(crate) end: Option<u8>,
    pub(crate) begin: Option<u8>,
}

impl<K: Kind> TraceLinks<'_, '_, K> {
    // The marks of an event, each at its process.
    pub(crate) fn marks(&self, event: Event) -> [Marks; 16]
        ensures { result ≡ marks_in self.now.delays.now event }
    {
        let mut found = [Marks {
            end: None,
            begin: None,
        }; 16];
        for (number, delay) in self.delays.iter().enumerate() {
            let marks = &mut found[delay.given.process as usize];
            if (event.ends >> number) & 1 == 1 {
                marks.end = Some(number as u8);
            }
            if (event.begins >> number) & 1 == 1 {
                marks.begin = Some(number as u8);
            }
        }
        found
    }
}

// Each process takes its marks at an event. What is then open is left in `waits`, and the waits that end come first in `ended`;
// the answer is their number. (All in place and by one loop, since an array that is made anew is copied slot by slot, and the
// waits alone, so that nobody goes over the processes where none ends: else a search takes about twice as long.)
pub(crate) fn advance(
    waits: &mut [Wait; 16],
    ended: &mut [Match; 16],
    marks: &[Marks; 16],
    event: u16,
) -> usize
    ensures few { result ≤ 16 }
    ensures ended { take result ended.new ≡ present (ended_in waits.old marks.now) }
    ensures waits { waits.new ≡ afters event waits.old marks.now }
{
    let mut count = 0;
    for process in 0..16 {
        let wait = waits[process];
        let marks = marks[process];
        waits[process] = wait.then(marks.end, marks.begin, event);
        if let Some(begun) = wait.ends(marks.end) {
            ended[count] = begun;
            count += 1;
        }
    }
    count
}
