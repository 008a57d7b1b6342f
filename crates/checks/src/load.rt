// How many rounds a verdict takes on a load of 512 events, drawn at random from a fixed start.
ghost use Rattle.std.specs.Prelude.{◌≡◌, ◌+◌, ◌*◌, ◌/◌, ◌%◌, ◌^◌, ◌<◌};

#[cfg(test)]
mod tests {
    use crate::given::{no_delay, wait};
    use kinds::whole::{Whole, WholeRow};
    use std::process::Abort;
    use std::test::Fail;
    use trace::parts::{Declared, Event, Mark};
    use trace::table::Trace;
    use verdict::call::examine;
    use verdict::found::Found;
    use verdict::link::{Kept, Link};
    use verdict::tables::Tables;

    const EVENTS: usize = 512;

    // Events come to the processes in turn, and each process has one delay, of its own number.
    const PROCESSES: usize = 8;

    #[derive(Drop)]
    struct Generator {
        value: u64,
        ghost small: { value < 2 ^ 31 },
    }

    impl Generator {
        // Moves on to the next value, and gives its high bits.
        fn draw(&mut self) -> u16
            ensures below { result < 2 ^ 15 }
            ensures high { result ≡ self.new.value / 65536 }
            ensures next { self.new.value ≡ (1103515245 * self.old.value + 12345) % 2 ^ 31 }
        {
            self.value = (1_103_515_245 * self.value + 12_345) % (1 << 31);
            (self.value / 65_536) as u16
        }
    }

    // The planted time of each event, and delays that these times meet.
    #[derive(Drop)]
    struct Load {
        times: [u16; EVENTS],
        delays: [Declared; PROCESSES],
    }

    // Times from 0 on, each 1 to 8 ticks after the one before.
    fn planted_times(generator: &mut Generator) -> [u16; EVENTS] {
        let mut times = [0; EVENTS];
        let mut time = 0;
        for next in times[1..].iter_mut() {
            time += 1 + generator.draw() % 8;
            *next = time;
        }
        times
    }

    // The least and the largest planted span of a process's waits, which follow one another.
    fn spans(times: &[u16; EVENTS], process: usize) -> (u16, u16) {
        let mut least = u16::MAX;
        let mut most = 0;
        let waits = times.iter().zip(times[PROCESSES..].iter());
        for (begin, end) in waits.skip(process).step_by(PROCESSES) {
            let span = end.abs_diff(*begin);
            least = least.min(span);
            most = most.max(span);
        }
        (least, most)
    }

    // Each delay lasts from the least planted span to the largest, or up to 3 ticks more.
    fn planted_load() -> Load {
        let mut generator = Generator { value: 7 };
        let times = planted_times(&mut generator);
        let mut delays = [Declared::default(); PROCESSES];
        for (process, delay) in delays.iter_mut().enumerate() {
            let (least, most) = spans(&times, process);
            let upper = u32::from(most) + u32::from(generator.draw() % 4);
            *delay = wait(process as u8, u32::from(least), upper);
        }
        Load { times, delays }
    }

    // Each event ends the wait of its process, if one is open, and begins the next.
    fn note_events(rt: &impl Abort, trace: &mut Trace<Whole>) {
        // The number of an event says which process it is of.
        for event in 0..EVENTS {
            let delay = (event % PROCESSES) as u8;
            let noted = if event < PROCESSES {
                trace.note(&[Mark::Begin(delay)])
            } else {
                trace.note(&[Mark::End(delay), Mark::Begin(delay)])
            };
            assert!(rt; noted.is_ok());
        }
    }

    // What is found of a trace with all its delays on, and the labels that are left. (verdicts.rt lends such tables to another
    // call, one of them cut short.)
    fn examined(trace: &Trace<Whole>) -> Result<(Found, [WholeRow; EVENTS]), Fail> {
        let mut times = [WholeRow::default(); EVENTS];
        let mut chain = [Link::default(); EVENTS];
        let mut scratch = [Kept::default(); EVENTS];
        let answer = {
            let mut tables = Tables {
                times: &mut times,
                chain: &mut chain,
                scratch: &mut scratch,
            };
            examine(trace, &[1; PROCESSES], &mut tables)
        };
        match answer {
            Ok(found) => Ok((found, times)),
            Err(_) => Err(Fail::new("refused")),
        }
    }

    // What is found of the load's events, with these delays.
    fn found_with(
        rt: &impl Abort,
        given: &[Declared; PROCESSES],
    ) -> Result<(Found, [WholeRow; EVENTS]), Fail> {
        let mut delays = [no_delay(); PROCESSES];
        let mut events = [Event::default(); EVENTS];
        let mut trace = Trace::<Whole>::open(&mut delays, &mut events);
        for delay in given {
            assert!(rt; trace.declare(*delay).is_ok());
        }
        note_events(rt, &mut trace);
        examined(&trace)
    }

    #[test]
    fn a_consistent_load_takes_few_rounds(rt: HostRuntime) -> Result<(), Fail> {
        let (found, _) = found_with(&rt, &planted_load().delays)?;
        assert!(rt; found.chain.is_none());
        assert!(rt; found.rounds <= 4);
        Ok(())
    }

    #[test]
    fn no_earliest_time_is_later_than_planted(rt: HostRuntime) -> Result<(), Fail> {
        let load = planted_load();
        let (_, earliest) = found_with(&rt, &load.delays)?;
        for (row, planted) in earliest.iter().zip(load.times.iter()) {
            assert!(rt; row.ticks <= i64::from(*planted));
        }
        Ok(())
    }

    #[test]
    fn a_load_in_conflict_takes_few_rounds(rt: HostRuntime) -> Result<(), Fail> {
        let mut load = planted_load();
        // Only waits of the least planted span are left to processes 3 and 5.
        load.delays[3].upper = Some(load.delays[3].lower);
        load.delays[5].upper = Some(load.delays[5].lower);
        let (found, _) = found_with(&rt, &load.delays)?;
        assert!(rt; found.chain.is_some());
        assert!(rt; found.rounds <= 50);
        Ok(())
    }
}
