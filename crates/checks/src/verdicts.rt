// Verdicts that a book cannot ask for: delays switched off, and tables that are too short.
#[cfg(test)]
mod tests {
    use crate::given::{no_delay, wait};
    use kinds::whole::{Whole, WholeRow};
    use trace::parts::{Event, Mark};
    use trace::table::Trace;
    use verdict::call::decide;
    use verdict::link::{Kept, Link};
    use verdict::tables::Tables;
    use verdict::verdict::{Refusal, Verdict};

    // The last time of a trace of whole ticks, or none in a conflict.
    fn last_time(trace: &Trace<Whole>, on: &[u8], rows: usize) -> Result<Option<i64>, Refusal> {
        let mut times = [WholeRow { ticks: 7 }; 4];
        let mut chain = [Link::default(); 4];
        let mut scratch = [Kept::default(); 4];
        let answer = {
            let mut tables = Tables {
                times: &mut times[0..rows.min(4)],
                chain: &mut chain,
                scratch: &mut scratch,
            };
            decide(trace, on, &mut tables)
        };
        match answer? {
            Verdict::Consistent => Ok(Some(times[3].ticks)),
            Verdict::Conflict(_) => Ok(None),
        }
    }

    // Each test lends its own tables, since a function could not hand out a trace over those that it makes.
    #[test]
    fn nested_waits(rt: HostRuntime) {
        let mut delays = [no_delay(); 2];
        let mut events = [Event::default(); 4];
        let mut trace = Trace::<Whole>::open(&mut delays, &mut events);
        assert!(rt; trace.declare(wait(0, 3, 4)).is_ok());
        assert!(rt; trace.declare(wait(1, 3, 4)).is_ok());
        assert!(rt; trace.declare(wait(2, 3, 4)).is_err());
        assert!(rt; trace.note(&[Mark::Begin(0)]).is_ok());
        assert!(rt; trace.note(&[Mark::Begin(1)]).is_ok());
        assert!(rt; trace.note(&[Mark::End(1)]).is_ok());
        assert!(rt; trace.note(&[Mark::End(0)]).is_ok());
        assert!(rt; trace.note(&[]).is_err());
        assert_eq!(rt; last_time(&trace, &[1, 1], 4).ok(), Some(None));
        assert_eq!(rt; last_time(&trace, &[0, 1], 4).ok(), Some(Some(5)));
        assert_eq!(rt; last_time(&trace, &[1, 0], 4).ok(), Some(Some(3)));
        assert!(rt; last_time(&trace, &[1, 1], 3).is_err());
        assert!(rt; last_time(&trace, &[1], 4).is_err());
    }

    #[test]
    fn a_delay_that_is_off_still_cancels_a_match(rt: HostRuntime) {
        let mut delays = [no_delay(); 2];
        let mut events = [Event::default(); 4];
        let mut trace = Trace::<Whole>::open(&mut delays, &mut events);
        assert!(rt; trace.declare(wait(0, 50, 90)).is_ok());
        assert!(rt; trace.declare(wait(0, 1, 2)).is_ok());
        assert!(rt; trace.note(&[Mark::Begin(0)]).is_ok());
        assert!(rt; trace.note(&[]).is_ok());
        assert!(rt; trace.note(&[Mark::Begin(1)]).is_ok());
        assert!(rt; trace.note(&[Mark::End(0)]).is_ok());
        assert_eq!(rt; last_time(&trace, &[1, 0], 4).ok(), Some(Some(3)));
    }
}
