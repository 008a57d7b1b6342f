// Each kind by example.
use super::fine::Fine;
use super::kind::Kind;
use super::twin::Twin;
use super::whole::Whole;
use std::test::Fail;

#[test]
fn twin_limit_is_normal(rt: HostRuntime) {
    let normal = Twin {
        crystal: 0,
        core: 46_875,
    };
    assert_eq!(rt; Twin::limit(32, 0), Some(normal));
}

#[test]
fn twin_opposite_is_normal(rt: HostRuntime) {
    let one = Twin {
        crystal: 1,
        core: 0,
    };
    let back = Twin {
        crystal: 31,
        core: -46_875,
    };
    assert_eq!(rt; one.opposite(), back);
}

#[test]
fn whole_limit_ends(rt: HostRuntime) {
    assert!(rt; Whole::limit(1_048_577, 0).is_none());
}

#[test]
fn ticks_outweigh_hairs(rt: HostRuntime) {
    let hairs = Fine { ticks: 0, hairs: 5 };
    let tick = Fine { ticks: 1, hairs: 0 };
    assert!(rt; hairs.at_most(tick) && !tick.at_most(hairs));
}

#[test]
fn large_sum_is_refused(rt: HostRuntime) {
    let most = Whole { ticks: 1 << 60 };
    assert!(rt; most.add(Whole { ticks: 1 }).is_none());
}

#[test]
fn parts_print_with_a_blank(rt: HostRuntime) -> Result<(), Fail> {
    let fine = Fine {
        ticks: -3,
        hairs: 7,
    };
    let text = format!(in rt.alloc(); "{fine}")?;
    assert_eq!(rt; text.as_str(), "-3 7");
    Ok(())
}
