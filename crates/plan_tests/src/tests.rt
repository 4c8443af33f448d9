use paced::rack::Rack;
use paced::row::Pace;
use plan::stages::OpenPlan;
use plan::tasks::Limit;
use plan::verdict::Verdict;
use refusal::Refusal;
use schedule::cyclic::Schedule;
use source::Source;
use source::pair::Pair;
use std::test::Fail;

// As in the tests of gates: a crate of tests lends nothing to another.
fn pace(period: u32, jitter: u32, costs: &[u32]) -> Pace<'_> {
    Pace {
        period,
        jitter,
        costs,
    }
}

fn limit(blocking: u32, deadline: u32, hold: u32) -> Limit {
    Limit {
        blocking,
        deadline,
        hold,
    }
}

// A schedule with these pairs of offset and length.
fn schedule(cycle: u32, pairs: &[(u32, u32)]) -> Result<Schedule, Refusal> {
    let mut made = Schedule::new(cycle)?;
    for &(offset, length) in pairs {
        made.add(offset, length)?;
    }
    Ok(made)
}

// The fault and the task of a refusal, and 0 and 0 if there is none, as the tables of cases below write it.
fn refused(r: Result<(), Refusal>) -> (u32, u32) {
    match r {
        Ok(()) => (0, 0),
        Err(e) => (e.fault.number(), e.task),
    }
}

// Bounds from a case study of a construction-machine controller.
#[test]
fn construction_machine(rt: HostRuntime) -> Result<(), Fail> {
    let pairs = [
        (0, 5),
        (10, 10),
        (20, 4),
        (30, 2),
        (40, 10),
        (50, 3),
        (60, 10),
        (70, 2),
        (80, 4),
        (90, 2),
    ];
    let bank = schedule(100, &pairs)?;
    let mut plan = OpenPlan::new(bank);
    for (deadline, cost) in [(100, 7), (100, 8), (2000, 8)] {
        assert_eq!(rt;
            refused(plan.add(pace(2000, 0, &[cost]), limit(0, deadline, 0))),
            (0, 0)
        );
    }
    let judged = plan.judge();
    assert_eq!(rt; judged.verdict(), Verdict::Accepted(3));
    let mut longer = [9; 5];
    assert_eq!(rt; judged.bounds(&mut longer), 3);
    assert_eq!(rt; longer, [30, 46, 67, 9, 9]);
    let mut equal = [9; 3];
    assert_eq!(rt; judged.bounds(&mut equal), 3);
    assert_eq!(rt; equal, [30, 46, 67]);
    let mut shorter = [9; 2];
    assert_eq!(rt; judged.bounds(&mut shorter), 2);
    assert_eq!(rt; shorter, [30, 46]);
    let mut none = [9; 0];
    assert_eq!(rt; judged.bounds(&mut none), 0);
    Ok(())
}

// What is refused when a second task is added after one with blocking 2.
#[test]
fn adding(rt: HostRuntime) {
    let one: &[u32] = &[1];
    let none: &[u32] = &[];
    let zero: &[u32] = &[0];
    let eight: &[u32] = &[1; 8];
    let nine: &[u32] = &[1; 9];
    let nine_bad: &[u32] = &[0; 9];
    let large: &[u32] = &[1_000_001];
    let cases = [
        (40, 5, limit(0, 35, 2), one, 0),
        (40, 5, limit(0, 36, 2), one, 7),
        (40, 40, limit(0, 1, 0), one, 7),
        (40, 5, limit(0, 35, 3), one, 8),
        (40, 5, limit(0, 36, 3), one, 7),
        (40, 5, limit(0, 0, 0), one, 6),
        (0, 0, limit(0, 1, 0), one, 6),
        (40, 5, limit(0, 35, 0), zero, 6),
        (40, 5, limit(0, 35, 0), none, 6),
        (40, 5, limit(0, 35, 0), large, 6),
        (1_000_001, 5, limit(0, 35, 0), one, 6),
        (40, 1_000_001, limit(0, 35, 0), one, 6),
        (40, 5, limit(1_000_001, 35, 0), one, 6),
        (40, 5, limit(0, 1_000_001, 0), one, 6),
        (40, 5, limit(0, 35, 1_000_001), one, 6),
        (40, 5, limit(0, 35, 0), eight, 0),
        (40, 5, limit(0, 35, 0), nine, 5),
        (0, 5, limit(0, 0, 9), nine_bad, 5),
        (1_000_000, 0, limit(1_000_000, 1_000_000, 2), one, 0),
    ];
    for (period, jitter, numbers, costs, fault) in cases {
        let mut plan = OpenPlan::new(Rack::new());
        assert_eq!(rt;
            refused(plan.add(pace(100, 0, one), limit(2, 100, 0))),
            (0, 0)
        );
        let task = if fault == 0 { 0 } else { 2 };
        assert_eq!(rt;
            refused(plan.add(pace(period, jitter, costs), numbers)),
            (fault, task)
        );
    }
}

#[test]
fn sixteen_tasks(rt: HostRuntime) {
    let mut plan = OpenPlan::new(Rack::new());
    for _ in 0..16 {
        assert_eq!(rt;
            refused(plan.add(pace(1000, 0, &[1]), limit(0, 1000, 0))),
            (0, 0)
        );
    }
    assert_eq!(rt;
        refused(plan.add(pace(1000, 0, &[1]), limit(0, 1000, 0))),
        (5, 17)
    );
    let judged = plan.judge();
    assert_eq!(rt; judged.verdict(), Verdict::Accepted(16));
    let mut bounds = [0; 17];
    assert_eq!(rt; judged.bounds(&mut bounds), 16);
    // without a bank task i needs its own unit and one of each earlier task
    assert_eq!(rt;
        bounds,
        [1, 2, 3, 4, 5, 6, 7, 8, 9, 10, 11, 12, 13, 14, 15, 16, 0]
    );
}

// A rack with that many interrupts.
fn rack(parts: u32) -> Rack {
    let mut rack = Rack::new();
    for _ in 0..parts {
        let _ = rack.add(pace(1000, 0, &[1]));
    }
    rack
}

fn verdict_over<S: Source + Drop>(bank: S) -> Verdict {
    let mut plan = OpenPlan::new(bank);
    let _ = plan.add(pace(1000, 0, &[1]), limit(0, 1000, 0));
    plan.judge().verdict()
}

#[test]
fn parts_of_a_bank(rt: HostRuntime) -> Result<(), Fail> {
    assert_eq!(rt;
        verdict_over(Pair::new(rack(8), rack(8))),
        Verdict::Accepted(1)
    );
    let one = schedule(10, &[])?;
    assert_eq!(rt;
        verdict_over(Pair::new(Pair::new(rack(8), rack(8)), one)),
        Verdict::NotJudgeable
    );
    assert_eq!(rt;
        OpenPlan::new(rack(1)).judge().verdict(),
        Verdict::NotJudgeable
    );
    Ok(())
}

// The first task without a window is named, and no bounds are told.
#[test]
fn late_tasks(rt: HostRuntime) {
    let mut plan = OpenPlan::new(rack(1));
    assert_eq!(rt;
        refused(plan.add(pace(100, 0, &[3]), limit(0, 100, 0))),
        (0, 0)
    );
    assert_eq!(rt;
        refused(plan.add(pace(100, 0, &[3]), limit(0, 6, 0))),
        (0, 0)
    );
    assert_eq!(rt;
        refused(plan.add(pace(100, 0, &[3]), limit(0, 5, 0))),
        (0, 0)
    );
    let judged = plan.judge();
    assert_eq!(rt; judged.verdict(), Verdict::Late(2));
    let mut bounds = [7; 3];
    assert_eq!(rt; judged.bounds(&mut bounds), 0);
    assert_eq!(rt; bounds, [7, 7, 7]);
}
