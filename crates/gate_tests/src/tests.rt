// What gates and sources answer, from numbers that were worked out by hand.
use crate::*;
use arrivals::{Step, replay};
use calls::{Answer, Call, Got};
use guarantee::rehearse;
use paced::rack::Rack;
use paced::row::Pace;
use paced::single::Paced;
use plan::stages::OpenPlan;
use plan::tasks::Limit;
use refusal::{Fault, Refusal};
use schedule::cyclic::Schedule;
use source::pair::Pair;
use source::{Gate, Source, offer_all};
use std::process::Abort;
use std::test::Fail;

// Stands for the allowance of a number that is no part, so that a row of figures stays one.
const NO: u64 = 99;

// Ticks pass, then units are offered to a part: whether they are taken, and what parts 1 to 4 may bring after.
#[derive(Clone, Copy)]
struct Case {
    ticks: u32,
    part: u32,
    units: u64,
    taken: bool,
    after: [u64; 4],
}

fn offering(ticks: u32, part: u32, units: u64, taken: bool, after: [u64; 4]) -> Case {
    Case {
        ticks,
        part,
        units,
        taken,
        after,
    }
}

// What parts 1 to 4 may bring in this tick.
fn allowances<S: Source>(bank: &S) -> [u64; 4] {
    [
        bank.allowance(1).unwrap_or(NO),
        bank.allowance(2).unwrap_or(NO),
        bank.allowance(3).unwrap_or(NO),
        bank.allowance(4).unwrap_or(NO),
    ]
}

fn drive<G: Gate>(rt: &impl Abort, bank: &mut G, cases: &[Case]) {
    for case in cases {
        for _ in 0..case.ticks {
            bank.tick();
        }
        let before = allowances(bank);
        let taken = bank.offer(case.part, case.units);
        assert_eq!(rt;
            taken,
            case.taken,
            "part {} units {}",
            case.part, case.units
        );
        assert_eq!(rt; allowances(bank), case.after);
        if !taken {
            assert_eq!(rt; case.after, before, "refused");
        }
    }
}

// The demand of a part over each window.
fn ask<S: Source>(rt: &impl Abort, bank: &S, part: u32, table: &[(u32, Option<u64>)]) {
    for &(ticks, demand) in table {
        assert_eq!(rt; bank.demand(part, ticks), demand, "window {ticks}");
    }
}

// The number of the fault, 0 if there is none, as the tables of cases below write it, and 99 if the refusal names a line or a task.
fn number<T: Drop>(made: Result<T, Refusal>) -> u32 {
    match made {
        Ok(_) => 0,
        Err(refusal) => {
            if refusal.line == 0 && refusal.task == 0 {
                refusal.fault.number()
            } else {
                99
            }
        }
    }
}

// As in the tests of plans: a crate of tests lends nothing to another.
fn pace(period: u32, jitter: u32, costs: &[u32]) -> Pace<'_> {
    Pace {
        period,
        jitter,
        costs,
    }
}

// Two interrupts.
fn rack() -> Rack {
    let mut rack = Rack::new();
    let _ = rack.add(pace(10, 2, &[3]));
    let _ = rack.add(pace(5, 0, &[2, 6]));
    rack
}

#[test]
fn reserve_alone(rt: HostRuntime) {
    let mut bank = Reserve::new(7, 0);
    assert_eq!(rt; bank.count(), 2);
    let windows = [
        (0, Some(0)),
        (1, Some(7)),
        (1_000_000, Some(7)),
        (1_000_001, None),
    ];
    ask(&rt, &bank, 1, &windows);
    ask(&rt, &bank, 2, &[(0, Some(0)), (5, Some(0))]);
    ask(&rt, &bank, 0, &[(5, None)]);
    ask(&rt, &bank, 3, &[(5, None)]);
    let cases = [
        offering(0, 1, 8, false, [7, 0, NO, NO]),
        offering(0, 1, 0, false, [7, 0, NO, NO]),
        offering(0, 2, 1, false, [7, 0, NO, NO]),
        offering(0, 3, 1, false, [7, 0, NO, NO]),
        offering(0, 1, 3, true, [4, 0, NO, NO]),
        offering(5, 1, 5, false, [4, 0, NO, NO]),
        offering(0, 1, 4, true, [0, 0, NO, NO]),
    ];
    drive(&rt, &mut bank, &cases);
    ask(&rt, &bank, 1, &windows);
    let mut large = Reserve::new(0, 4_294_967_295);
    let cases = [
        offering(0, 2, 4_294_967_296, false, [0, 4_294_967_295, NO, NO]),
        offering(0, 2, 4_294_967_295, true, [0, 0, NO, NO]),
    ];
    drive(&rt, &mut large, &cases);
}

#[test]
fn reserve_on_the_left(rt: HostRuntime) {
    let mut bank = Pair::new(Reserve::new(7, 4), rack());
    assert_eq!(rt; bank.count(), 4);
    ask(&rt, &bank, 2, &[(0, Some(0)), (1, Some(4))]);
    ask(&rt, &bank, 3, &[(8, Some(3)), (9, Some(6))]);
    ask(&rt, &bank, 4, &[(5, Some(6)), (6, Some(8))]);
    ask(&rt, &bank, 5, &[(1, None)]);
    let cases = [
        offering(0, 4, 3, false, [7, 4, 3, 2]),
        offering(0, 3, 4, false, [7, 4, 3, 2]),
        offering(0, 2, 5, false, [7, 4, 3, 2]),
        offering(0, 5, 1, false, [7, 4, 3, 2]),
        offering(0, 0, 1, false, [7, 4, 3, 2]),
        offering(0, 3, 2, true, [7, 4, 0, 2]),
        offering(0, 4, 2, true, [7, 4, 0, 0]),
        offering(0, 2, 1, true, [7, 3, 0, 0]),
        offering(5, 1, 8, false, [7, 3, 0, 6]),
        offering(3, 1, 8, false, [7, 3, 3, 6]),
    ];
    drive(&rt, &mut bank, &cases);
}

#[test]
fn reserve_on_the_right(rt: HostRuntime) {
    let mut bank = Pair::new(rack(), Reserve::new(7, 4));
    assert_eq!(rt; bank.count(), 4);
    ask(&rt, &bank, 1, &[(8, Some(3)), (9, Some(6))]);
    ask(&rt, &bank, 3, &[(0, Some(0)), (1, Some(7))]);
    ask(&rt, &bank, 4, &[(9, Some(4))]);
    let cases = [
        offering(0, 4, 5, false, [3, 2, 7, 4]),
        offering(0, 5, 1, false, [3, 2, 7, 4]),
        offering(0, 1, 2, true, [0, 2, 7, 4]),
        offering(0, 3, 7, true, [0, 2, 0, 4]),
        offering(0, 4, 5, false, [0, 2, 0, 4]),
        offering(0, 4, 4, true, [0, 2, 0, 0]),
        offering(8, 3, 1, false, [3, 2, 0, 0]),
    ];
    drive(&rt, &mut bank, &cases);
}

#[test]
fn all_is_offered(rt: HostRuntime) {
    let mut bank = Pair::new(Reserve::new(7, 4), rack());
    let cases = [(1, 7), (1, 0), (4, 2), (9, 0), (0, 0)];
    for (part, units) in cases {
        assert_eq!(rt; offer_all(&mut bank, part), units);
    }
    assert_eq!(rt; allowances(&bank), [0, 4, 3, 0]);
}

// A source of that many parts.
fn even_parts(parts: u32) -> Result<Even, Fail> {
    Even::new(parts).ok_or_else(|| Fail::new("no source"))
}

#[test]
fn too_many_parts(rt: HostRuntime) -> Result<(), Fail> {
    assert!(rt; Even::new(1001).is_none());
    assert_eq!(rt; even_parts(1000)?.count(), 1000);
    assert_eq!(rt; even_parts(0)?.count(), 0);
    let bank = Pair::new(even_parts(600)?, even_parts(600)?);
    assert_eq!(rt; bank.count(), 1000);
    ask(&rt, &bank, 600, &[(0, Some(0)), (1, Some(1))]);
    ask(&rt, &bank, 601, &[(0, Some(0)), (1, Some(1))]);
    ask(&rt, &bank, 1000, &[(5, Some(1)), (1_000_001, None)]);
    ask(&rt, &bank, 1001, &[(5, None)]);
    ask(&rt, &bank, 0, &[(5, None)]);
    assert_eq!(rt; bank.allowance(1000), Some(1));
    assert_eq!(rt; bank.allowance(1001), None);
    assert_eq!(rt; bank.allowance(0), None);
    Ok(())
}

#[test]
fn windows(rt: HostRuntime) -> Result<(), Fail> {
    let paced = Paced::new(pace(10, 2, &[1]))?;
    let ends = [
        (0, Some(0)),
        (8, Some(1)),
        (9, Some(2)),
        (18, Some(2)),
        (19, Some(3)),
        (1_000_000, Some(100_001)),
        (1_000_001, None),
    ];
    ask(&rt, &paced, 1, &ends);
    ask(&rt, &paced, 2, &[(5, None)]);
    let costs = Paced::new(pace(5, 0, &[4, 1, 1, 3]))?;
    ask(
        &rt,
        &costs,
        1,
        &[(5, Some(4)), (10, Some(7)), (30, Some(16))],
    );
    let ends = [(0, Some(0)), (1_000_000, Some(300_003)), (1_000_001, None)];
    ask(&rt, &rack(), 1, &ends);
    ask(&rt, &rack(), 3, &[(0, None), (1, None)]);
    Ok(())
}

#[test]
fn one_paced_part(rt: HostRuntime) -> Result<(), Fail> {
    let mut paced = Paced::new(pace(10, 2, &[1]))?;
    let cases = [
        offering(0, 1, 1, true, [0, NO, NO, NO]),
        offering(7, 1, 1, false, [0, NO, NO, NO]),
        offering(1, 1, 1, true, [0, NO, NO, NO]),
    ];
    drive(&rt, &mut paced, &cases);
    Ok(())
}

// A schedule of two pairs, the first at phase 0.
fn schedule_of(cycle: u32, first: u32, offset: u32, second: u32) -> Result<Schedule, Refusal> {
    let mut schedule = Schedule::new(cycle)?;
    schedule.add(0, first)?;
    schedule.add(offset, second)?;
    Ok(schedule)
}

#[test]
fn schedule_windows(rt: HostRuntime) -> Result<(), Fail> {
    let schedule = schedule_of(12, 3, 5, 2)?;
    let ends = [
        (0, Some(0)),
        (5, Some(3)),
        (6, Some(5)),
        (12, Some(5)),
        (13, Some(8)),
        (1_000_000, Some(416_668)),
        (1_000_001, None),
    ];
    ask(&rt, &schedule, 1, &ends);
    ask(&rt, &schedule, 2, &[(5, None)]);
    let schedule = schedule_of(12, 3, 10, 2)?;
    ask(&rt, &schedule, 1, &[(2, Some(3)), (3, Some(5))]);
    Ok(())
}

#[test]
fn one_schedule(rt: HostRuntime) -> Result<(), Fail> {
    let mut schedule = schedule_of(12, 3, 5, 2)?;
    let cases = [
        offering(0, 1, 4, false, [3, NO, NO, NO]),
        offering(0, 1, 3, true, [0, NO, NO, NO]),
        offering(0, 1, 3, false, [0, NO, NO, NO]),
        // at phase 5 the second pair is there, and at phase 6 it is lost
        offering(5, 1, 3, false, [2, NO, NO, NO]),
        offering(1, 1, 2, false, [0, NO, NO, NO]),
        // at phase 0 again; one unit uses the pair up
        offering(6, 1, 1, true, [0, NO, NO, NO]),
        offering(0, 1, 2, false, [0, NO, NO, NO]),
        offering(12, 1, 3, true, [0, NO, NO, NO]),
    ];
    drive(&rt, &mut schedule, &cases);
    Ok(())
}

#[test]
fn paced_makers(rt: HostRuntime) {
    let eight: &[u32] = &[1, 1, 1, 1, 1, 1, 1, 1];
    let nine: &[u32] = &[1, 1, 1, 1, 1, 1, 1, 1, 1];
    let nine_bad: &[u32] = &[1, 1, 1, 0, 1, 1, 1, 1, 1];
    let none: &[u32] = &[];
    let one: &[u32] = &[1];
    let zero: &[u32] = &[2, 0];
    let large: &[u32] = &[1_000_000];
    let larger: &[u32] = &[1_000_001];
    let cases = [
        (10, 2, eight, 0),
        (10, 2, nine, 5),
        (10, 2, nine_bad, 5),
        (0, 0, nine, 5),
        (0, 0, one, 6),
        (10, 2, zero, 6),
        (10, 2, none, 6),
        (1_000_001, 2, one, 6),
        (10, 1_000_001, one, 6),
        (10, 2, larger, 6),
        (10, 10, none, 6),
        (1_000_000, 999_999, large, 0),
        (10, 10, one, 7),
        (10, 9, one, 0),
        (1, 0, one, 0),
    ];
    for (period, jitter, costs, fault) in cases {
        assert_eq!(rt; number(Paced::new(pace(period, jitter, costs))), fault);
        let mut rack = Rack::new();
        assert_eq!(rt; number(rack.add(pace(period, jitter, costs))), fault);
    }
    let mut rack = Rack::new();
    for _ in 0..8 {
        assert_eq!(rt; number(rack.add(pace(10, 2, one))), 0);
    }
    assert_eq!(rt; number(rack.add(pace(10, 2, one))), 5);
    assert_eq!(rt; number(rack.add(pace(0, 0, none))), 5);
    assert_eq!(rt; rack.count(), 8);
}

#[test]
fn schedule_makers(rt: HostRuntime) -> Result<(), Fail> {
    let cycles = [(0, 6), (1, 0), (1_000_000, 0), (1_000_001, 6)];
    for (cycle, fault) in cycles {
        assert_eq!(rt; number(Schedule::new(cycle)), fault);
    }
    let pairs = [
        (6, 0, 6),
        (6, 1_000_001, 6),
        (1_000_001, 1, 6),
        (12, 0, 6),
        (12, 1, 7),
        (5, 1, 7),
        (4, 1, 7),
        (6, 1, 0),
        (11, 1_000_000, 0),
    ];
    for (offset, length, fault) in pairs {
        let mut schedule = schedule_of(12, 3, 5, 2)?;
        assert_eq!(rt; number(schedule.add(offset, length)), fault);
    }
    let mut schedule = Schedule::new(100)?;
    for offset in 0..64 {
        assert_eq!(rt; number(schedule.add(offset, 1)), 0);
    }
    assert_eq!(rt; number(schedule.add(64, 1)), 5);
    assert_eq!(rt; number(schedule.add(100, 0)), 5);
    Ok(())
}

#[test]
fn replayed(rt: HostRuntime) {
    let steps = [
        Step::Offer(1),
        Step::Tick,
        Step::Tick,
        Step::Tick,
        Step::Tick,
        Step::Tick,
        Step::Tick,
        Step::Tick,
        Step::Offer(1),
        Step::Tick,
        Step::Offer(1),
    ];
    let mut taken = [false; 11];
    assert_eq!(rt; number(replay(pace(10, 2, &[1]), &steps, &mut taken)), 0);
    let right = [
        true, true, true, true, true, true, true, true, false, true, true,
    ];
    assert_eq!(rt; taken, right);
    assert_eq!(rt; number(replay(pace(10, 10, &[1]), &steps, &mut taken)), 7);
}

// A run over a gate of another author's, from a state that is not its first: one unit of its first store is gone. The task
// needs its 2 units and the 3 and 2 of the stores, so its bound is 7.
#[test]
fn rehearsed(rt: HostRuntime) -> Result<(), Fail> {
    let mut bank = Reserve::new(3, 2);
    assert!(rt; bank.offer(1, 1));
    bank.tick();
    let mut plan = OpenPlan::new(bank);
    let limit = Limit {
        blocking: 0,
        deadline: 40,
        hold: 0,
    };
    plan.add(pace(40, 0, &[2]), limit)?;
    let calls = [
        Call::Offer(1, 3),
        Call::Offer(1, 2),
        Call::Offer(2, 1),
        Call::Offer(3, 1),
        Call::Release(1, 2),
        Call::Tick,
        Call::Tick,
        Call::Tick,
        Call::Tick,
        Call::Tick,
        Call::Tick,
    ];
    let mut answers = [Answer::Done; 12];
    let _ = rehearse(plan, &calls, &mut answers);
    let want = [
        Answer::Refused(Refusal::plain(Fault::UnitsNotAllowed)),
        Answer::Done,
        Answer::Done,
        Answer::Refused(Refusal::plain(Fault::NoSuchNumber)),
        Answer::Done,
        Answer::Ticked(Got::Part(1)),
        Answer::Ticked(Got::Part(1)),
        Answer::Ticked(Got::Part(2)),
        Answer::Ticked(Got::Task(1, None)),
        Answer::Ticked(Got::Task(1, Some(5))),
        Answer::Ticked(Got::Nobody),
        Answer::Done,
    ];
    assert_eq!(rt; answers, want);
    Ok(())
}
