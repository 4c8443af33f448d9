// Shows what a panel's bank asks for: the demand of each part and of the whole bank over windows of 1 to 24 ticks, and
// what comes in over 24 ticks if every part brings all that it may. Then judges two plans over that bank.
#![tactic(auto)]

use paced::rack::Rack;
use paced::row::Pace;
use plan::stages::OpenPlan;
use plan::tasks::Limit;
use plan::verdict::Verdict;
use refusal::Refusal;
use schedule::cyclic::Schedule;
use source::pair::Pair;
use source::{Gate, Source, offer_all};
use std::alloc::{AllocError, Global};
use std::io;

const WINDOW: u32 = 24;

// One interrupt, at most every 10 ticks and up to 2 ticks late, of 1 unit; a cycle of 12 ticks with 3 units at its start
// and 2 units at tick 5.
fn bank() -> Result<Pair<Rack, Schedule>, Refusal> {
    let mut rack = Rack::new();
    rack.add(Pace {
        period: 10,
        jitter: 2,
        costs: &[1],
    })?;
    let mut schedule = Schedule::new(12)?;
    schedule.add(0, 3)?;
    schedule.add(5, 2)?;
    Ok(Pair::new(rack, schedule))
}

// Prints the demand of each part and of all parts over one window.
fn print_window<S: Source>(rt: &HostRuntime, bank: &S, ticks: u32) -> io::Result<()> {
    print!(rt; "window {ticks} parts")?;
    let mut all: u64 = 0;
    for part in 1..=bank.count() {
        let units = bank.demand(part, ticks).unwrap_or(0);
        print!(rt; " {units}")?;
        all = all.saturating_add(units);
    }
    println!(rt; " bank {all}")
}

// What each part lets in over some ticks, if every part brings all that it may before each tick.
fn drive<G: Gate>(heap: Global, bank: &mut G, ticks: u32) -> Result<Vec<u64>, AllocError> {
    let parts = bank.count();
    let mut all = vec![in heap; 0_u64; parts as usize]?;
    for _ in 0..ticks {
        for (part, sum) in (1..=parts).zip(all.iter_mut()) {
            *sum = sum.saturating_add(offer_all(bank, part));
        }
        bank.tick();
    }
    Ok(all)
}

// A plan over the bank with two tasks, the first with this deadline.
fn plan(deadline: u32) -> Result<OpenPlan<Pair<Rack, Schedule>>, Refusal> {
    let mut plan = OpenPlan::new(bank()?);
    plan.add(
        Pace {
            period: 40,
            jitter: 0,
            costs: &[2],
        },
        Limit {
            blocking: 2,
            deadline,
            hold: 0,
        },
    )?;
    plan.add(
        Pace {
            period: 60,
            jitter: 5,
            costs: &[3, 1],
        },
        Limit {
            blocking: 0,
            deadline: 40,
            hold: 2,
        },
    )?;
    Ok(plan)
}

// Judges that plan, and prints the verdict and the bounds.
fn print_verdict(rt: &HostRuntime, deadline: u32) -> io::Result<()> {
    let Ok(plan) = plan(deadline) else {
        return println!(rt; "this plan cannot be made");
    };
    let judged = plan.judge();
    println!(rt; "deadline {deadline} of task 1")?;
    match judged.verdict() {
        Verdict::Accepted(tasks) => println!(rt; "accepted {tasks}")?,
        Verdict::NotJudgeable => println!(rt; "refused {}", judged.verdict().number())?,
        Verdict::Late(task) => println!(rt; "refused {} task {task}", judged.verdict().number())?,
    }
    let mut bounds = [0; 16];
    let count = judged.bounds(&mut bounds);
    for (task, bound) in (1..=count).zip(&bounds) {
        println!(rt; "task {task} bound {bound}")?;
    }
    Ok(())
}

fn main(rt: HostRuntime) -> io::Result<()> {
    let Ok(mut bank) = bank() else {
        return println!(rt; "this bank cannot be made");
    };
    for ticks in 1..=WINDOW {
        print_window(&rt, &bank, ticks)?;
    }
    println!(rt; "driven {WINDOW} ticks")?;
    let all = drive(rt.alloc(), &mut bank, WINDOW)?;
    for (part, sum) in (1..=bank.count()).zip(&all) {
        let demand = bank.demand(part, WINDOW).unwrap_or(0);
        println!(rt; "part {part} let in {sum}, demand: {demand}")?;
    }
    print_verdict(&rt, 15)?;
    print_verdict(&rt, 10)
}
