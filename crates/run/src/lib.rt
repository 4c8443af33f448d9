// A run of a judged plan: its calls, what each answers and changes, and when it is refused.
#![tactic(auto)]

ghost use Rattle.std.specs.Prelude.{◌≡◌, ℕ, ◌<◌, ◌≤◌, length, None, Some, is_some, IfOk, OnOk, OnErr};
ghost use Rattle.std.specs.List.{All};
ghost use Rattle.std.specs.Option.{ForSome};
ghost use Rattle.std.specs.Result.{result_err, result_ok};
ghost use Rattle.source.specs.Facts.{Taken, Ticked};
ghost use Rattle.refusal.specs.Laws.{FirstBroken};
ghost use Rattle.refusal.specs.Refusals.{fault_in};
ghost use Rattle.paced.specs.Pace.{Fit};
ghost use Rattle.plan.specs.Plans.{ByJudge};
ghost use Rattle.plan.specs.Tasks.{rows_of};
ghost use Rattle.calls.specs.Told.{told};
ghost use Rattle.run.specs.Faults.{range_fault, tick_fault, named_fault, offer_fault, release_fault, hold_fault, let_go_fault, end_fault, grantable};
ghost use Rattle.run.specs.Faults.{offer_refusal, release_refusal, hold_refusal, let_go_refusal, end_refusal, tick_refusal};
ghost use Rattle.run.specs.Rules.{OfferBreaks, ReleaseBreaks, HoldBreaks, LetGoBreaks, EndBreaks, TickBreaks};
ghost use Rattle.run.specs.States.{hold_of};
ghost use Rattle.run.specs.Told.{TickTold};
ghost use Rattle.run.specs.Runs.{Held, Offered, TickPassed, due_in, is_accepted, parts_of, run_ended, run_granted, run_let_go, run_released, started, tasks_allowed, tasks_work};

mod driving;
pub mod state;
mod steps;

use crate::driving::{give, tick_both};
use crate::state::{MOST_BACKLOG, State};
use calls::Got;
use paced::table::Table;
use plan::stages::JudgedPlan;
use plan::tasks::Limit;
use plan::verdict::Verdict;
use refusal::{Fault, Refusal};
use source::{Gate, Source};
use std::marker::Model;

// What a run keeps from its start on: the limits and bounds of the tasks, by place, in fixed memory as the project wants it and in two
// arrays as a judged plan hands them over; and, if the plan is accepted, how many parts the bank has.
#[derive(Clone, Copy)]
struct Terms {
    limits: [Limit; 16],
    bounds: [u32; 16],
    parts: Option<u32>,
}

impl Terms {
    // The terms of a run of a plan with that bank, verdict, bounds and limits. The bank of an accepted plan has at most 16 parts, so there
    // is a place for each.
    fn new<S: Source>(bank: &S, verdict: Verdict, bounds: [u32; 16], limits: [Limit; 16]) -> Terms
        ensures parts { result.parts ≡ parts_of (S.work bank.now) verdict }
        ensures bounds { result.bounds ≡ bounds }
        ensures limits { result.limits ≡ limits }
    {
        let accepted = is_accepted(verdict);
        let parts = accepted.then(|| bank.count());
        Terms {
            limits,
            bounds,
            parts,
        }
    }
}

// A run: the bank, the paced parts of the tasks, the state, and what is fixed from the start. A running table is not at rest, so table and
// limits are no `Tasks`. That a run was started from a judged plan is a fact in its type: whoever makes a run has to prove it.
#[derive(Drop)]
pub struct Run<G: Gate> {
    bank: G,
    table: Table<16>,
    terms: Terms,
    state: State,
    ghost room: { length terms.limits ≡ 16 },
}

impl<G: Gate> Model for Run<G> {
    ghost use Rattle.plan.specs.Tasks.{side_by_side};
    ghost use Rattle.run.specs.Runs.{Now, Held};

    ghost Value = { Now G };

    ghost view = { λ r. record { bank = r.bank; tasks = side_by_side r.table.list r.terms.limits; bounds = r.terms.bounds; parts = r.terms.parts; state = r.state } };

    ghost invariant = { λ r. Held G.work (record { bank = r.bank; tasks = side_by_side r.table.list r.terms.limits; bounds = r.terms.bounds; parts = r.terms.parts; state = r.state }) };
}

fn is_accepted(verdict: Verdict) -> bool
    ensures { result ≡ is_accepted verdict }
{
    matches!(verdict, Verdict::Accepted(_))
}

// Looks for what is wrong with a number that has to be from 1 to the most: that fault, if it is not.
fn check_range(number: u64, most: u64, fault: Fault) -> Result<(), Fault>
    ensures { result_err result ≡ range_fault fault most number }
{
    if !(1..=most).contains(&number) {
        return Err(fault);
    }
    Ok(())
}

impl<G: Gate> Run<G> {
    // Starts a run of a judged plan and uses the plan up: with no backlog, no job and no hold.
    pub fn start(judged: JudgedPlan<G>) -> Run<G>
        ensures started { result ≡ started G.work judged }
        ensures by_judge { ByJudge G.work judged }
    {
        let plan = judged.into_parts();
        let (table, limits) = plan.tasks.into_parts();
        let terms = Terms::new(&plan.bank, plan.verdict, plan.bounds, limits);
        Run {
            bank: plan.bank,
            table,
            terms,
            state: State::at_start(),
        }
    }

    // Whether the run takes calls: exactly if its plan is accepted. It also tells what the type keeps: that the run was started from a
    // judged plan, what its backlogs, jobs and hold keep to, and that the paced parts of its tasks keep to what every paced part keeps to.
    pub fn takes_calls(&self) -> bool
        ensures answer { result ≡ is_some self.now.parts }
        ensures held { Held G.work self.now }
        ensures paced { All Fit (rows_of self.now.tasks) }
    {
        self.terms.parts.is_some()
    }

    // How many parts the bank has, or that the plan is not accepted. Like the checks below it also tells what the type keeps.
    fn parts(&self) -> Result<u32, Fault>
        ensures answer { result_err result ≡ tick_fault self.now }
        ensures parts { IfOk result (λ parts. self.now.parts ≡ Some parts) }
        ensures held { Held G.work self.now }
    {
        self.terms.parts.ok_or(Fault::NotAccepted)
    }

    // How many tasks there are.
    fn task_count(&self) -> u32
        ensures count { result ≡ length self.now.tasks }
        ensures few { result ≤ 16 }
    {
        self.table.count()
    }

    // The most that a task may bring in this tick, 0 also for a number that is no task.
    fn most_of(&self, task: u32) -> u64
        ensures { result ≡ tasks_allowed self.now task 1 }
    {
        self.table.allowance(task).unwrap_or(0)
    }

    // The longest hold of a task.
    fn longest_hold(&self, task: u32) -> u64
        requires first { 1 ≤ task }
        requires last { task ≤ length self.now.tasks }
        ensures { result ≡ hold_of self.now.tasks task }
    {
        u64::from(self.terms.limits[(task - 1) as usize].hold)
    }

    // Looks for what is wrong with an offer.
    fn check_offer(&self, part: u32, units: u64) -> Result<(), Fault>
        ensures answer { result_err result ≡ offer_fault G.allowed self.now part units }
        ensures held { Held G.work self.now }
    {
        check_range(part.into(), self.parts()?.into(), Fault::NoSuchNumber)?;
        let most = self.bank.allowance(part).unwrap_or(0);
        check_range(units, most, Fault::UnitsNotAllowed)?;
        if units > MOST_BACKLOG - self.state.waiting() {
            return Err(Fault::BacklogFull);
        }
        Ok(())
    }

    // Looks for what is wrong with a task, or with the run.
    fn check_task(&self, task: u32) -> Result<(), Fault>
        ensures answer { result_err result ≡ named_fault self.now task }
        ensures held { Held G.work self.now }
    {
        self.parts()?;
        check_range(task.into(), self.task_count().into(), Fault::NoSuchNumber)
    }

    // Looks for what is wrong with a release. Like the checks below it asks what all ask, and then its own question.
    fn check_release(&self, task: u32, units: u64) -> Result<(), Fault>
        ensures answer { result_err result ≡ release_fault self.now task units }
        ensures held { Held G.work self.now }
    {
        self.check_task(task)?;
        check_range(units, self.most_of(task), Fault::UnitsNotAllowed)?;
        if self.state.left_of(task) > 0 {
            return Err(Fault::JobPending);
        }
        Ok(())
    }

    // Whether a hold is granted to a task.
    fn grants(&self, task: u32, units: u64) -> bool
        requires first { 1 ≤ task }
        requires last { task ≤ length self.now.tasks }
        ensures { result ≡ grantable self.now.tasks self.now.state task units }
    {
        // a test for each rule of a hold
        let highest = self.state.first_pending(self.task_count());
        let longest = self.longest_hold(task);
        let left = self.state.left_of(task);
        self.state.hold.is_none()
            && highest == Some(task)
            && 1 <= units
            && units <= longest
            && units <= left
    }

    // Looks for what is wrong with a hold.
    fn check_hold(&self, task: u32, units: u64) -> Result<(), Fault>
        ensures answer { result_err result ≡ hold_fault self.now task units }
        ensures held { Held G.work self.now }
    {
        self.check_task(task)?;
        if !self.grants(task, units) {
            return Err(Fault::HoldNotGranted);
        }
        Ok(())
    }

    // Looks for what is wrong with letting go.
    fn check_let_go(&self, task: u32) -> Result<(), Fault>
        ensures answer { result_err result ≡ let_go_fault self.now task }
        ensures held { Held G.work self.now }
    {
        self.check_task(task)?;
        if !self.state.is_held_by(task) {
            return Err(Fault::NothingToEnd);
        }
        Ok(())
    }

    // Looks for what is wrong with ending a job.
    fn check_end(&self, task: u32) -> Result<(), Fault>
        ensures answer { result_err result ≡ end_fault self.now task }
        ensures held { Held G.work self.now }
    {
        self.check_task(task)?;
        if self.state.left_of(task) < 1 {
            return Err(Fault::NothingToEnd);
        }
        Ok(())
    }
}

// What an offer, a release and a tick change where they are not refused: each asks for what its call below has looked for.
impl<G: Gate> Run<G> {
    // The backlog of a part grows, and the bank takes the units.
    fn take_offer(&mut self, part: u32, units: u64)
        requires { offer_fault G.allowed self.old part units ≡ None }
        ensures offered { Offered G.moves part units self.old self.new }
        ensures taken { Taken (G.allowed self.old.bank) part units (G.allowed self.new.bank) }
        ensures kept { G.work self.new.bank ≡ G.work self.old.bank }
    {
        self.state.grow(part, units);
        give(&mut self.bank, part, units);
    }

    // A job of a task is pending, and its paced part takes the units.
    fn take_release(&mut self, task: u32, units: u64)
        requires { release_fault self.old task units ≡ None }
        ensures released { self.new ≡ run_released self.old task units }
        ensures taken { Taken (tasks_allowed self.old) task units (tasks_allowed self.new) }
        ensures kept { tasks_work self.new ≡ tasks_work self.old }
    {
        give(&mut self.table, task, units);
        self.state.release(task, units);
    }

    // The one who is due gets the unit, and bank and tasks tick.
    fn pass(&mut self, parts: u32) -> Got
        requires { self.old.parts ≡ Some parts }
        ensures got { result ≡ due_in self.old }
        ensures passed { TickPassed G.moves self.old self.new }
        ensures ticked { Ticked (G.allowed self.old.bank) (G.allowed self.new.bank) }
        ensures tasks_ticked { Ticked (tasks_allowed self.old) (tasks_allowed self.new) }
        ensures kept { G.work self.new.bank ≡ G.work self.old.bank }
        ensures tasks_kept { tasks_work self.new ≡ tasks_work self.old }
        ensures told { TickTold G.work self.old (told result) }
    {
        let got = self.state.due(parts, self.task_count());
        self.state.pass(got);
        tick_both(&mut self.bank, &mut self.table);
        got
    }
}

// A number and its units are two values, as a call has them.
impl<G: Gate> Run<G> {
    // Offers units to a part of the bank. Refused are, the first that applies: a run of a plan that is not accepted; a
    // number that is no part; units outside 1 to what the part may bring in this tick; backlogs above 1,000,000 units in
    // all.
    pub fn offer(&mut self, part: u32, units: u64) -> Result<(), Refusal>
        ensures answer { result_err result ≡ offer_refusal G.allowed self.old part units }
        ensures refused { OnErr result (self.new ≡ self.old) }
        ensures kept { G.work self.new.bank ≡ G.work self.old.bank }
        ensures offered { OnOk result (Offered G.moves part units self.old self.new) }
        ensures taken { OnOk result (Taken (G.allowed self.old.bank) part units (G.allowed self.new.bank)) }
        ensures first { FirstBroken (OfferBreaks G.work G.allowed self.old part units) (fault_in (result_err result)) }
    {
        self.check_offer(part, units)?;
        self.take_offer(part, units);
        Ok(())
    }

    // Releases a job of a task with some units. Refused are, the first that applies: a run of a plan that is not accepted; a
    // number that is no task; units outside 1 to what the task may bring in this tick; a task whose job is pending.
    pub fn release(&mut self, task: u32, units: u64) -> Result<(), Refusal>
        ensures answer { result_err result ≡ release_refusal self.old task units }
        ensures released { OnOk result (self.new ≡ run_released self.old task units) }
        ensures refused { OnErr result (self.new ≡ self.old) }
        ensures kept { tasks_work self.new ≡ tasks_work self.old }
        ensures taken { OnOk result (Taken (tasks_allowed self.old) task units (tasks_allowed self.new)) }
        ensures first { FirstBroken (ReleaseBreaks self.old task units) (fault_in (result_err result)) }
    {
        // the closure is said in each call, where the task is at hand
        self.check_release(task, units)
            .map_err(|fault| Refusal::new(fault, 0, task))?;
        self.take_release(task, units);
        Ok(())
    }

    // Lets a task hold the processor for some units. Refused are, the first that applies: a run of a plan that is not
    // accepted; a number that is no task; a hold while another is going on, of a task that is not the highest with a
    // pending job, or of units outside 1 to the task's longest hold and to those left of its job.
    pub fn hold(&mut self, task: u32, units: u64) -> Result<(), Refusal>
        ensures answer { result_err result ≡ hold_refusal self.old task units }
        ensures granted { OnOk result (self.new ≡ run_granted self.old task units) }
        ensures refused { OnErr result (self.new ≡ self.old) }
        ensures first { FirstBroken (HoldBreaks self.old task units) (fault_in (result_err result)) }
    {
        self.check_hold(task, units)
            .map_err(|fault| Refusal::new(fault, 0, task))?;
        self.state.grant(task, units);
        Ok(())
    }

    // A task lets go of the processor. Refused are, the first that applies: a run of a plan that is not accepted; a number
    // that is no task; a task that does not hold.
    pub fn let_go(&mut self, task: u32) -> Result<(), Refusal>
        ensures answer { result_err result ≡ let_go_refusal self.old task }
        ensures let_go { OnOk result (self.new ≡ run_let_go self.old) }
        ensures refused { OnErr result (self.new ≡ self.old) }
        ensures first { FirstBroken (LetGoBreaks self.old task) (fault_in (result_err result)) }
    {
        self.check_let_go(task)
            .map_err(|fault| Refusal::new(fault, 0, task))?;
        self.state.let_go();
        Ok(())
    }

    // Ends the job of a task, and any hold of that task. Refused are, the first that applies: a run of a plan that is not
    // accepted; a number that is no task; a task that has no job.
    pub fn end(&mut self, task: u32) -> Result<(), Refusal>
        ensures answer { result_err result ≡ end_refusal self.old task }
        ensures ended { OnOk result (self.new ≡ run_ended self.old task) }
        ensures refused { OnErr result (self.new ≡ self.old) }
        ensures first { FirstBroken (EndBreaks self.old task) (fault_in (result_err result)) }
    {
        self.check_end(task)
            .map_err(|fault| Refusal::new(fault, 0, task))?;
        self.state.end(task);
        Ok(())
    }

    // A tick passes: one unit is given, and the bank and the tasks tick. Refused is only a run of a plan that is not
    // accepted.
    pub fn tick(&mut self) -> Result<Got, Refusal>
        ensures answer { result_err result ≡ tick_refusal self.old }
        ensures got { IfOk result (λ got. got ≡ due_in self.old) }
        ensures refused { OnErr result (self.new ≡ self.old) }
        ensures kept { G.work self.new.bank ≡ G.work self.old.bank }
        ensures tasks_kept { tasks_work self.new ≡ tasks_work self.old }
        ensures passed { OnOk result (TickPassed G.moves self.old self.new) }
        ensures told { IfOk result (λ got. TickTold G.work self.old (told got)) }
        ensures ticked { OnOk result (Ticked (G.allowed self.old.bank) (G.allowed self.new.bank)) }
        ensures tasks_ticked { OnOk result (Ticked (tasks_allowed self.old) (tasks_allowed self.new)) }
        ensures first { FirstBroken (TickBreaks self.old) (fault_in (result_err result)) }
    {
        let parts = self.parts()?;
        Ok(self.pass(parts))
    }
}
