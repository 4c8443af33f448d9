// A list of calls on a run of a plan, and what is promised of it: whatever the calls, no job of an accepted plan is late, and no
// more is let in than the demand.
#![tactic(auto)]

ghost use Rattle.std.specs.Prelude.{◌≡◌, ◌↔◌, IsTrue, Some, drop, length, map};
ghost use Rattle.plan.specs.Judged.{Judged};
ghost use Rattle.plan.specs.Plans.{ByJudge};
ghost use Rattle.calls.specs.Events.{log_of};
ghost use Rattle.run.specs.Runs.{is_accepted, parts_of, rested};
ghost use Rattle.guarantee.specs.Playing.{Did, Played};
ghost use Rattle.guarantee.specs.Example.{Example};
ghost use Rattle.guarantee.specs.Promise.{Acceptable, Keeps, Modelled, Promised, begun};

pub mod making;

use crate::making::make;
use calls::{Answer, Call};
use plan::stages::{JudgedPlan, OpenPlan};
use plan::verdict::Verdict;
use run::Run;
use source::Gate;

// Makes the calls in order, as many as there is room for answers. Calls and that room are two lists that the caller lends, and two
// values here, since clauses name each. Crate `arrivals` has a loop like it, `play` over the steps of a paced part: what a step makes is
// told by a function, and what a call makes by a relation, so the two share no law.
fn play<G: Gate>(run: &mut Run<G>, calls: &[Call], answers: &mut [Answer])
    ensures played { Played G.allowed G.moves calls.now answers.new run.old run.new }
    ensures rest { drop (length calls.now) answers.new ≡ drop (length calls.now) answers.old }
{
    let count = calls.len().min(answers.len());
    // the answers go by place: after `answers.iter_mut().zip(calls)` a proof knows nothing of what stands in them
    for (place, call) in calls[..count].iter().enumerate() {
        answers[place] = make(run, *call);
    }
}

// Starts a run of a judged plan and makes the calls on it. What is promised of the answers stands at `play`, here and at `rehearse`,
// since each hands it on: here of the judged plan, and there of the plan that it came from.
fn run_of<G: Gate>(judged: JudgedPlan<G>, calls: &[Call], answers: &mut [Answer]) -> Run<G>
    ensures bounds { result.bounds ≡ judged.bounds }
    ensures parts { result.parts ≡ parts_of (G.work judged.plan.bank) judged.verdict }
    ensures tasks { map rested result.tasks ≡ judged.plan.tasks }
    ensures played { Played G.allowed G.moves calls.now answers.new (begun judged.plan result) result }
    ensures all_parts { Acceptable G.work judged.plan → result.parts ≡ Some (G.work judged.plan.bank).parts }
    ensures guaranteed { Acceptable G.work judged.plan → Keeps G.work judged.plan result.bounds (log_of calls.now answers.new) }
    ensures stepped { Acceptable G.work judged.plan → Modelled G.work G.allowed judged.plan result (log_of calls.now answers.new) }
    ensures rest { drop (length calls.now) answers.new ≡ drop (length calls.now) answers.old }
{
    let mut run = Run::start(judged);
    play(&mut run, calls, answers);
    run
}

// Whether a plan with a verdict is accepted.
fn accepts(verdict: Verdict) -> bool
    ensures { result ≡ is_accepted verdict }
{
    verdict.outcome().is_ok()
}

// Whether both rules are promised of the runs of a judged plan: exactly if the plan is acceptable. And the promise itself, for every
// gate and every run of a judged plan: whatever calls are made on it, if their answers and what they make of the run are what the
// contracts of the calls say, one after another, then their log keeps both rules.
pub fn is_promised<G: Gate>(judged: &JudgedPlan<G>) -> bool
    ensures answer { IsTrue result ↔ Acceptable G.work judged.now.plan }
    ensures promised { Promised G.work G.allowed G.moves }
    ensures by_judge { ByJudge G.work judged.now }
{
    accepts(judged.verdict())
}

// Judges a plan, starts a run of it and makes the calls in order, as many as there is room for answers. Answers beyond the
// calls are unchanged.
pub fn rehearse<G: Gate>(plan: OpenPlan<G>, calls: &[Call], answers: &mut [Answer]) -> Run<G>
    ensures tasks { map rested result.tasks ≡ plan.tasks }
    ensures rest { drop (length calls.now) answers.new ≡ drop (length calls.now) answers.old }
    ensures parts { Acceptable G.work plan → result.parts ≡ Some (G.work plan.bank).parts }
    ensures judged { (v : Verdict) × Judged (G.work plan.bank) plan.tasks v result.bounds × (result.parts ≡ parts_of (G.work plan.bank) v) }
    ensures played { Played G.allowed G.moves calls.now answers.new (begun plan result) result }
    ensures guaranteed { Acceptable G.work plan → Keeps G.work plan result.bounds (log_of calls.now answers.new) }
    ensures stepped { Acceptable G.work plan → Modelled G.work G.allowed plan result (log_of calls.now answers.new) }
{
    run_of(plan.judge(), calls, answers)
}

// That the promise speaks of something is what this function promises, and it does nothing: there is a gate, an acceptable plan over
// it, and a list of calls in which an offer is taken, a job is released, a hold is granted, a call is refused and a tick ends a job.
#[tactic(auto, using(crate::proofs::Exampled::example))]
pub fn example()
    ensures { Example }
{}
