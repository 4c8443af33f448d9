// A plan from open to judged. Each stage is used up by the next, so a judged plan takes no more tasks.
ghost use Rattle.std.specs.Prelude.{◌≡◌, ◌+◌, min, ◌++◌, [], ◌∷◌, length, take, drop, OnOk, OnErr};
ghost use Rattle.std.specs.Result.{result_err};
ghost use Rattle.refusal.specs.Laws.{FirstBroken};
ghost use Rattle.refusal.specs.Refusals.{refusal_of, fault_in};
ghost use Rattle.paced.specs.Makes.{asked};
ghost use Rattle.plan.specs.Judged.{Judged, Filled, OnlyJudged, StaysAccepted, PlanBreaks, bounds_told, fault_told};
ghost use Rattle.plan.specs.Limits.{task_fault, TaskBreaks};
ghost use Rattle.plan.specs.Plans.{ByJudge};
ghost use Rattle.plan.specs.Tasks.{Fitting, made};

use crate::judge::Finding;
use crate::tasks::{Limit, Tasks};
use crate::verdict::Verdict;
use paced::row::Pace;
use refusal::Refusal;
use source::Source;
use std::marker::Model;

// A plan that takes tasks, over a bank. The judge and the search, in files of their own, are methods of it.
#[derive(Drop)]
pub struct OpenPlan<S> {
    pub(crate) bank: S,
    pub(crate) tasks: Tasks,
}

impl<S> Model for OpenPlan<S> {
    ghost use Rattle.plan.specs.Plans.{Plan};

    ghost Value = { Plan S };

    ghost view = { λ p. record { bank = p.bank; tasks = p.tasks } };
}

// A plan with its verdict and the bounds that go with it, and the fact that both are those of the judge: whoever makes such a plan has
// to prove it.
#[derive(Drop)]
pub struct JudgedPlan<S: Source> {
    bank: S,
    tasks: Tasks,
    verdict: Verdict,
    // the verdict says how many there are: a rule of the project, which has fixed memory and no heap here
    bounds: [u32; 16],
}

impl<S: Source> Model for JudgedPlan<S> {
    ghost use Rattle.plan.specs.Plans.{Judgement, judgement, ByJudge};

    ghost Value = { Judgement S };

    ghost view = { λ p. judgement p.bank p.tasks p.verdict p.bounds };

    ghost invariant = { λ p. ByJudge S.work (judgement p.bank p.tasks p.verdict p.bounds) };
}

// What a judged plan consists of, in fixed memory as there: without its invariant, so that it can be taken apart.
#[derive(Drop)]
pub struct Parts<S> {
    pub bank: S,
    pub tasks: Tasks,
    pub verdict: Verdict,
    pub bounds: [u32; 16],
}

impl<S> OpenPlan<S> {
    // A plan over a bank, with no task.
    pub fn new(bank: S) -> OpenPlan<S>
        ensures { result ≡ record { bank = bank; tasks = [] } }
    {
        OpenPlan {
            bank,
            tasks: Tasks::new(),
        }
    }

    // A plan over a bank, with the tasks of a table.
    pub fn with_tasks(bank: S, tasks: Tasks) -> OpenPlan<S>
        ensures { result ≡ record { bank = bank; tasks = tasks } }
    {
        OpenPlan { bank, tasks }
    }

    // How many tasks the plan has, and what they keep to.
    pub fn count(&self) -> u32
        ensures count { result ≡ length self.now.tasks }
        ensures fitting { Fitting self.now.tasks }
    {
        self.tasks.count()
    }

    // One task more, below the others, or a refusal with the number that it would have had.
    pub fn add(&mut self, pace: Pace, limit: Limit) -> Result<(), Refusal>
        ensures answer { result_err result ≡ refusal_of (task_fault self.old.tasks (asked pace.entry) limit) (length self.old.tasks + 1) }
        ensures bank { self.new.bank ≡ self.old.bank }
        ensures added { OnOk result (self.new.tasks ≡ self.old.tasks ++ made (asked pace.entry) limit ∷ []) }
        ensures refused { OnErr result (self.new ≡ self.old) }
        ensures first { FirstBroken (TaskBreaks self.old.tasks (asked pace.entry) limit) (fault_in (result_err result)) }
    {
        self.tasks.add(pace, limit)
    }
}

impl<S: Source> OpenPlan<S> {
    // Judges the plan and uses it up.
    pub fn judge(self) -> JudgedPlan<S>
        ensures plan { result.plan ≡ self }
        ensures judged { Judged (S.work self.bank) self.tasks result.verdict result.bounds }
        ensures filled { Filled (S.work self.bank) self.tasks result.verdict result.bounds }
        ensures only { OnlyJudged (S.work self.bank) self.tasks result.verdict result.bounds }
        ensures stays { StaysAccepted (S.work self.bank) self.tasks result.verdict result.bounds }
        ensures first { FirstBroken (PlanBreaks (S.work self.bank) self.tasks) (fault_told result.verdict) }
        ensures by_judge { ByJudge S.work result }
    {
        let Finding { verdict, bounds } = self.verdict_on();
        let OpenPlan { bank, tasks } = self;
        JudgedPlan {
            bank,
            tasks,
            verdict,
            bounds,
        }
    }
}

// A plan that is taken apart, its verdict and its bounds also tell what the type keeps: that verdict and bounds are those of the judge.
impl<S: Source> JudgedPlan<S> {
    // Takes the plan apart.
    pub fn into_parts(self) -> Parts<S>
        ensures bank { result.bank ≡ self.plan.bank }
        ensures tasks { result.tasks ≡ self.plan.tasks }
        ensures verdict { result.verdict ≡ self.verdict }
        ensures bounds { result.bounds ≡ self.bounds }
        ensures by_judge { ByJudge S.work self }
    {
        let bounds = self.bounds;
        Parts {
            bank: self.bank,
            tasks: self.tasks,
            verdict: self.verdict,
            bounds,
        }
    }

    pub fn verdict(&self) -> Verdict
        ensures verdict { result ≡ self.now.verdict }
        ensures by_judge { ByJudge S.work self.now }
    {
        self.verdict
    }

    // The tasks of the plan.
    pub fn tasks(&self) -> &Tasks
        ensures { result.now ≡ self.now.plan.tasks }
    {
        &self.tasks
    }

    // The bank of the plan.
    pub fn bank(&self) -> &S
        ensures { result.now ≡ self.now.plan.bank }
    {
        &self.bank
    }

    // Writes the bounds into a list that the caller lends, as the project wants it, as many as fit, and returns how many it
    // wrote: none if the plan is not accepted. The rest of the list does not change.
    pub fn bounds(&self, list: &mut [u32]) -> usize
        ensures count { result ≡ min (bounds_told self.now.verdict) (length list.old) }
        ensures list { list.new ≡ take result self.now.bounds ++ drop result list.old }
        ensures by_judge { ByJudge S.work self.now }
    {
        let count = list.len().min(self.verdict.bounds() as usize);
        list[..count].copy_from_slice(&self.bounds[..count]);
        count
    }
}
