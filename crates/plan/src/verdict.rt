// The judge's verdict on a plan.
ghost use Rattle.std.specs.Prelude.{◌≡◌, ◌↔◌, ◌+◌, ◌<◌, true};
ghost use Rattle.plan.specs.Judged.{fault_told, number_told, outcome_of, bounds_told};
ghost use Rattle.plan.specs.declared.verdict.Verdict.TheVariants.{Late};

use refusal::{Fault, Refusal};

// A verdict, and no `Result`: a plan that is judged late is judged, and `outcome` makes a refusal of it for those who want one.
#[derive(Clone, Copy, PartialEq, Eq, Debug)]
pub enum Verdict {
    // Every one of that many tasks has a bound of at most its deadline.
    Accepted(u32),
    // There is no task, or the bank has more than 16 parts.
    NotJudgeable,
    // The task with this number is the first that has no bound of at most its deadline.
    Late(u32),
}

impl Verdict {
    // The task at a place, counted from 0, is the first that has no bound of at most its deadline.
    pub(crate) fn late(place: u32) -> Verdict
        requires { place < 16 }
        ensures { result ≡ Late (place + 1) }
    {
        Verdict::Late(place + 1)
    }

    // The number of the refusal that the verdict stands for, 0 if the plan is accepted: a number, as its definition has it, said case
    // by case, so that it can be held against the pages.
    pub fn number(self) -> u32
        ensures { result ≡ number_told (fault_told self) }
    {
        match self {
            Verdict::Accepted(_) => 0,
            Verdict::NotJudgeable => 9,
            Verdict::Late(_) => 10,
        }
    }

    // How many tasks are accepted, or the refusal that the verdict stands for, which is about no line yet.
    pub fn outcome(self) -> Result<u32, Refusal>
        ensures { result ≡ outcome_of self }
    {
        match self {
            Verdict::Accepted(tasks) => Ok(tasks),
            Verdict::NotJudgeable => Err(Refusal::plain(Fault::NotJudgeable)),
            Verdict::Late(task) => Err(Refusal::new(Fault::NoWindow, 0, task)),
        }
    }

    // How many bounds go with the verdict: one for each task of an accepted plan.
    pub fn bounds(self) -> u32
        ensures { result ≡ bounds_told self }
    {
        match self {
            Verdict::Accepted(tasks) => tasks,
            _ => 0,
        }
    }
}

// Whether two verdicts are the same: what `==` answers, on which tests rest.
pub fn same_verdict(verdict: Verdict, other: Verdict) -> bool
    ensures { (result ≡ true) ↔ (verdict ≡ other) }
{
    verdict == other
}
