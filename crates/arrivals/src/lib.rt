// Drives one paced part from its start, and says which arrival times its answers stand for.
#![tactic(auto)]

ghost use Rattle.std.specs.Prelude.{◌≡◌, IfOk, OnOk, OnErr};
ghost use Rattle.std.specs.Result.{result_err};
ghost use Rattle.refusal.specs.Laws.{FirstBroken};
ghost use Rattle.refusal.specs.Refusals.{refusal_of, fault_in};
ghost use Rattle.paced.specs.Makes.{asked, fault_of, fresh, PaceBreaks};
ghost use Rattle.arrivals.specs.Steps.{answer, after, played, moved};
ghost use Rattle.arrivals.specs.Times.{AllAnswered};

use paced::row::Pace;
use paced::single::Paced;
use refusal::Refusal;
use source::Gate;

// What is done to a part: a tick passes, or units are offered.
#[derive(Clone, Copy)]
pub enum Step {
    Tick,
    Offer(u64),
}

// Makes one step, and says whether it was taken. A tick always is.
fn make(part: &mut Paced, step: Step) -> bool
    ensures answer { result ≡ answer part.old.row step }
    ensures after { part.new.row ≡ after part.old.row step }
{
    match step {
        Step::Tick => {
            part.tick();
            true
        }
        Step::Offer(units) => part.offer(1, units),
    }
}

// Takes a part through the steps, as many as there is room for answers, and writes each answer. Crate `guarantee` has a
// loop like it, `play` over the calls of a run: what a call makes is told by a relation, and what a step makes by a function.
#[tactic(auto, using(crate::proofs::Playing::answers_on, crate::proofs::Playing::end_on, crate::proofs::Playing::answers_end, crate::proofs::Playing::end_end))]
fn play(part: &mut Paced, steps: &[Step], taken: &mut [bool])
    ensures answers { taken.new ≡ played part.old.row steps.now taken.old }
    ensures end { part.new.row ≡ moved part.old.row steps.now taken.old }
{
    // a loop over an adapter of `iter_mut` tells a proof nothing of what it writes, so the answers go by place
    let count = steps.len().min(taken.len());
    for (place, step) in steps[..count].iter().enumerate() {
        taken[place] = make(part, *step);
    }
}

// Makes a part of that pace, or says why there is none, and takes it through the steps, as many as there is room
// for answers. After each step it writes whether the step was taken. Answers beyond the steps are unchanged.
//
// An offer within the cost that is due is refused exactly when no arrival times explain it and the offers already taken:
// arrivals are at least the period apart, the first may be before the start, and each offer comes after its own arrival
// by at most the jitter.
#[tactic(auto, using(crate::proofs::Following::played_answered))]
pub fn replay(pace: Pace, steps: &[Step], taken: &mut [bool]) -> Result<Paced, Refusal>
    ensures answer { result_err result ≡ refusal_of (fault_of (asked pace.entry)) 0 }
    ensures refused { OnErr result (taken.new ≡ taken.old) }
    ensures played { OnOk result (taken.new ≡ played (fresh (asked pace.entry)) steps.now taken.old) }
    ensures moved { IfOk result (λ part. part.row ≡ moved (fresh (asked pace.entry)) steps.now taken.old) }
    ensures first { FirstBroken (PaceBreaks (asked pace.entry)) (fault_in (result_err result)) }
    ensures explained { OnOk result (AllAnswered (asked pace.entry) steps.now taken.new) }
{
    let mut part = Paced::new(pace)?;
    play(&mut part, steps, taken);
    Ok(part)
}
