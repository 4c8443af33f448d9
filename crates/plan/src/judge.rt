// The judge: task after task, from the highest on, until one has no window within its deadline.
ghost use Rattle.std.specs.Prelude.{◌≡◌, ℕ, ◌<◌, ◌≤◌, length, slice_index};
ghost use Rattle.refusal.specs.Laws.{FirstBroken};
ghost use Rattle.plan.specs.Judged.{Bounded, Unbounded, Judged, Filled, OnlyJudged, StaysAccepted, PlanBreaks, fault_told};
ghost use Rattle.plan.specs.Tasks.{Fitting};

use crate::stages::OpenPlan;
use crate::verdict::Verdict;
use source::Source;

// How many parts the bank of a plan may have.
pub const BANK_PARTS: u32 = 16;

const _: () = prove!(BANK_PARTS == 16);

// A verdict, and the list that goes with it: the bounds of the tasks, or of those above the late one, and 0 behind them.
#[derive(Clone, Copy)]
pub(crate) struct Finding {
    pub(crate) verdict: Verdict,
    // the verdict says how many it has: a rule of the project, which has fixed memory and no heap here
    pub(crate) bounds: [u32; 16],
}

impl<S: Source> OpenPlan<S> {
    // What is found where the task at a place has no window, and each above it has the one that stands in `bounds`. It asks for place
    // and parts as the search does. What the judge promises stands at each method from `judge` down to here, since each hands it on.
    fn late(&self, place: u32, bounds: [u32; 16]) -> Finding
        requires few { (S.work self.now.bank).parts ≤ 16 }
        requires task { place < length self.now.tasks }
        requires above { (i : ℕ) → i < place → Bounded (S.work self.now.bank) self.now.tasks i (slice_index bounds i) }
        requires rest { (i : ℕ) → place ≤ i → slice_index bounds i ≡ 0 }
        requires late { Unbounded (S.work self.now.bank) self.now.tasks place }
        requires fitting { Fitting self.now.tasks }
        ensures judged { Judged (S.work self.now.bank) self.now.tasks result.verdict result.bounds }
        ensures filled { Filled (S.work self.now.bank) self.now.tasks result.verdict result.bounds }
    {
        Finding {
            verdict: Verdict::late(place),
            bounds,
        }
    }

    // Judges one task after another.
    #[tactic(auto, using(cycles::proofs::Tables::all_same))]
    fn find(&self) -> Finding
        ensures judged { Judged (S.work self.now.bank) self.now.tasks result.verdict result.bounds }
        ensures filled { Filled (S.work self.now.bank) self.now.tasks result.verdict result.bounds }
        ensures fitting { Fitting self.now.tasks }
    {
        let mut bounds = [0; 16];
        let count = self.tasks.count();
        if count == 0 || self.bank.count() > BANK_PARTS {
            return Finding {
                verdict: Verdict::NotJudgeable,
                bounds,
            };
        }
        // over numbers: a place is what the search is asked about, and the bound it finds goes into the table there
        for place in 0..count {
            let Some(ticks) = self.window_of(place) else {
                return self.late(place, bounds);
            };
            bounds[place as usize] = ticks;
        }
        Finding {
            verdict: Verdict::Accepted(count),
            bounds,
        }
    }

    // What is found of the plan, with the law that nothing else can be found.
    pub(crate) fn verdict_on(&self) -> Finding
        ensures judged { Judged (S.work self.now.bank) self.now.tasks result.verdict result.bounds }
        ensures filled { Filled (S.work self.now.bank) self.now.tasks result.verdict result.bounds }
        ensures only { OnlyJudged (S.work self.now.bank) self.now.tasks result.verdict result.bounds }
        ensures stays { StaysAccepted (S.work self.now.bank) self.now.tasks result.verdict result.bounds }
        ensures first { FirstBroken (PlanBreaks (S.work self.now.bank) self.now.tasks) (fault_told result.verdict) }
        ensures fitting { Fitting self.now.tasks }
    {
        self.find()
    }
}
