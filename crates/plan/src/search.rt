// The search for the smallest window that holds what a task needs. A method asks for a place below the count of tasks and for a bank of at
// most 16 parts: the judge goes over such places and has tested the parts, and a type for a place would have to be tied to its plan.
ghost use Rattle.std.specs.Prelude.{◌≡◌, ◌+◌, ◌^◌, ◌<◌, ◌≤◌, length};
ghost use Rattle.plan.specs.Needs.{total, needed, Searched};
ghost use Rattle.plan.specs.Tasks.{task_at};

use crate::stages::OpenPlan;
use source::Source;

// The demand of the first parts of a source over a window.
fn total_of<S: Source>(source: &S, parts: u32, ticks: u32) -> u64
    requires few { parts ≤ 16 }
    requires within { parts ≤ (S.work source.now).parts }
    requires window { ticks ≤ 1000000 }
    ensures value { result ≡ total (S.work source.now) parts ticks }
    ensures small { result ≤ 160000000000000 }
{
    let mut all: u64 = 0;
    // tried as a sum over a map: the proof of what `sum` asks, that each sum on the way fits, did not close. Counted from 0, as the
    // definition sums: of a loop over `1..=parts` a proof has to look at two ends, below the last number and at it
    for place in 0..parts {
        all += source.demand(place + 1, ticks).unwrap_or(0);
    }
    all
}

// What a task needs in all: what it needs itself, and the demand of the bank and of the tasks above it.
fn needed_with(own: u64, bank: u64, above: u64) -> u64
    requires own { own < 2 ^ 33 }
    requires bank { bank ≤ 160000000000000 }
    requires above { above ≤ 160000000000000 }
    ensures { result ≡ own + bank + above }
{
    own + bank + above
}

impl<S: Source> OpenPlan<S> {
    // What the task at a place needs of a window: its blocking, its largest cost, and all demand above it.
    fn need_of(&self, place: u32, ticks: u32) -> u64
        requires few { (S.work self.now.bank).parts ≤ 16 }
        requires task { place < length self.now.tasks }
        requires window { ticks ≤ 1000000 }
        ensures { result ≡ needed (S.work self.now.bank) self.now.tasks place ticks }
    {
        let own = self.tasks.own_need(place);
        let parts = self.bank.count();
        let by_bank = total_of(&self.bank, parts, ticks);
        let by_tasks = total_of(self.tasks.parts(), place, ticks);
        needed_with(own, by_bank, by_tasks)
    }

    // The smallest window of at most the deadline that holds what the task at a place needs, if there is one. It climbs: a
    // window that is too small has to be at least as large as what is needed in it.
    pub(crate) fn window_of(&self, place: u32) -> Option<u32>
        requires few { (S.work self.now.bank).parts ≤ 16 }
        requires task { place < length self.now.tasks }
        ensures { Searched (needed (S.work self.now.bank) self.now.tasks place) (task_at self.now.tasks place).limit.deadline result }
    {
        let deadline = self.tasks.deadline(place);
        let mut ticks = 1;
        while ticks <= deadline {
            let need = self.need_of(place, ticks);
            if need <= u64::from(ticks) {
                return Some(ticks);
            }
            if need > u64::from(deadline) {
                return None;
            }
            ticks = need as u32;
        }
        None
    }
}
