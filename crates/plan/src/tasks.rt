// The tasks of a plan: their paced parts and their limits.
ghost use Rattle.std.specs.Prelude.{◌≡◌, ◌+◌, ◌-◌, ◌^◌, ◌<◌, ◌≤◌, ◌++◌, [], ◌∷◌, length, OnOk, OnErr, nat_le, slice_set};
ghost use Rattle.std.specs.List.{list_all};
ghost use Rattle.std.specs.Result.{result_err};
ghost use Rattle.refusal.specs.Laws.{FirstBroken};
ghost use Rattle.refusal.specs.Refusals.{refusal_of, fault_in};
ghost use Rattle.paced.specs.Loads.{row_load};
ghost use Rattle.paced.specs.Makes.{asked};
ghost use Rattle.plan.specs.Limits.{bearable, limit_fault, task_fault, TaskBreaks};
ghost use Rattle.plan.specs.Needs.{own_need};
ghost use Rattle.plan.specs.Tasks.{Fitting, Unused, limits_of, made, rows_of, side_by_side, task_at, told_of_task};

use paced::row::{Pace, in_range};
use paced::table::Table;
use refusal::{Fault, Refusal, first_fault};
use source::{LONGEST, Source};
use std::marker::Model;

// What a task has besides its paced part, each at most 1,000,000: for how many units lower tasks may block it, how many ticks, at
// least one, a job may take from its release, and for how many units at a time the task itself may hold the processor. Pace and
// limits of a task are two values, as its table keeps them: the paced parts of the tasks are a gate.
#[derive(Clone, Copy, Default)]
pub struct Limit {
    pub blocking: u32,
    pub deadline: u32,
    pub hold: u32,
}

// Up to 16 tasks, in the order of their priority, seen as their list.
#[derive(Drop)]
pub struct Tasks {
    // part k is the paced part of the k-th task
    parts: Table<16>,
    // as many in use as there are parts: a rule of the project, which has fixed memory and no heap here
    limits: [Limit; 16],
}

impl Model for Tasks {
    ghost use Rattle.std.specs.Prelude.{List};
    ghost use Rattle.plan.specs.Tasks.{Task, Stored, side_by_side};

    ghost Value = { List Task };

    ghost view = { λ t. side_by_side t.parts.list t.limits };

    ghost invariant = { λ t. Stored t.parts.list t.limits };
}

// What a task needs itself, by its blocking and its largest cost.
fn own_need_of(blocking: u32, largest: u32) -> u64
    ensures value { result ≡ blocking + largest }
    ensures small { result < 2 ^ 33 }
{
    u64::from(blocking) + u64::from(largest)
}

// Whether a hold is at most the blocking in each of some limits.
fn bearable_by(limits: &[Limit], hold: u32) -> bool
    ensures { result ≡ list_all (λ limit. nat_le hold limit.blocking) limits.now }
{
    limits.iter().all(|limit| hold <= limit.blocking)
}

// Limits by place, with those of one task put at its place.
fn with_limit(limits: [Limit; 16], place: usize, limit: Limit) -> [Limit; 16]
    requires { place < 16 }
    ensures { result ≡ slice_set limits place limit }
{
    let mut changed = limits;
    changed[place] = limit;
    changed
}

impl Tasks {
    // A table with no task.
    pub fn new() -> Tasks
        ensures { result ≡ [] }
    {
        Tasks {
            parts: Table::new(),
            limits: [Limit::default(); 16],
        }
    }

    // The paced parts of the tasks.
    #[tactic(auto, using(crate::proofs::Sides::seen_rows))]
    pub(crate) fn parts(&self) -> &Table<16>
        ensures { result.now.list ≡ rows_of self.now }
    {
        &self.parts
    }

    // The limits of the tasks.
    #[tactic(auto, using(crate::proofs::Sides::seen_limits))]
    fn limits(&self) -> &[Limit]
        ensures { result.now ≡ limits_of self.now }
    {
        &self.limits[..self.parts.count() as usize]
    }

    // Whether a hold is at most the blocking of every task.
    fn bears(&self, hold: u32) -> bool
        ensures { result ≡ bearable self.now hold }
    {
        bearable_by(self.limits(), hold)
    }

    // What is wrong with the limits of one task more, if anything is: an option, as `first_fault` takes two.
    fn limit_fault(&self, pace: Pace, limit: Limit) -> Option<Fault>
        ensures { result ≡ limit_fault self.now (asked pace.entry) limit }
    {
        if !in_range(limit.deadline) || limit.blocking > LONGEST || limit.hold > LONGEST {
            return Some(Fault::OutOfRange);
        }
        if u64::from(limit.deadline) + u64::from(pace.jitter) > u64::from(pace.period) {
            return Some(Fault::Misfit);
        }
        if !self.bears(limit.hold) {
            return Some(Fault::HoldAboveBlocking);
        }
        None
    }

    // What is wrong with one task more, if anything is.
    fn fault(&self, pace: Pace, limit: Limit) -> Option<Fault>
        ensures answer { result ≡ task_fault self.now (asked pace.entry) limit }
        ensures first { FirstBroken (TaskBreaks self.now (asked pace.entry) limit) result }
    {
        first_fault(self.parts().fault(pace), self.limit_fault(pace, limit))
    }

    // One task more, below the others, or a refusal with the number that it would have had: a 17th task or more than 8 costs; a
    // period, deadline or cost of 0, no cost or a number above 1,000,000; a jitter that is not below the period or a deadline above
    // period less jitter; a hold above the blocking of an earlier task.
    pub fn add(&mut self, pace: Pace, limit: Limit) -> Result<(), Refusal>
        ensures answer { result_err result ≡ refusal_of (task_fault self.old (asked pace.entry) limit) (length self.old + 1) }
        ensures added { OnOk result (self.new ≡ self.old ++ made (asked pace.entry) limit ∷ []) }
        ensures refused { OnErr result (self.new ≡ self.old) }
        ensures first { FirstBroken (TaskBreaks self.old (asked pace.entry) limit) (fault_in (result_err result)) }
    {
        let place = self.count();
        if let Some(fault) = self.fault(pace, limit) {
            return Err(Refusal {
                fault,
                line: 0,
                task: place + 1,
            });
        }
        self.parts.add(pace)?;
        self.limits = with_limit(self.limits, place as usize, limit);
        Ok(())
    }

    // How many tasks there are, and what they keep to.
    #[tactic(auto, using(crate::proofs::Sides::seen_count, crate::proofs::Sides::seen_fitting))]
    pub fn count(&self) -> u32
        ensures count { result ≡ length self.now }
        ensures fitting { Fitting self.now }
    {
        self.parts.count()
    }

    // The limits of a task, or None if there is no such task.
    pub fn limit(&self, task: u32) -> Option<Limit>
        ensures { result ≡ told_of_task (λ t. t.limit) self.now task }
    {
        let place = task.checked_sub(1)?;
        self.limits().get(place as usize).copied()
    }

    // The share of the processor's time that a task asks for, in ten-thousandths, or None if there is no such task.
    pub fn load(&self, task: u32) -> Option<u64>
        ensures { result ≡ told_of_task (λ t. row_load t.row) self.now task }
    {
        self.parts().load(task)
    }

    // Takes the tasks apart: their paced parts, with their levels and places, and their limits, by place, of which those behind the
    // last task are 0.
    #[tactic(auto, using(crate::proofs::Sides::seen_count, crate::proofs::Sides::seen_fitting, crate::proofs::Sides::seen_rest))]
    pub fn into_parts(self) -> (Table<16>, [Limit; 16])
        ensures tasks { side_by_side result.0.list result.1 ≡ self }
        ensures count { length result.0.list ≡ length self }
        ensures rest { Unused (length self) result.1 }
        ensures fitting { Fitting self }
    {
        let limits = self.limits;
        (self.parts, limits)
    }

    // The deadline of the task at a place, counted from 0. This and the next ask for a place in use, as the search does.
    #[tactic(auto, using(crate::proofs::Sides::seen_limit, crate::proofs::Sides::seen_deadline, crate::proofs::Sides::seen_fitting))]
    pub(crate) fn deadline(&self, place: u32) -> u32
        requires { place < length self.now }
        ensures value { result ≡ (task_at self.now place).limit.deadline }
        ensures small { result ≤ 1000000 }
        ensures fitting { Fitting self.now }
    {
        self.limits[place as usize].deadline
    }

    // What the task at a place needs besides what goes before it: its blocking and its largest cost.
    #[tactic(auto, using(crate::proofs::Sides::seen_limit, crate::proofs::Sides::seen_largest))]
    pub(crate) fn own_need(&self, place: u32) -> u64
        requires { place < length self.now }
        ensures value { result ≡ own_need (task_at self.now place) }
        ensures small { result < 2 ^ 33 }
    {
        let largest = self.parts.largest_cost(place + 1).unwrap_or(0);
        own_need_of(self.limits[place as usize].blocking, largest)
    }
}
