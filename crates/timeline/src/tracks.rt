// What a row is read off by: what is known between two calls of a log, and what stands in the row for a tick. Each is told case by
// case, as the page on the timeline tells it.
ghost use Rattle.std.specs.Prelude.{◌≡◌, ℕ, ◌^◌, ◌<◌, List, length, cond};
ghost use Rattle.calls.specs.Events.{Event, part_units};
ghost use Rattle.calls.specs.Jobs.{job_of};
ghost use Rattle.calls.specs.declared.Got.{Got};
ghost use Rattle.timeline.specs.Rows.{left_of, ruler_cell, part_cell, task_cell, passed_in, given_in};
ghost use Rattle.timeline.specs.Steps.{left_after};
ghost use Rattle.timeline.specs.Tracks.{Counted, GoesOn, Numbered};

use calls::{Answer, Call, Got};

// A track goes along a log, one call after another.
pub(crate) trait Track: Drop {
    // the cell of a tick with that log before it, in the row of a track that began as this one
    ghost cell: { Self → List Event → Got → ℕ };

    // what the first track is after these calls: the second
    ghost Went: { Self → List Event → Self → Type 0 };

    // What stands in the row for a tick.
    fn mark(&self, got: Got) -> u8
        ensures { (start : Self) (log : List Event) → Went start log self.now → result ≡ cell start log got };

    // Takes a call and the answer to it: two values, as a log has them in two lists, since each match takes both apart.
    fn pass(&mut self, call: Call, answer: Answer)
        requires { (start : Self) × (log : List Event) × Went start log self.old × (length log < 2 ^ 63) }
        ensures { GoesOn Went self.old call answer self.new };
}

// The ruler: it numbers the ticks.
#[derive(Drop)]
pub(crate) struct Ruler {
    // the number of the tick that comes next
    pub next: u64,
}

impl Track for Ruler {
    ghost cell = { λ start. ruler_cell };

    ghost Went = { λ start log ruler. Numbered log ruler.next };

    fn mark(&self, _got: Got) -> u8 {
        if self.next % 10 == 0 {
            b'0' + (self.next / 10 % 10) as u8
        } else if self.next % 5 == 0 {
            b'+'
        } else {
            b'-'
        }
    }

    fn pass(&mut self, call: Call, answer: Answer) {
        if passed(call, answer) {
            self.next += 1;
        }
    }
}

// Whether the call is a tick that passed.
fn passed(call: Call, answer: Answer) -> bool
    ensures { cond result 1 0 ≡ passed_in call answer }
{
    matches!((call, answer), (Call::Tick, Answer::Ticked(_)))
}

// The backlog of a part.
#[derive(Drop)]
pub(crate) struct Backlog {
    pub part: u32,
    // how many units were let in for the part, and how many it got: as wide as the units of any list of calls
    pub units: u128,
    pub got: u128,
}

impl Track for Backlog {
    ghost cell = { λ start. part_cell start.part };

    ghost Went = { λ start log backlog. (backlog.part ≡ start.part) × Counted start.part log backlog.units backlog.got };

    fn mark(&self, got: Got) -> u8 {
        match got {
            Got::Part(number) if number == self.part => b'#',
            _ if self.got < self.units => b'-',
            _ => b'.',
        }
    }

    fn pass(&mut self, call: Call, answer: Answer) {
        self.units += u128::from(let_in(self.part, call, answer));
        self.got += u128::from(given(self.part, call, answer));
    }
}

// The units that a call with that answer lets in for a part.
fn let_in(part: u32, call: Call, answer: Answer) -> u64
    ensures { result ≡ part_units part call answer }
{
    match (call, answer) {
        (Call::Offer(number, units), Answer::Done) if number == part => units,
        _ => 0,
    }
}

// The units that it gives the part.
fn given(part: u32, call: Call, answer: Answer) -> u64
    ensures { result ≡ given_in part call answer }
{
    match (call, answer) {
        (Call::Tick, Answer::Ticked(Got::Part(number))) => u64::from(number == part),
        _ => 0,
    }
}

// The job of a task.
#[derive(Drop)]
pub(crate) struct Pending {
    pub task: u32,
    // how many units are left of the job, if one is pending
    pub left: Option<u64>,
}

impl Track for Pending {
    ghost cell = { λ start. task_cell start.task };

    ghost Went = { λ start log job. (job.task ≡ start.task) × (job.left ≡ left_of (job_of start.task log)) };

    fn mark(&self, got: Got) -> u8 {
        match (got, self.left) {
            (Got::Task(number, _), Some(0 | 1)) if number == self.task => b'!',
            (Got::Task(number, _), _) if number == self.task => b'#',
            (_, Some(_)) => b'-',
            (_, None) => b'.',
        }
    }

    fn pass(&mut self, call: Call, answer: Answer) {
        self.left = left_after(self.task, self.left, call, answer);
    }
}

// The units that are left of the job of a task after a call with that answer.
fn left_after(task: u32, left: Option<u64>, call: Call, answer: Answer) -> Option<u64>
    ensures { result ≡ left_after task left call answer }
{
    match (call, answer) {
        (Call::Release(number, units), Answer::Done) if number == task => Some(units),
        (Call::End(number), Answer::Done) if number == task => None,
        (Call::Tick, Answer::Ticked(Got::Task(number, _))) if number == task => match left {
            Some(units) if units > 1 => Some(units - 1),
            _ => None,
        },
        _ => left,
    }
}
