// What each call makes of the state of a run.
ghost use Rattle.std.specs.Prelude.{◌≡◌, ◌+◌, ◌^◌, ◌<◌, ◌≤◌, Bool, length, nat_le};
ghost use Rattle.std.specs.List.{sum, position};
ghost use Rattle.std.specs.Option.{ForSome};
ghost use Rattle.run.specs.States.{at_start, backlog_of, left_of, holds, first_at, first_backlog, first_pending};
ghost use Rattle.run.specs.Steps.{grown, released, granted, let_go, ended, foremost, told_age, due, part_served, task_served, served, aged, goes_on, settled, passed, Placed};

use crate::state::{Hold, Job, State};
use calls::Got;

// What may wait for the processor: a backlog, and a job.
trait Waits: Copy {
    ghost waits: { Self → Bool };

    // Whether units of it are left.
    fn waits(&self) -> bool
        ensures { result ≡ waits self.now };
}

impl Waits for u64 {
    ghost waits = { λ units. nat_le 1 units };

    fn waits(&self) -> bool {
        *self > 0
    }
}

impl Waits for Job {
    ghost waits = { λ job. nat_le 1 job.left };

    fn waits(&self) -> bool {
        self.left > 0
    }
}

// The place of the first that waits.
fn place_of_first<T: Waits>(items: &[T]) -> Option<usize>
    ensures { result ≡ position T.waits items.now }
{
    items.iter().position(|item| item.waits())
}

// The number of the first that waits, of some.
fn first<T: Waits>(items: &[T], count: u32) -> Option<u32>
    requires { count ≤ length items.now }
    ensures { result ≡ first_at T.waits items.now count }
{
    let place = place_of_first(&items[..count as usize])?;
    Some(place as u32 + 1)
}

// A state has no invariants, since the definitions of what a call makes write states down and would owe a proof for each; so each
// method asks for the places that it goes to.
impl State {
    // The state of a run at its start: nothing waits, and nobody holds.
    pub(crate) fn at_start() -> State
        ensures { result ≡ at_start }
    {
        State::default()
    }

    // The units in all backlogs.
    pub(crate) fn waiting(&self) -> u64
        requires { sum self.now.backlogs ≤ 1000000 }
        ensures { result ≡ sum self.now.backlogs }
    {
        self.backlogs.iter().sum()
    }

    // The number of the first part with backlog, of some parts.
    fn first_backlog(&self, parts: u32) -> Option<u32>
        requires { parts ≤ length self.now.backlogs }
        ensures { result ≡ first_backlog self.now.backlogs parts }
    {
        first(&self.backlogs, parts)
    }

    // The number of the first task with a pending job, of some tasks.
    pub(crate) fn first_pending(&self, tasks: u32) -> Option<u32>
        requires { tasks ≤ length self.now.jobs }
        ensures { result ≡ first_pending self.now.jobs tasks }
    {
        first(&self.jobs, tasks)
    }

    // The units left of the job of a task.
    pub(crate) fn left_of(&self, task: u32) -> u64
        requires first { 1 ≤ task }
        requires last { task ≤ length self.now.jobs }
        ensures { result ≡ left_of self.now.jobs task }
    {
        self.jobs[(task - 1) as usize].left
    }

    // Whether a task holds the processor.
    pub(crate) fn is_held_by(&self, task: u32) -> bool
        ensures { result ≡ holds self.now.hold task }
    {
        self.hold.is_some_and(|hold| hold.task == task)
    }

    // Units were offered to a part.
    pub(crate) fn grow(&mut self, part: u32, units: u64)
        requires first { 1 ≤ part }
        requires last { part ≤ length self.old.backlogs }
        requires small { backlog_of self.old.backlogs part + units < 2 ^ 64 }
        ensures { self.new ≡ grown self.old part units }
    {
        self.backlogs[(part - 1) as usize] += units;
    }

    // A job of a task is released.
    pub(crate) fn release(&mut self, task: u32, units: u64)
        requires first { 1 ≤ task }
        requires last { task ≤ length self.old.jobs }
        ensures { self.new ≡ released self.old task units }
    {
        self.jobs[(task - 1) as usize] = Job {
            left: units,
            age: 0,
        };
    }

    // A hold is granted.
    pub(crate) fn grant(&mut self, task: u32, units: u64)
        ensures { self.new ≡ granted self.old task units }
    {
        self.hold = Some(Hold { task, units });
    }

    // Nobody holds any more.
    pub(crate) fn let_go(&mut self)
        ensures { self.new ≡ let_go self.old }
    {
        self.hold = None;
    }

    // The job of a task is ended, and any hold of that task.
    pub(crate) fn end(&mut self, task: u32)
        requires first { 1 ≤ task }
        requires last { task ≤ length self.old.jobs }
        ensures { self.new ≡ ended self.old task }
    {
        self.jobs[(task - 1) as usize] = Job::default();
        self.hold = self.hold.filter(|hold| hold.task != task);
    }

    // The task that goes before the other tasks: the holder, else the highest with a pending job.
    fn foremost(&self, tasks: u32) -> Option<u32>
        requires { tasks ≤ length self.now.jobs }
        ensures { result ≡ foremost tasks self.now }
    {
        let holder = self.hold.map(|hold| hold.task);
        holder.or_else(|| self.first_pending(tasks))
    }

    // The age of the job of a task that gets a unit, this tick included, if the job ends with the unit.
    fn told_age(&self, task: u32) -> Option<u32>
        requires first { 1 ≤ task }
        requires last { task ≤ length self.now.jobs }
        ensures { result ≡ told_age self.now.jobs task }
    {
        let job = self.jobs[(task - 1) as usize];
        (job.left <= 1).then(|| job.age.saturating_add(1))
    }

    // Who gets the unit of a tick.
    pub(crate) fn due(&self, parts: u32, tasks: u32) -> Got
        requires parts { parts ≤ length self.now.backlogs }
        requires tasks { tasks ≤ length self.now.jobs }
        requires hold { ForSome self.now.hold (λ h. (1 ≤ h.task) × (h.task ≤ tasks)) }
        ensures { result ≡ due parts tasks self.now }
    {
        if let Some(part) = self.first_backlog(parts) {
            return Got::Part(part);
        }
        match self.foremost(tasks) {
            Some(task) => Got::Task(task, self.told_age(task)),
            None => Got::Nobody,
        }
    }

    // A part is given a unit.
    fn serve_part(&mut self, part: u32)
        requires first { 1 ≤ part }
        requires last { part ≤ length self.old.backlogs }
        ensures { self.new ≡ part_served self.old part }
    {
        let place = (part - 1) as usize;
        self.backlogs[place] = self.backlogs[place].saturating_sub(1);
    }

    // A task is given a unit.
    fn serve_task(&mut self, task: u32)
        requires first { 1 ≤ task }
        requires last { task ≤ length self.old.jobs }
        ensures { self.new ≡ task_served self.old task }
    {
        let place = (task - 1) as usize;
        self.jobs[place].left = self.jobs[place].left.saturating_sub(1);
        if let Some(hold) = &mut self.hold
            && hold.task == task
        {
            hold.units = hold.units.saturating_sub(1);
        }
    }

    // The unit of a tick is given.
    fn serve(&mut self, got: Got)
        requires placed { Placed got }
        requires backlogs { length self.old.backlogs ≡ 16 }
        requires jobs { length self.old.jobs ≡ 16 }
        ensures { self.new ≡ served self.old got }
    {
        match got {
            Got::Nobody => (),
            Got::Part(part) => self.serve_part(part),
            Got::Task(task, _) => self.serve_task(task),
        }
    }

    // Every pending job is a tick older.
    fn age(&mut self)
        ensures { self.new ≡ aged self.old }
    {
        for job in self.jobs.iter_mut() {
            job.pass();
        }
    }

    // Whether a hold goes on: it has units left, and its task a job.
    fn goes_on(&self, hold: Hold) -> bool
        requires first { 1 ≤ hold.task }
        requires last { hold.task ≤ length self.now.jobs }
        ensures { result ≡ goes_on self.now.jobs hold }
    {
        hold.units > 0 && self.left_of(hold.task) > 0
    }

    // A hold that does not go on is over.
    fn settle(&mut self)
        requires { ForSome self.old.hold (λ h. (1 ≤ h.task) × (h.task ≤ length self.old.jobs)) }
        ensures { self.new ≡ settled self.old }
    {
        self.hold = self.hold.filter(|hold| self.goes_on(*hold));
    }

    // A tick in which that one gets the unit.
    pub(crate) fn pass(&mut self, got: Got)
        requires placed { Placed got }
        requires backlogs { length self.old.backlogs ≡ 16 }
        requires jobs { length self.old.jobs ≡ 16 }
        requires hold { ForSome self.old.hold (λ h. (1 ≤ h.task) × (h.task ≤ 16)) }
        ensures { self.new ≡ passed self.old got }
    {
        self.serve(got);
        self.age();
        self.settle();
    }
}
