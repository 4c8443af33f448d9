// What a run keeps apart from its bank and the paced parts of its tasks.

ghost use Rattle.std.specs.Prelude.{◌≡◌};
ghost use Rattle.run.specs.Steps.{older};

// The most units that may wait in all backlogs together.
pub const MOST_BACKLOG: u64 = 1_000_000;

const _: () = prove!(MOST_BACKLOG == 1_000_000);

// The job of a task: the units left of it, and its age in ticks. With no units left no job is pending: the rules ask for the units left of
// any task, 0 where there is no job, and a plain job has them without a match.
#[derive(Clone, Copy, Default)]
pub struct Job {
    pub left: u64,
    pub age: u32,
}

impl Job {
    // A tick passes.
    pub(crate) fn pass(&mut self)
        ensures { self.new ≡ older self.old }
    {
        if self.left > 0 {
            self.age = self.age.saturating_add(1);
        } else {
            *self = Job::default();
        }
    }
}

// A hold: the number of the task that holds the processor, and for how many more units.
#[derive(Clone, Copy)]
pub struct Hold {
    pub task: u32,
    pub units: u64,
}

// The backlog of each part and the job of each task, by place from 0, in fixed memory as the project wants it: 16 places, as many parts as
// a plan is judged with, and as many tasks as it takes. And the hold, if a task holds the processor. What a state keeps to stands at the
// run.
#[derive(Clone, Copy, Default)]
pub struct State {
    pub backlogs: [u64; 16],
    pub jobs: [Job; 16],
    pub hold: Option<Hold>,
}
