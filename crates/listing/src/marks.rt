// What a listing tells.
ghost use Rattle.std.specs.Prelude.{◌≡◌, ◌+◌, ◌^◌, ◌<◌, ◌≤◌, [], ◌∷◌, ◌++◌, true, false, length, nat_lt, slice_set};
ghost use Rattle.listing.specs.Listings.{Few};

use refusal::Refusal;
use std::marker::Model;

// One item more behind the first ones of a table, or false if it is full: that is the only way to fail, so an error would say no
// more than the `bool`.
fn push<T: Copy>(table: &mut [T], count: &mut u32, item: T) -> bool
    requires { length table.old < 2 ^ 32 }
    ensures answer { result ≡ nat_lt count.old (length table.old) }
    ensures added { result ≡ true → (table.new ≡ slice_set table.old count.old item) × (count.new ≡ count.old + 1) }
    ensures refused { result ≡ false → (table.new ≡ table.old) × (count.new ≡ count.old) }
{
    let place = *count as usize;
    if place >= table.len() {
        return false;
    }
    table[place] = item;
    *count += 1;
    true
}

// What the listing tells of a task.
#[derive(Clone, Copy, Default)]
pub struct TaskMark {
    pub bound: u32,
    pub deadline: u32,
    pub load: u64,
}

// The loads of up to 9 parts, and what is told of up to 16 tasks, in the order in which they were added: seen as two lists.
// The project wants fixed memory here, and no heap: so a table has a count beside it and is no `Vec`.
#[derive(Drop)]
pub struct Marks {
    parts: [u64; 9],
    part_count: u32,
    tasks: [TaskMark; 16],
    task_count: u32,
    ghost part_room: { length parts ≡ 9 },
    ghost part_limit: { part_count ≤ 9 },
    ghost task_room: { length tasks ≡ 16 },
    ghost task_limit: { task_count ≤ 16 },
}

impl Model for Marks {
    ghost use Rattle.std.specs.Prelude.{take};
    ghost use Rattle.listing.specs.Listings.{Marked};

    ghost Value = { Marked };

    ghost view = { λ m. record { parts = take m.part_count m.parts; tasks = take m.task_count m.tasks } };
}

impl Marks {
    // No part and no task.
    pub fn new() -> Marks
        ensures { result ≡ record { parts = []; tasks = [] } }
    {
        Marks {
            parts: [0; 9],
            part_count: 0,
            tasks: [TaskMark::default(); 16],
            task_count: 0,
        }
    }

    // The loads of the parts.
    pub(crate) fn parts(&self) -> &[u64]
        ensures loads { result.now ≡ self.now.parts }
        ensures few { length self.now.parts ≤ 9 }
    {
        &self.parts[..self.part_count as usize]
    }

    // What is told of the tasks.
    pub(crate) fn tasks(&self) -> &[TaskMark]
        ensures tasks { result.now ≡ self.now.tasks }
        ensures few { length self.now.tasks ≤ 16 }
    {
        &self.tasks[..self.task_count as usize]
    }

    // One part more behind the others, or false if there is no room: a bool, as at `push`.
    pub fn add_part(&mut self, load: u64) -> bool
        ensures answer { result ≡ nat_lt (length self.old.parts) 9 }
        ensures added { result ≡ true → self.new ≡ record self.old { parts = self.old.parts ++ load ∷ [] } }
        ensures refused { result ≡ false → self.new ≡ self.old }
        ensures few { Few self.old }
    {
        push(&mut self.parts, &mut self.part_count, load)
    }

    // One task more behind the others, or false if there is no room: a bool, as at `push`.
    pub fn add_task(&mut self, mark: TaskMark) -> bool
        ensures answer { result ≡ nat_lt (length self.old.tasks) 16 }
        ensures added { result ≡ true → self.new ≡ record self.old { tasks = self.old.tasks ++ mark ∷ [] } }
        ensures refused { result ≡ false → self.new ≡ self.old }
        ensures few { Few self.old }
    {
        push(&mut self.tasks, &mut self.task_count, mark)
    }
}

// A listing: that of an accepted plan, or that of a refusal.
pub type Listing = Result<Marks, Refusal>;
