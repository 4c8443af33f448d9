// What is told of a sheet: loads, bounds and deadlines, or a refusal.
ghost use Rattle.std.specs.Prelude.{◌≡◌, ◌<◌, [], length};
ghost use Rattle.plan.specs.Judged.{outcome_of};
ghost use Rattle.plan.specs.Tasks.{task_at};
ghost use Rattle.plan.specs.declared.verdict.Verdict.TheVariants.{Accepted};
ghost use Rattle.listing.specs.Listings.{listing_text};
ghost use Rattle.sheet.specs.Drafts.{plan_view};
ghost use Rattle.sheet.specs.Marking.{part_loads, task_mark, marks_of, line_of, placed, verdict_text, Listed};

use crate::reading::{Finished, read};
use listing::{Listing, Marks, TaskMark};
use paced::rack::Rack;
use plan::stages::JudgedPlan;
use plan::tasks::Tasks;
use plan::verdict::Verdict;
use refusal::Refusal;
use schedule::cyclic::Schedule;
use source::Source;
use source::pair::Pair;

// The line of a task on a sheet of so many lines: the tasks stand on the last ones.
fn line_of(lines: u32, tasks: u32, task: u32) -> u32
    ensures { result ≡ line_of lines tasks task }
{
    let below = tasks.saturating_sub(task);
    lines.saturating_sub(below)
}

// What a verdict comes to, with the line of the task on a refusal.
fn outcome_on_line(verdict: Verdict, lines: u32, tasks: u32) -> Result<u32, Refusal>
    ensures { result ≡ placed lines tasks (outcome_of verdict) }
{
    verdict.outcome().map_err(|refusal| refusal.on_line(line_of(lines, tasks, refusal.task)))
}

// The loads of the parts: the interrupts in their order, then the schedule.
fn part_marks(bank: &Pair<Rack, Schedule>) -> Marks
    ensures { result ≡ record { parts = part_loads bank.now.left.list bank.now.right.timetable; tasks = [] } }
{
    let mut marks = Marks::new();
    for part in 1..=bank.left.count() {
        let _ = marks.add_part(bank.left.load(part).unwrap_or(0));
    }
    let _ = marks.add_part(bank.right.load());
    marks
}

// What is told of the task at a place.
fn task_mark(tasks: &Tasks, place: u32, bound: u32) -> TaskMark
    requires place { place < length tasks.now }
    requires small { place < 16 }
    ensures { result ≡ task_mark (task_at tasks.now place) bound }
{
    let deadline = tasks.limit(place + 1).map_or(0, |limit| limit.deadline);
    let load = tasks.load(place + 1).unwrap_or(0);
    TaskMark {
        bound,
        deadline,
        load,
    }
}

// What is told of an accepted plan: its parts, then its tasks.
fn marks_of(judged: &JudgedPlan<Pair<Rack, Schedule>>) -> Marks
    requires { judged.now.verdict ≡ Accepted (length judged.now.plan.tasks) }
    ensures { result ≡ marks_of (plan_view judged.now.plan) judged.now.bounds }
{
    let mut marks = part_marks(judged.bank());
    let mut bounds = [0; 16];
    let count = judged.bounds(&mut bounds);
    let told = &bounds[..count];
    for (place, bound) in told.iter().enumerate() {
        let _ = marks.add_task(task_mark(judged.tasks(), place as u32, *bound));
    }
    marks
}

// What is told of a judged plan, whose sheet has so many lines: its parts and its tasks if it is accepted, else why it is refused.
fn told(judged: &JudgedPlan<Pair<Rack, Schedule>>, lines: u32) -> Listing
    ensures { listing_text result ≡ verdict_text (plan_view judged.now.plan) lines judged.now.verdict judged.now.bounds }
{
    outcome_on_line(judged.verdict(), lines, judged.tasks().count())?;
    Ok(marks_of(judged))
}

// What is told of a sheet: of its plan if it is accepted, else why it is refused.
pub(crate) fn marked(sheet: &[u8]) -> Listing
    ensures { Listed sheet.now (listing_text result) }
{
    let Finished { draft, lines } = read(sheet)?;
    told(&draft.into_plan().judge(), lines)
}
