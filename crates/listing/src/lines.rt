// The lines of a listing.
ghost use Rattle.std.specs.Prelude.{◌≡◌, ◌+◌, ◌*◌, ◌≤◌, length};
ghost use Rattle.listing.specs.Put.{Puts};
ghost use Rattle.listing.specs.Texts.{accepted_line, part_line, task_line, part_lines, task_lines, layer_name, refusal_text};

use crate::marks::{Marks, TaskMark};
use crate::pieces::{Piece, Text};
use refusal::{Layer, Refusal};

// The name of a layer. No `Display` of it: the lines take the bytes of a fixed text, and no formatter.
pub fn layer_name(layer: Layer) -> &'static str
    ensures { result.now ≡ layer_name layer }
{
    match layer {
        Layer::Words => "words",
        Layer::Lines => "lines",
        Layer::Plan => "plan",
        Layer::Judge => "judge",
        Layer::Run => "run",
        Layer::List => "list",
    }
}

impl<'a> Text<'a> {
    // That a plan is accepted, and how many tasks it has.
    #[tactic(auto, using(crate::proofs::Sizes::accepted_short))]
    pub(crate) fn put_accepted(&mut self, tasks: u32)
        requires { self.old.end + 20 ≤ length self.old.buffer.now }
        ensures text { Puts self.old self.new (accepted_line tasks) }
        ensures short { self.new.end ≤ self.old.end + 20 }
    {
        self.put_all(&[
            Piece::Fixed(b"accepted "),
            Piece::Number(u64::from(tasks)),
            Piece::Fixed(b"\n"),
        ]);
    }

    // The line of a part.
    #[tactic(auto, using(crate::proofs::Sizes::part_short))]
    fn put_part(&mut self, number: u32, load: u64)
        requires { self.old.end + 42 ≤ length self.old.buffer.now }
        ensures text { Puts self.old self.new (part_line number load) }
        ensures short { self.new.end ≤ self.old.end + 42 }
    {
        self.put_all(&[
            Piece::Fixed(b"part "),
            Piece::Number(u64::from(number)),
            Piece::Fixed(b" load "),
            Piece::Number(load),
            Piece::Fixed(b"\n"),
        ]);
    }

    // The line of a task.
    #[tactic(auto, using(crate::proofs::Sizes::task_short))]
    fn put_task(&mut self, number: u32, mark: TaskMark)
        requires { self.old.end + 79 ≤ length self.old.buffer.now }
        ensures text { Puts self.old self.new (task_line number mark) }
        ensures short { self.new.end ≤ self.old.end + 79 }
    {
        self.put_all(&[
            Piece::Fixed(b"task "),
            Piece::Number(u64::from(number)),
            Piece::Fixed(b" bound "),
            Piece::Number(u64::from(mark.bound)),
            Piece::Fixed(b" deadline "),
            Piece::Number(u64::from(mark.deadline)),
            Piece::Fixed(b" load "),
            Piece::Number(mark.load),
            Piece::Fixed(b"\n"),
        ]);
    }

    // The line of a refusal.
    #[tactic(auto, using(crate::proofs::Sizes::refusal_short))]
    pub(crate) fn put_refusal(&mut self, refusal: Refusal)
        requires { self.old.end + 36 ≤ length self.old.buffer.now }
        ensures text { Puts self.old self.new (refusal_text refusal) }
        ensures short { self.new.end ≤ self.old.end + 36 }
    {
        self.put_all(&[
            Piece::Fixed(b"refused "),
            Piece::Number(u64::from(refusal.number())),
            Piece::Fixed(b" "),
            Piece::Fixed(layer_name(refusal.layer()).as_bytes()),
            Piece::Fixed(b" "),
            Piece::Number(u64::from(refusal.line)),
            Piece::Fixed(b"\n"),
        ]);
    }

    // The lines of all parts, in their order. With those of tasks one generic function would need a trait of its own for the
    // line of an item and its longest text, which is more than these two loops.
    pub(crate) fn put_parts(&mut self, marks: &Marks)
        requires { self.old.end + 42 * 9 ≤ length self.old.buffer.now }
        ensures text { Puts self.old self.new (part_lines marks.now.parts) }
        ensures short { self.new.end ≤ self.old.end + 42 * 9 }
    {
        let loads = marks.parts();
        for (place, load) in loads.iter().enumerate() {
            self.put_part(place as u32 + 1, *load);
        }
    }

    // The lines of all tasks, in their order.
    pub(crate) fn put_tasks(&mut self, marks: &Marks)
        requires { self.old.end + 79 * 16 ≤ length self.old.buffer.now }
        ensures text { Puts self.old self.new (task_lines marks.now.tasks) }
        ensures short { self.new.end ≤ self.old.end + 79 * 16 }
    {
        let tasks = marks.tasks();
        for (place, mark) in tasks.iter().enumerate() {
            self.put_task(place as u32 + 1, *mark);
        }
    }
}
