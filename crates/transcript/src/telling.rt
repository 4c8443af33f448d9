// From an answer to its line.
ghost use Rattle.std.specs.Prelude.{Some};
ghost use Rattle.std.specs.Fmt.{DisplaysOnOk};
ghost use Rattle.transcript.specs.Answers.{answer_text, refusal_text, got_text};

use calls::{Answer, Got};
use listing::layer_name;
use refusal::Refusal;
use std::fmt;

// The line that tells an answer, without its line feed.
#[derive(Clone, Copy)]
pub struct Line(pub Answer);

impl fmt::Display for Line {
    ghost output = { λ line. Some (answer_text line.0) };

    fn fmt<W: fmt::Write>(&self, f: &mut fmt::Formatter<W>) -> fmt::Result {
        match self.0 {
            Answer::Done => write!(f, "done"),
            Answer::Refused(refusal) => write_refusal(f, refusal),
            Answer::Ticked(got) => write_got(f, got),
        }
    }
}

// The number of the fault, the name of its layer, the line and the task.
fn write_refusal<W: fmt::Write>(f: &mut fmt::Formatter<W>, refusal: Refusal) -> fmt::Result
    ensures { DisplaysOnOk W.write_str_gives f.old result (Some (refusal_text refusal)) f.new }
{
    let number = refusal.number();
    let layer = layer_name(refusal.layer());
    let line = refusal.line;
    let task = refusal.task;
    write!(f, "refused {number} {layer} {line} task {task}")
}

// Who got the unit of a tick and, if a job ended with it, the age of that job.
fn write_got<W: fmt::Write>(f: &mut fmt::Formatter<W>, got: Got) -> fmt::Result
    ensures { DisplaysOnOk W.write_str_gives f.old result (Some (got_text got)) f.new }
{
    match got {
        Got::Nobody => write!(f, "tick nobody"),
        Got::Part(part) => write!(f, "tick part {part}"),
        Got::Task(task, None) => write!(f, "tick task {task}"),
        Got::Task(task, Some(age)) => write!(f, "tick task {task} ended {age}"),
    }
}
