// The lines of a timeline.
ghost use Rattle.std.specs.Prelude.{◌≡◌, [], ◌∷◌, ◌++◌, IfOk, OnOk};
ghost use Rattle.timeline.specs.Pictures.{part_line, task_line, timeline};

use crate::log::Log;
use crate::rows::{part_row, ruler, task_row};
use std::alloc::{AllocError, Global};

// Adds a line: a label of 8 columns, and a row.
fn add_line(text: &mut Vec<u8>, label: &str, row: &[u8]) -> Result<(), AllocError>
    ensures { OnOk result (text.new.items ≡ text.old.items ++ (label.now ++ (row.now ++ (10 ∷ [])))) }
{
    text.extend_from_slice(label.as_bytes())?;
    text.extend_from_slice(row)?;
    text.push(b'\n')?;
    Ok(())
}

// Adds the line of a part.
#[tactic(auto, using(crate::proofs::Lines::in_columns))]
fn add_part(heap: Global, text: &mut Vec<u8>, part: u32, log: &Log) -> Result<(), AllocError>
    ensures { OnOk result (text.new.items ≡ text.old.items ++ part_line log.now part) }
{
    let label = format!(in heap; "part {part:<3}")?;
    add_line(text, &label, &part_row(heap, part, log)?)
}

// Adds the line of a task. One function for both would take the label and the row that it makes from its caller, and leave nothing to say.
#[tactic(auto, using(crate::proofs::Lines::in_columns))]
fn add_task(heap: Global, text: &mut Vec<u8>, task: u32, log: &Log) -> Result<(), AllocError>
    ensures { OnOk result (text.new.items ≡ text.old.items ++ task_line log.now task) }
{
    let label = format!(in heap; "task {task:<3}")?;
    add_line(text, &label, &task_row(heap, task, log)?)
}

// The timeline of a run with so many parts and tasks, as lines of text. An error says that there is no memory for it; nothing is left
// of it then.
pub fn draw(heap: Global, parts: u32, tasks: u32, log: &Log) -> Result<Vec<u8>, AllocError>
    ensures { IfOk result (λ text. text.items ≡ timeline parts tasks log.now) }
{
    let mut text = Vec::new(heap);
    add_line(&mut text, "tick    ", &ruler(heap, log)?)?;
    for part in 1..=parts {
        add_part(heap, &mut text, part, log)?;
    }
    for task in 1..=tasks {
        add_task(heap, &mut text, task, log)?;
    }
    Ok(text)
}
