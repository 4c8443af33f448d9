// The cells of a row.
ghost use Rattle.std.specs.Prelude.{◌≡◌, ◌≤◌, [], vec_len, vec_capacity, IfOk, OnOk, OnErr};
ghost use Rattle.timeline.specs.Rows.{cells, ruler, part_cell, task_cell, part_row, task_row, RowOf, ShowsEnds};
ghost use Rattle.timeline.specs.Tracks.{AddsCell};

use crate::log::Log;
use crate::tracks::{Backlog, Pending, Ruler, Track};
use calls::{Answer, Call};
use std::alloc::{AllocError, Global};

// Adds to a row what a call adds to it, before which the track has come so far. It fails only where the row is full and finds no
// memory to grow.
fn add_cell<T: Track>(
    row: &mut Vec<u8>,
    track: &T,
    call: Call,
    answer: Answer,
) -> Result<(), AllocError>
    ensures cell { OnOk result (AddsCell T.cell T.Went track.now call answer row.old.items row.new.items) }
    ensures full { OnErr result (vec_capacity row.old ≤ vec_len row.old) }
{
    if let (Call::Tick, Answer::Ticked(got)) = (call, answer) {
        row.push(track.mark(got))?;
    }
    Ok(())
}

// The row of a track that goes along a log. The heap comes beside it, as to all that allocates.
fn row<T: Track>(heap: Global, mut track: T, log: &Log) -> Result<Vec<u8>, AllocError>
    requires { T.Went track [] track }
    ensures { IfOk result (λ row. row.items ≡ cells (T.cell track) [] log.now) }
{
    let mut row = Vec::new(heap);
    for (&call, &answer) in log.calls.iter().zip(log.answers) {
        add_cell(&mut row, &track, call, answer)?;
        track.pass(call, answer);
    }
    Ok(row)
}

// The ruler: it numbers the ticks.
pub(crate) fn ruler(heap: Global, log: &Log) -> Result<Vec<u8>, AllocError>
    ensures { IfOk result (λ row. row.items ≡ ruler log.now) }
{
    row(heap, Ruler { next: 1 }, log)
}

// The row of a part. An error says that there is no memory for the row, of which nothing is left then.
pub fn part_row(heap: Global, part: u32, log: &Log) -> Result<Vec<u8>, AllocError>
    ensures row { IfOk result (λ row. row.items ≡ part_row part log.now) }
    ensures law { IfOk result (λ row. RowOf (part_cell part) log.now row.items) }
{
    let backlog = Backlog {
        part,
        units: 0,
        got: 0,
    };
    row(heap, backlog, log)
}

// The row of a task. An error says what one of `part_row` says.
pub fn task_row(heap: Global, task: u32, log: &Log) -> Result<Vec<u8>, AllocError>
    ensures row { IfOk result (λ row. row.items ≡ task_row task log.now) }
    ensures law { IfOk result (λ row. RowOf (task_cell task) log.now row.items) }
    ensures ends { IfOk result (λ row. ShowsEnds task log.now row.items) }
{
    row(heap, Pending { task, left: None }, log)
}
