// The timeline of a run: a row for each part and each task, with a cell for each tick that passed.
//
// All of it is read off the log of the run, its calls and their answers. Parts and tasks are numbered from 1.
#![tactic(auto)]

mod log;
mod picture;
mod rows;
mod tracks;

pub use log::Log;
pub use picture::draw;
pub use rows::{part_row, task_row};
