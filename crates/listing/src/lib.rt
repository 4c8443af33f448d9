// The listing of a marked plan sheet, written into a buffer of the caller's.
#![tactic(auto)]

mod lines;
mod marks;
mod pieces;
mod write;

pub use lines::layer_name;
pub use marks::{Listing, Marks, TaskMark};
pub use write::{ROOM, check_room, write_listing};
