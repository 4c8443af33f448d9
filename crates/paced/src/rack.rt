// The rack: the interrupts of a panel.

use crate::table::Table;

// How many interrupts a rack has room for.
pub const INTERRUPTS: usize = 8;

const _: () = prove!(INTERRUPTS == 8);

// 0 to 8 paced parts, in the order in which they were added.
pub type Rack = Table<INTERRUPTS>;
