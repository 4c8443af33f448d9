// A list of calls: one call a line, of which each is read here, and the line that tells the answer to a call.
#![tactic(auto)]

mod reading;
mod telling;

pub use reading::call_of;
pub use telling::Line;
