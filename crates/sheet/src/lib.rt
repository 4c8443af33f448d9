// From the bytes of a plan sheet to a plan and its listing.
#![tactic(auto)]

mod draft;
mod listing_of;
mod marking;
mod opening;
mod reading;

pub use listing_of::list;
pub use opening::read_plan;
pub use reading::LONGEST_SHEET;
