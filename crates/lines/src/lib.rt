// The lines of a plan sheet: what each says, as a row.
#![tactic(auto)]

pub mod reading;
pub mod row;
