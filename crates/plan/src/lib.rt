// The plan of a panel: its bank, its tasks, and the judge.
#![tactic(auto)]

mod judge;
mod search;
pub mod stages;
pub mod tasks;
pub mod verdict;
