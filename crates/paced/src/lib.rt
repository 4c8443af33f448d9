// Work that comes at a pace: at most one arrival a period, each late by at most the jitter, with costs in a cycle.
#![tactic(auto)]

pub mod rack;
pub mod row;
pub mod single;
pub mod table;
