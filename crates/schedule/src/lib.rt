// The fixed schedule of functions that a panel repeats: one source and gate of one part.
#![tactic(auto)]

pub mod cyclic;
mod slot;

pub use slot::Slot;
