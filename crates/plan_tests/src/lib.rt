#![tactic(auto)]

// Tests of the plan and its judge, from numbers that were worked out by hand or come from a known case study.
#[cfg(test)]
mod tests;
