#![tactic(auto)]

// Tests of the reading and the listing of plan sheets. What is expected was worked out from the rules.
#[cfg(test)]
mod tests;
