#![tactic(auto)]

// Tests of the text of a listing, and of the lines of calls and answers. What is expected was written out by hand.
#[cfg(test)]
mod call_lines;
#[cfg(test)]
mod listings;
