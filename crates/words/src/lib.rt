// The words of a plan sheet. A byte of a sheet is a letter a to z, a digit, a space or a line feed; each line ends with a
// line feed, and one space parts two words. A word is all letters, or a number in decimal of at most 1,000,000.
#![tactic(auto)]

pub mod bytes;
pub mod number;
pub mod split;
pub mod token;
