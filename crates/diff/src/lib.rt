// Diffs: items of numbers and text, and the passes that check them.
#![tactic(auto)]

pub mod diff;
