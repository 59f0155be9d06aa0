// Fleecelatch as one library: every public call of document 01 and nothing else. No call has a
// `requires`: each takes any input, checks it, and says what it answers and what every lent buffer
// holds afterwards.
#![tactic(auto)]

pub mod diffs;
pub mod edit_files;
pub mod encoding;
pub mod insert_overlap;
pub mod lists;
pub mod views;
