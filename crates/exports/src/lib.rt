// The static library: every call of crate `reconcile`, and the program's work, for C and for languages
// that call C. A slice is a pointer and a length; what each call does is its statement, told as four
// numbers. No call has a `requires`.
#![tactic(auto)]

pub mod diffs;
pub mod edit_files;
pub mod encoding;
pub mod insert_overlap;
pub mod lists;
pub mod program;
pub mod views;
