// The overlap of inserts: the longest beginning of one list of keys that occurs in another.
#![tactic(auto)]

pub mod find_longest_prefix_contained_within;

pub use find_longest_prefix_contained_within::{fill, scan};

// A part of old, its end past its last key.
#[derive(Clone, Copy)]
pub struct Range {
    pub start: usize,
    pub end: usize,
}
